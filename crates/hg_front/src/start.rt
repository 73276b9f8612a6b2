//! Whether a command may begin where it is started.

ghost use Rattle.std.specs.Prelude.{◌≡◌, IfNone, IfSome, not};
ghost use Rattle.hg_front.specs.Start as starts;
ghost use Rattle.hg_front.specs.Start.{BeginsAt, IsStopped};

use crate::further::{failed_because, say, without_memory};
use crate::guarding::{Refused, Why, changes, guard};
use crate::placing::Placed;
use crate::reading::{Requires, Unreadable, read_requires};
use crate::refusing::refuse;
use hg_report::Fault;
use hg_stream::Sink;
use std::alloc::Global;
use std::rt::Files;

/// Where a command is started.
#[derive(Drop)]
pub enum Here {
    /// In no repository: no folder `.hg` is here or above.
    Outside,
    /// In a repository, with what it requires of the programs that use it.
    Inside(Requires),
    /// In a repository of which that can't be told.
    Unread(Unreadable),
}

/// Where a command is started; `inside` says whether the current folder is the root of a repository, whose requirements are read then.
pub fn begun_at<R: Files + AllocGlobal>(rt: &R, inside: bool) -> Here
    ensures { starts.is_outside result ≡ not inside }
{
    if !inside {
        return Here::Outside;
    }
    match read_requires(rt) {
        Ok(texts) => Here::Inside(texts),
        Err(why) => Here::Unread(why),
    }
}

/// Whether a command begins where it is started: else it is answered the status that it ends with, once that was told.
pub(crate) fn stopped<E: Sink>(
    alloc: Global,
    here: &Here,
    placed: &Placed,
    err: &mut E,
) -> Option<u8>
    ensures status { IfSome result (λ status. status ≡ 255) }
    ensures begins { IfNone result (BeginsAt here.now placed.now (E.bytes err.old) (E.bytes err.new) (E.faults err.old) (E.faults err.new)) }
    ensures stopped { IfSome result (λ status. IsStopped here.now placed.now (E.bytes err.old) (E.bytes err.new) (E.faults err.old) (E.faults err.new)) }
{
    match here {
        Here::Outside => stopped_outside(alloc, placed, err),
        Here::Inside(texts) => stopped_inside(alloc, texts, placed, err),
        Here::Unread(why) => Some(unanswered(alloc, why, err)),
    }
}

// Outside of a repository a command that changes something is refused; of any other it is said that the current folder is its root.
fn stopped_outside<E: Sink>(alloc: Global, placed: &Placed, err: &mut E) -> Option<u8>
    ensures status { IfSome result (λ status. status ≡ 255) }
    ensures begins { IfNone result (BeginsAt starts.outside placed.now (E.bytes err.old) (E.bytes err.new) (E.faults err.old) (E.faults err.new)) }
    ensures stopped { IfSome result (λ status. IsStopped starts.outside placed.now (E.bytes err.old) (E.bytes err.new) (E.faults err.old) (E.faults err.new)) }
{
    if changes(placed) {
        let refused = Refused {
            why: Why::NoRepository,
            what: "",
        };
        return Some(refuse(alloc, err, refused));
    }
    say(alloc, err, "no .hg here or above");
    None
}

// In a repository it is refused exactly where the guard refuses it.
fn stopped_inside<E: Sink>(
    alloc: Global,
    texts: &Requires,
    placed: &Placed,
    err: &mut E,
) -> Option<u8>
    ensures status { IfSome result (λ status. status ≡ 255) }
    ensures begins { IfNone result (BeginsAt (starts.inside texts.now) placed.now (E.bytes err.old) (E.bytes err.new) (E.faults err.old) (E.faults err.new)) }
    ensures stopped { IfSome result (λ status. IsStopped (starts.inside texts.now) placed.now (E.bytes err.old) (E.bytes err.new) (E.faults err.old) (E.faults err.new)) }
{
    let own = texts.own.as_deref();
    let store = texts.store.as_deref();
    match guard(own, store, placed) {
        Ok(()) => None,
        Err(refused) => Some(refuse(alloc, err, refused)),
    }
}

// What the repository requires can't be told.
fn unanswered<E: Sink>(alloc: Global, why: &Unreadable, err: &mut E) -> u8
    ensures status { result ≡ 255 }
    ensures told { starts.TellsUnread why.now (E.bytes err.old) (E.bytes err.new) (E.faults err.old) (E.faults err.new) }
{
    match why {
        Unreadable::OutOfMemory => without_memory(err),
        Unreadable::Named(text) => failed_because(alloc, Fault::ShelfFailed, err, text.as_str()),
    }
}
