//! What a further line says behind those of a command.

ghost use Rattle.std.specs.Prelude.{◌≡◌};
ghost use Rattle.std.specs.Option.{option_map};
ghost use Rattle.hg_front.specs.Advice as advices;
ghost use Rattle.hg_front.specs.Further.{SaysAny, SaysEach};
ghost use Rattle.hg_front.specs.Placed as placed_words;

use crate::carrying::Ran;
use crate::flags::{LISTED, say_of_usage};
use crate::further::explain;
use crate::marks::{Mark, first_refusable};
use crate::placing::Placed;
use hg_base::Words;
use hg_docket::DocketFault;
use hg_report::Fault;
use hg_stream::Sink;
use std::alloc::Global;

/// How a dirstate of the older kind is converted, and back.
pub(crate) const CONVERT: &str =
    "to convert the dirstate: hg debugupgraderepo --run --config format.use-dirstate-v2=yes; and back: hg debugupgraderepo --run --config format.use-dirstate-v2=no; an hg without Rust wants dirstate-v2.slow-path=allow below [storage] in its configuration, now and later";

const PARENTS: &str = "hgtrack-parents brings the parents of the working copy to .hg/plain";

const REGEXPS: &str = "a regexp is read without look-ahead, look-behind and back references";

// What to do about a fault, where something can be said of that.
fn advice(fault: &Fault) -> Option<&'static str>
    ensures { option_map (λ text. text.now) result ≡ advices.advice fault.now }
{
    match fault {
        Fault::Docket(DocketFault::Marker { .. }) => Some(CONVERT),
        Fault::NoManifest { .. }
        | Fault::ManifestLine { .. }
        | Fault::ManifestOrder { .. }
        | Fault::NoContents { .. } => Some(PARENTS),
        Fault::BadRegexp { .. } => Some(REGEXPS),
        Fault::NoCommand | Fault::UnknownCommand => Some(LISTED),
        _ => None,
    }
}

/// What the devices say of themselves: the name and the reason of the first failure of each, and of the lock that was refused.
#[derive(Clone, Copy)]
pub struct Reasons<'a> {
    pub tree: Option<&'a str>,
    pub shelf: Option<&'a str>,
    pub lock: Option<&'a str>,
}

// What is said behind the line of a fault: what the device says of it, and else what to do.
fn behind_fault<'a>(fault: &Fault, told: Reasons<'a>) -> Option<&'a str>
    ensures { option_map (λ text. text.now) result ≡ advices.behind_fault fault.now (record { tree = option_map (λ text. text.now) told.entry.tree; shelf = option_map (λ text. text.now) told.entry.shelf; lock = option_map (λ text. text.now) told.entry.lock }) }
{
    match fault {
        Fault::TreeFailed => told.tree,
        Fault::ShelfFailed => told.shelf,
        Fault::Held => told.lock,
        _ => advice(fault),
    }
}

// Says more of a fault that words met.
fn say_of_fault<E: Sink>(
    alloc: Global,
    err: &mut E,
    fault: &Fault,
    words: &Words,
    told: Reasons<'_>,
)
    ensures { SaysAny (E.bytes err.old) (E.bytes err.new) (E.faults err.old) (E.faults err.new) (advices.behind_given fault.now words.now (record { tree = option_map (λ text. text.now) told.entry.tree; shelf = option_map (λ text. text.now) told.entry.shelf; lock = option_map (λ text. text.now) told.entry.lock })) }
{
    match fault {
        Fault::Usage => say_of_usage(alloc, err, words),
        _ => explain(alloc, err, behind_fault(fault, told)),
    }
}

// What is said of refused words that have a mark by which they are no paths.
fn behind_words(placed: &Placed, mark: Mark) -> Option<&'static str>
    ensures { option_map (λ text. text.now) result ≡ advices.behind_words (placed_words.refusable placed.now) mark }
{
    first_refusable(placed, mark)?;
    match mark {
        Mark::Nothing => Some("an empty word is no path"),
        Mark::Absolute => {
            Some("a path is told from the current folder, without a slash in front")
        }
        Mark::Outside => Some("a path outside the working copy can't be tracked"),
        Mark::Directory => {
            Some("a directory isn't tracked, its files are: without a slash at the end")
        }
        Mark::LineBreak => None,
    }
}

// Says more of the words that a command refused, once for each kind of words that are no paths.
fn say_of_words<E: Sink>(alloc: Global, err: &mut E, placed: &Placed)
    ensures { SaysEach (advices.behind_status 1 (placed_words.refusable placed.now)) (E.bytes err.old) (E.bytes err.new) (E.faults err.old) (E.faults err.new) }
{
    explain(alloc, err, behind_words(placed, Mark::Nothing));
    explain(alloc, err, behind_words(placed, Mark::Absolute));
    explain(alloc, err, behind_words(placed, Mark::Outside));
    explain(alloc, err, behind_words(placed, Mark::Directory));
}

/// Says more behind the lines of a command, where there is more to say: of its fault, of words that are no
/// command, or of those that it refused.
pub(crate) fn say_more<E: Sink>(alloc: Global, err: &mut E, ran: &Ran, told: Reasons<'_>)
    ensures { SaysEach (advices.behind ran.now (record { tree = option_map (λ text. text.now) told.entry.tree; shelf = option_map (λ text. text.now) told.entry.shelf; lock = option_map (λ text. text.now) told.entry.lock })) (E.bytes err.old) (E.bytes err.new) (E.faults err.old) (E.faults err.new) }
{
    match &ran.outcome.fault {
        Some(fault) => say_of_fault(alloc, err, fault, &ran.placed.words, told),
        None => if ran.outcome.status == 1 {
            say_of_words(alloc, err, &ran.placed);
        },
    }
}
