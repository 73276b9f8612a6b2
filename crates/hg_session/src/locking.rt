//! The lock round a change of the record, and what is told of it.

ghost use Rattle.std.specs.Prelude.{◌≡◌, ◌⊎◌, ◌<◌, IfErr, MatchOption, None, OnOk, Err};
ghost use Rattle.hg_session.specs.Call.{Count, Sink, counted, saved_by, watched};
ghost use Rattle.hg_session.specs.Changing.{FailsOrUnwritten, once_freed, EndsChange, CameLocked};
ghost use Rattle.hg_session.specs.Put.{IsSilent};
ghost use Rattle.hg_ops.specs.declared.refusal.OpFault.TheVariants as an_op_fault;
ghost use Rattle.hg_session.specs.Told as told_is;
ghost use Rattle.hg_session.specs.declared.change_fault.ChangeFault.TheVariants as a_fault;
ghost use Rattle.hg_shelf.specs.Images.{Goes, course};

use crate::change_fault::ChangeFault;
use crate::changing::change_locked;
use crate::ending::{Outcome, failed};
use hg_base::Failed;
use hg_report::Fault;
use hg_shelf::Shelf;
use hg_stream::{Sink, put_all};
use hg_tree::Tree;
use hg_words::Command;
use std::alloc::Global;

// The first fault of a change and of giving the lock back.
fn first_fault(
    done: Result<Vec<u8>, ChangeFault>,
    freed: Result<(), Failed>,
) -> Result<Vec<u8>, ChangeFault>
    ensures { result ≡ once_freed done freed }
{
    match done {
        Err(fault) => Err(fault),
        Ok(lines) => match freed {
            Err(_) => Err(ChangeFault::ShelfFailed),
            Ok(()) => Ok(lines),
        },
    }
}

// Takes the lock, changes the record, and gives the lock back, after a fault too; the lines of the words that were refused.
fn change<T: Tree, S: Shelf>(
    alloc: Global,
    command: &Command,
    tree: &mut T,
    shelf: &mut S,
) -> Result<Vec<u8>, ChangeFault>
    // `CameLocked` in specs/Changing.antt.
    ensures came { CameLocked
        command.now
        (watched T.history T.faults tree.old tree.new)
        (watched S.history S.faults shelf.old shelf.new)
        (saved_by S.history S.images shelf.old shelf.new)
        (counted S.held shelf.old shelf.new)
        result }
    ensures unwritten { IfErr result (FailsOrUnwritten (S.history shelf.old) (S.history shelf.new)) }
    ensures held { S.held shelf.old < S.held shelf.new → result ≡ Err a_fault.Held }
    ensures failed { T.faults tree.old < T.faults tree.new → result ≡ Err (a_fault.Op an_op_fault.TreeFailed) }
    ensures calm_tree { OnOk result (T.faults tree.new ≡ T.faults tree.old) }
    ensures calm_shelf { OnOk result (S.faults shelf.new ≡ S.faults shelf.old) }
    ensures kept { Goes (course (S.history shelf.old) (S.images shelf.old)) (course (S.history shelf.new) (S.images shelf.new)) }
{
    match shelf.lock() {
        Err(_) => Err(ChangeFault::ShelfFailed),
        Ok(false) => Err(ChangeFault::Held),
        Ok(true) => {
            let done = change_locked(alloc, command, tree, shelf);
            let freed = shelf.unlock();
            first_fault(done, freed)
        }
    }
}

// The status by the lines of the words that were refused.
fn status_of(lines: &[u8]) -> u8
    ensures { result ≡ told_is.status_of lines.now }
{
    if lines.is_empty() { 0 } else { 1 }
}

/// Runs a command that changes the record, and tells the refused words, or the fault.
pub(crate) fn change_record<T: Tree, S: Shelf, E: Sink>(
    alloc: Global,
    command: &Command,
    tree: &mut T,
    shelf: &mut S,
    err: &mut E,
) -> Outcome
    // `EndsChange` in specs/Changing.antt, whatever else a call has that isn't touched.
    ensures ran { (out : Sink) (oversize : Count) → IsSilent out → oversize.after ≡ oversize.before
        → EndsChange
        (record {
          command = command.now;
          looked =
              record {
                tree = watched T.history T.faults tree.old tree.new;
                shelf = watched S.history S.faults shelf.old shelf.new;
                oversize = oversize;
              };
          saved = saved_by S.history S.images shelf.old shelf.new;
          locks = counted S.held shelf.old shelf.new;
          out = out;
          err = watched E.bytes E.faults err.old err.new;
        })
        result.status
        result.fault }
    ensures steady_err { result.fault ≡ None → E.faults err.new ≡ E.faults err.old }
    ensures status { MatchOption result.fault ((result.status ≡ 0) ⊎ (result.status ≡ 1)) (λ fault. result.status ≡ 255) }
{
    match change(alloc, command, tree, shelf) {
        Err(fault) => failed(alloc, Fault::from(fault), err),
        Ok(lines) => match put_all(err, lines.as_slice()) {
            Err(_) => Outcome {
                status: 255,
                fault: Some(Fault::ErrFailed),
            },
            Ok(()) => Outcome {
                status: status_of(lines.as_slice()),
                fault: None,
            },
        },
    }
}
