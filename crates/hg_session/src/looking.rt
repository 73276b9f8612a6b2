//! `status`, and how it ends.

ghost use Rattle.hg_mixed.specs.Held.{table};
ghost use Rattle.hg_session.specs.Call.{counted, saved_by, watched};
ghost use Rattle.hg_session.specs.Look.{OnlyReads};
ghost use Rattle.hg_session.specs.Looking.{EndsAs, DoesStatus, ShowsTable};

use crate::ending::{Outcome, failed, has_line};
use crate::flags::{style, wanted};
use crate::reading::{opened, read};
use crate::saving_notes::save_notes;
use hg_ignore::Regexps;
use hg_mixed::Mixed;
use hg_report::{Fault, status_text, warnings_text};
use hg_shelf::Shelf;
use hg_stream::{Sink, put_all};
use hg_tree::Tree;
use hg_walk::{Notes, walk};
use hg_words::StatusFlags;
use std::alloc::Global;

// Lists by a table, prints the rows, then the warnings; what was noted of times.
fn show<T: Tree, S: Shelf, G: Regexps, O: Sink, E: Sink>(
    alloc: Global,
    flags: StatusFlags,
    mixed: &Mixed<'_>,
    tree: &mut T,
    shelf: &mut S,
    regexps: &mut G,
    out: &mut O,
    err: &mut E,
) -> Result<Notes, Fault>
    ensures shows { ShowsTable
        flags
        (record {
          tree = watched T.history T.faults tree.old tree.new;
          shelf = watched S.history S.faults shelf.old shelf.new;
          oversize = counted G.oversize regexps.old regexps.new;
        })
        (table mixed.now)
        (watched O.bytes O.faults out.old out.new)
        (watched E.bytes E.faults err.old err.new)
        result }
    ensures only { OnlyReads
        (saved_by S.history S.images shelf.old shelf.new)
        (counted S.held shelf.old shelf.new) }
{
    let walked = walk(alloc, mixed, tree, shelf, regexps, wanted(flags))?;
    let text = status_text(alloc, &walked.rows, style(flags))?;
    let warnings = warnings_text(alloc, &walked.warnings)?;
    match put_all(out, text.as_slice()) {
        Err(_) => Err(Fault::OutFailed),
        Ok(()) => match put_all(err, warnings.as_slice()) {
            Err(_) => Err(Fault::ErrFailed),
            Ok(()) => Ok(walked.notes),
        },
    }
}

/// Loads the record, lists, prints the rows, then the warnings, and saves last what was noted of times.
pub(crate) fn status<T: Tree, S: Shelf, G: Regexps, O: Sink, E: Sink>(
    alloc: Global,
    flags: StatusFlags,
    tree: &mut T,
    shelf: &mut S,
    regexps: &mut G,
    out: &mut O,
    err: &mut E,
) -> Result<(), Fault>
    ensures { DoesStatus
        flags
        (record {
          tree = watched T.history T.faults tree.old tree.new;
          shelf = watched S.history S.faults shelf.old shelf.new;
          oversize = counted G.oversize regexps.old regexps.new;
        })
        (saved_by S.history S.images shelf.old shelf.new)
        (counted S.held shelf.old shelf.new)
        (watched O.bytes O.faults out.old out.new)
        (watched E.bytes E.faults err.old err.new)
        result }
{
    let loaded = read(alloc, shelf)?;
    let mut mixed = opened(&loaded)?;
    let notes = show(alloc, flags, &mixed, tree, shelf, regexps, out, err)?;
    save_notes(alloc, shelf, &loaded, &mut mixed, notes)?;
    Ok(())
}

/// How such a command ends by what it did: the line of a fault is told, where it has one.
pub(crate) fn ended<E: Sink>(alloc: Global, done: Result<(), Fault>, err: &mut E) -> Outcome
    ensures { EndsAs
        (watched E.bytes E.faults err.old err.new)
        done
        result.status
        result.fault }
{
    match done {
        Ok(()) => Outcome {
            status: 0,
            fault: None,
        },
        Err(fault) => {
            if !has_line(&fault) {
                return Outcome {
                    status: 255,
                    fault: Some(fault),
                };
            }
            failed(alloc, fault, err)
        }
    }
}
