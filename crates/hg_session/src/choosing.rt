//! One command over a working copy, the files below `.hg`, and the standard streams.

ghost use Rattle.hg_session.specs.Answered.{IsAnswered};
ghost use Rattle.hg_session.specs.Call.{counted, saved_by, watched};

use crate::debug::show_record;
use crate::ending::{Outcome, failed};
use crate::locking::change_record;
use crate::looking::{ended, status};
use hg_ignore::Regexps;
use hg_report::Fault;
use hg_shelf::Shelf;
use hg_stream::Sink;
use hg_tree::Tree;
use hg_words::Command;
use std::alloc::Global;

/// Runs one command. The rows of a status and the text of the record go to `out`, the warnings of a status, behind its rows, the lines of
/// refused words, and the line of a fault to `err`. `regexps` compiles the ignore patterns.
///
/// A fault that is met before leaves the warnings and the refused words out: its line stands alone. Where the error stream fails while they
/// are written, the fault is `ErrFailed`, and nothing more is written. A script and a load are answered as not built here: they are no single
/// commands.
pub fn command<T: Tree, S: Shelf, G: Regexps, O: Sink, E: Sink>(
    alloc: Global,
    command: &Command,
    tree: &mut T,
    shelf: &mut S,
    regexps: &mut G,
    out: &mut O,
    err: &mut E,
) -> Outcome
    // What the call did and answers: `IsAnswered` in specs/Answered.antt, a sentence a field.
    ensures { IsAnswered
        (record {
          command = command.now;
          looked =
              record {
                tree = watched T.history T.faults tree.old tree.new;
                shelf = watched S.history S.faults shelf.old shelf.new;
                oversize = counted G.oversize regexps.old regexps.new;
              };
          saved = saved_by S.history S.images shelf.old shelf.new;
          locks = counted S.held shelf.old shelf.new;
          out = watched O.bytes O.faults out.old out.new;
          err = watched E.bytes E.faults err.old err.new;
        })
        result.status
        result.fault }
{
    match command {
        Command::Status(flags) => {
            let done = status(alloc, *flags, tree, shelf, regexps, out, err);
            ended(alloc, done, err)
        }
        Command::DebugDirstate => show_record(alloc, shelf, out, err),
        Command::Add { .. }
        | Command::Forget { .. }
        | Command::Remove { .. }
        | Command::Copy { .. }
        | Command::SetParents { .. } => change_record(alloc, command, tree, shelf, err),
        Command::DebugScript | Command::DebugLoad { .. } => failed(alloc, Fault::NotBuilt, err),
    }
}
