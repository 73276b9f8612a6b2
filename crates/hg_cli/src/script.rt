//! A script: commands that are read from the input, a line each.

ghost use Rattle.std.specs.Prelude.{◌≡◌, ◌⊎◌, Some, None};
ghost use Rattle.hg_base.specs.Fault.{Rose};
ghost use Rattle.hg_cli.specs.Run.{IsRun};
ghost use Rattle.hg_cli.specs.Said.{plainly};
ghost use Rattle.hg_cli.specs.Script.{ServesLine, ServesTurn, of_line};
ghost use Rattle.hg_cli.specs.Seen.{seen};
ghost use Rattle.hg_lines.specs.Script as lines_are;
ghost use Rattle.hg_lines.specs.Turns.{RunsScript};
ghost use Rattle.hg_report.specs.declared.fault.Fault.TheVariants as a_fault;
ghost use Rattle.hg_session.specs.Put.{IsFaultOrMemory};

use crate::carrying::carry_out;
use hg_base::Words;
use hg_ignore::Regexps;
use hg_lines::{LineFault, Lines, words_of};
use hg_report::Fault;
use hg_session::{Outcome, failed};
use hg_shelf::Shelf;
use hg_stream::{Sink, Source};
use hg_tree::Tree;
use hg_words::read;
use std::alloc::Global;

// The name of the command that runs a script.
const SCRIPT: &str = "debugscript";

// The fault of a command for one of reading lines.
fn fault_of(fault: LineFault) -> Fault
    ensures { result ≡ of_line fault }
{
    match fault {
        LineFault::OutOfMemory => Fault::OutOfMemory,
        LineFault::Failed => Fault::InFailed,
        LineFault::Line { n } => Fault::ScriptLine { n },
        LineFault::Text { n } => Fault::ScriptText { n },
        LineFault::TooLarge { size } => Fault::ScriptTooLarge { size },
    }
}

// Runs the command that the words are.
fn run_words<T: Tree, S: Shelf, G: Regexps, O: Sink, E: Sink>(
    alloc: Global,
    words: &Words,
    tree: &mut T,
    shelf: &mut S,
    regexps: &mut G,
    out: &mut O,
    err: &mut E,
) -> Outcome
    ensures answered { IsRun
        words.now
        (seen
        (record {
          tree = T.history;
          tree_faults = T.faults;
          shelf = S.history;
          images = S.images;
          shelf_faults = S.faults;
          held = S.held;
          oversize = G.oversize;
          out = O.bytes;
          out_faults = O.faults;
          err = E.bytes;
          err_faults = E.faults;
        })
        (tree.old, shelf.old, regexps.old, out.old, err.old)
        (tree.new, shelf.new, regexps.new, out.new, err.new))
        result.status
        result.fault }
{
    match read(alloc, words) {
        Ok(given) => carry_out(alloc, &given, tree, shelf, regexps, out, err),
        Err(fault) => failed(alloc, Fault::from(fault), err),
    }
}

// Runs the words of a line.
fn run_line<T: Tree, S: Shelf, G: Regexps, O: Sink, E: Sink>(
    alloc: Global,
    n: u32,
    words: &Words,
    tree: &mut T,
    shelf: &mut S,
    regexps: &mut G,
    out: &mut O,
    err: &mut E,
) -> Outcome
    ensures { ServesLine
        (plainly (seen (record {
          tree = T.history;
          tree_faults = T.faults;
          shelf = S.history;
          images = S.images;
          shelf_faults = S.faults;
          held = S.held;
          oversize = G.oversize;
          out = O.bytes;
          out_faults = O.faults;
          err = E.bytes;
          err_faults = E.faults;
        })))
        n
        words.now
        (tree.old, shelf.old, regexps.old, out.old, err.old)
        (tree.new, shelf.new, regexps.new, out.new, err.new)
        result.status
        result.fault }
{
    if words.len() == 0 {
        return Outcome {
            status: 0,
            fault: None,
        };
    }
    if words.at(0).as_str() == SCRIPT {
        return failed(alloc, Fault::ScriptNested { n }, err);
    }
    run_words(alloc, words, tree, shelf, regexps, out, err)
}

// Makes the turn of a line.
fn turn<T: Tree, S: Shelf, G: Regexps, O: Sink, E: Sink>(
    alloc: Global,
    n: u32,
    line: &str,
    tree: &mut T,
    shelf: &mut S,
    regexps: &mut G,
    out: &mut O,
    err: &mut E,
) -> Outcome
    ensures { ServesLine
        (plainly (seen (record {
          tree = T.history;
          tree_faults = T.faults;
          shelf = S.history;
          images = S.images;
          shelf_faults = S.faults;
          held = S.held;
          oversize = G.oversize;
          out = O.bytes;
          out_faults = O.faults;
          err = E.bytes;
          err_faults = E.faults;
        })))
        n
        (lines_are.words_of line.now)
        (tree.old, shelf.old, regexps.old, out.old, err.old)
        (tree.new, shelf.new, regexps.new, out.new, err.new)
        result.status
        result.fault }
{
    if line.is_empty() {
        return Outcome {
            status: 0,
            fault: None,
        };
    }
    match words_of(alloc, line) {
        Ok(words) => run_line(alloc, n, &words, tree, shelf, regexps, out, err),
        Err(_) => failed(alloc, Fault::OutOfMemory, err),
    }
}

/// Reads a script from the input and runs the command of each of its lines, until one meets a fault or the script does. Its status is the
/// greatest of theirs. The words of a line are told from the root of the working copy, as those of a command are.
pub(crate) fn script<T: Tree, S: Shelf, G: Regexps, I: Source, O: Sink, E: Sink>(
    alloc: Global,
    tree: &mut T,
    shelf: &mut S,
    regexps: &mut G,
    input: &mut I,
    out: &mut O,
    err: &mut E,
) -> Outcome
    ensures ran { RunsScript
        (ServesTurn (plainly (seen (record {
          tree = T.history;
          tree_faults = T.faults;
          shelf = S.history;
          images = S.images;
          shelf_faults = S.faults;
          held = S.held;
          oversize = G.oversize;
          out = O.bytes;
          out_faults = O.faults;
          err = E.bytes;
          err_faults = E.faults;
        }))))
        (I.left input.old)
        (I.left input.new)
        (tree.old, shelf.old, regexps.old, out.old, err.old)
        (tree.new, shelf.new, regexps.new, out.new, err.new)
        result.status
        result.fault }
    ensures failing { result.fault ≡ Some a_fault.InFailed → Rose (I.faults input.old) (I.faults input.new) }
    ensures quiet { result.fault ≡ None → I.faults input.new ≡ I.faults input.old }
    ensures stayed { (I.faults input.new ≡ I.faults input.old) ⊎ IsFaultOrMemory result.fault a_fault.InFailed }
{
    let mut lines = match Lines::new(alloc) {
        Ok(lines) => lines,
        Err(_) => return failed(alloc, Fault::OutOfMemory, err),
    };
    let mut status = 0;
    loop {
        match lines.next(input) {
            Ok(None) => {
                return Outcome {
                    status,
                    fault: None,
                };
            }
            Ok(Some(line)) => {
                let done = turn(
                    alloc,
                    lines.number(),
                    line.as_str(),
                    tree,
                    shelf,
                    regexps,
                    out,
                    err,
                );
                if done.fault.is_some() {
                    return done;
                }
                status = status.max(done.status);
            }
            Err(fault) => return failed(alloc, fault_of(fault), err),
        }
    }
}
