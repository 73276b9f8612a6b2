//! The top call: one command over a working copy, the files below `.hg`, and the standard streams.

ghost use Rattle.std.specs.Prelude.{◌≡◌, ◌⊎◌, Some, None};
ghost use Rattle.hg_base.specs.Fault.{Rose};
ghost use Rattle.hg_cli.specs.Kinds.{ServesWords, kind_of, one_command};
ghost use Rattle.hg_cli.specs.Said.{plainly};
ghost use Rattle.hg_cli.specs.Seen.{seen};
ghost use Rattle.hg_report.specs.declared.fault.Fault.TheVariants as a_fault;
ghost use Rattle.hg_session.specs.Put.{IsFaultOrMemory};

use crate::carrying::carry_out;
use crate::script::script;
use hg_base::Words;
use hg_ignore::Regexps;
use hg_report::Fault;
use hg_session::{Outcome, failed};
use hg_shelf::Shelf;
use hg_stream::{Sink, Source};
use hg_tree::Tree;
use hg_words::{Command, read};
use std::alloc::Global;

/// Runs one command: `words` come after the program's name. The rows of a status and the text of the record go to `out`, the warnings of a
/// status, behind its rows, the lines of refused words, and the line of a fault to `err`. `input` is looked at for a script alone. `regexps` compiles the ignore patterns.
///
/// Words that are no command are told as such, and nothing else is done. A fault that is met before leaves the warnings and the refused words
/// out: its line stands alone. Where the error stream fails while they are written, the fault is `ErrFailed`, and nothing more is written.
pub fn run<T: Tree, S: Shelf, G: Regexps, I: Source, O: Sink, E: Sink>(
    alloc: Global,
    words: &Words,
    tree: &mut T,
    shelf: &mut S,
    regexps: &mut G,
    input: &mut I,
    out: &mut O,
    err: &mut E,
) -> Outcome
    // What the call did and answers, by the kind of call that the words are. Of one command it is `IsRun`, and where the words are a command that is
    // `IsAnswered` of `hg_session`, a sentence a field; of a script it is the same of each line, one after another.
    ensures answered { ServesWords
        (plainly (seen (record {
          tree = T.history;
          tree_faults = T.faults;
          shelf = S.history;
          images = S.images;
          shelf_faults = S.faults;
          held = S.held;
          oversize = G.oversize;
          out = O.bytes;
          out_faults = O.faults;
          err = E.bytes;
          err_faults = E.faults;
        })))
        words.now
        (I.left input.old)
        (I.left input.new)
        (tree.old, shelf.old, regexps.old, out.old, err.old)
        (tree.new, shelf.new, regexps.new, out.new, err.new)
        result.status
        result.fault }
    // The input is told to have failed only where its count of failures rose.
    ensures failing { result.fault ≡ Some a_fault.InFailed → Rose (I.faults input.old) (I.faults input.new) }
    // Without a fault it stands as it stood.
    ensures quiet { result.fault ≡ None → I.faults input.new ≡ I.faults input.old }
    // Where it doesn't, the fault is that the input failed, or want of memory in its place.
    ensures stayed { (I.faults input.new ≡ I.faults input.old) ⊎ IsFaultOrMemory result.fault a_fault.InFailed }
    // Nobody looks at the input for one command.
    ensures unread { kind_of words.now ≡ one_command → input.new ≡ input.old }
{
    match read(alloc, words) {
        Ok(Command::DebugScript) => script(alloc, tree, shelf, regexps, input, out, err),
        Ok(given) => carry_out(alloc, &given, tree, shelf, regexps, out, err),
        Err(fault) => failed(alloc, Fault::from(fault), err),
    }
}
