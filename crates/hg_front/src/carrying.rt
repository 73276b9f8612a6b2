//! A command from its words to what it ends with.

ghost use Rattle.std.specs.Prelude.{◌≡◌, ◌⊎◌, IfErr, IfOk, Some, None};
ghost use Rattle.std.specs.Option.{option_map};
ghost use Rattle.hg_base.specs.Fault.{Rose};
ghost use Rattle.hg_cli.specs.Kinds.{ServesWords, kind_of, one_command};
ghost use Rattle.hg_cli.specs.Said.{plainly};
ghost use Rattle.hg_cli.specs.Seen.{seen};
ghost use Rattle.hg_front.specs.Advice.{behind_carried};
ghost use Rattle.hg_front.specs.Carried.{IsCarried, IsNotBegun, status_of};
ghost use Rattle.hg_front.specs.Further.{SaysEach};
ghost use Rattle.hg_report.specs.declared.fault.Fault.TheVariants as a_fault;
ghost use Rattle.hg_session.specs.Put.{IsFaultOrMemory};

use crate::advice::{Reasons, say_more};
use crate::further::without_memory;
use crate::placing::{Placed, place, unreached};
use crate::start::{Here, stopped};
use hg_base::Words;
use hg_cli::run;
use hg_ignore::Regexps;
use hg_report::Fault;
use hg_session::Outcome;
use hg_shelf::Shelf;
use hg_stream::{Sink, Source};
use hg_tree::Tree;
use std::alloc::Global;

/// A command that was run: as which words, and what it ended with.
#[derive(Drop)]
pub struct Ran {
    pub placed: Placed,
    pub outcome: Outcome,
}

/// Carries a command from its words to `run`, started in a folder that is told by its path from the root, where it can be told. Where the command
/// isn't begun it is answered the status that it ends with, once that was told.
pub fn carry<T: Tree, S: Shelf, G: Regexps, I: Source, O: Sink, E: Sink>(
    alloc: Global,
    folder: Option<&str>,
    here: &Here,
    words: Words,
    tree: &mut T,
    shelf: &mut S,
    regexps: &mut G,
    input: &mut I,
    out: &mut O,
    err: &mut E,
) -> Result<Ran, u8>
    // It is run only where nothing refuses it there; every word reaches `run`, and what it answers of them is answered.
    ensures ran { IfOk result (IsCarried
        E.bytes
        E.faults
        (option_map (λ f. f.now) folder.entry)
        here.now
        words
        err.old
        (λ given begun code fault. ServesWords
        (plainly (seen (record {
          tree = T.history;
          tree_faults = T.faults;
          shelf = S.history;
          images = S.images;
          shelf_faults = S.faults;
          held = S.held;
          oversize = G.oversize;
          out = O.bytes;
          out_faults = O.faults;
          err = E.bytes;
          err_faults = E.faults;
        })))
        given
        (I.left input.old)
        (I.left input.new)
        (tree.old, shelf.old, regexps.old, out.old, begun)
        (tree.new, shelf.new, regexps.new, out.new, err.new)
        code
        fault)) }
    // Else something does, which is told, or its words can't be paths.
    ensures refused { IfErr result (λ status. IsNotBegun (option_map (λ f. f.now) folder.entry) here.now words (E.bytes err.old) (E.bytes err.new) (E.faults err.old) (E.faults err.new)) }
    // Then nothing is looked at, saved or put to `out`.
    ensures stopped { IfErr result (λ status. (status ≡ 255) × (tree.new ≡ tree.old) × (shelf.new ≡ shelf.old) × (regexps.new ≡ regexps.old) × (out.new ≡ out.old) × (input.new ≡ input.old)) }
    // The input is told to have failed only where its count of failures rose.
    ensures failing { IfOk result (λ ran. ran.outcome.fault ≡ Some a_fault.InFailed → Rose (I.faults input.old) (I.faults input.new)) }
    // Without a fault it stands as it stood.
    ensures quiet { IfOk result (λ ran. ran.outcome.fault ≡ None → I.faults input.new ≡ I.faults input.old) }
    // Where it doesn't, the fault is that the input failed, or want of memory in its place.
    ensures stayed { IfOk result (λ ran. (I.faults input.new ≡ I.faults input.old) ⊎ IsFaultOrMemory ran.outcome.fault a_fault.InFailed) }
    // Nobody looks at the input for one command.
    ensures unread { IfOk result (λ ran. kind_of ran.placed.words ≡ one_command → input.new ≡ input.old) }
{
    let placed = match place(alloc, folder, words) {
        Ok(placed) => placed,
        Err(Fault::TreeFailed) => {
            return Err(unreached(alloc, err, ".: no path to the current folder"));
        }
        Err(_) => return Err(without_memory(err)),
    };
    if let Some(status) = stopped(alloc, here, &placed, err) {
        return Err(status);
    }
    let outcome = run(alloc, &placed.words, tree, shelf, regexps, input, out, err);
    Ok(Ran { placed, outcome })
}

/// What the program ends with, once a command was carried and more was said behind its lines.
pub fn end<E: Sink>(alloc: Global, err: &mut E, carried: &Result<Ran, u8>, told: Reasons<'_>) -> u8
    ensures status { result ≡ status_of carried.now }
    ensures said { SaysEach (behind_carried carried.now (record { tree = option_map (λ text. text.now) told.entry.tree; shelf = option_map (λ text. text.now) told.entry.shelf; lock = option_map (λ text. text.now) told.entry.lock })) (E.bytes err.old) (E.bytes err.new) (E.faults err.old) (E.faults err.new) }
{
    match carried {
        Ok(ran) => {
            say_more(alloc, err, ran, told);
            ran.outcome.status
        }
        Err(status) => *status,
    }
}
