//! The words of `remove`, one after another.

ghost use Rattle.std.specs.Prelude.{◌≡◌, ◌⊎◌, ◌<◌, Err, IfErr, IfOk, IsTrue, OnOk, false};
ghost use Rattle.hg_base.specs.Fault.{HasCause};
ghost use Rattle.hg_mixed.specs.Edits.{IsOfSameImage};
ghost use Rattle.hg_mixed.specs.Held.{table};
ghost use Rattle.hg_ops.specs.Parent.{AsksStore};
ghost use Rattle.hg_ops.specs.declared.refusal.OpFault.TheVariants as an_op_fault;
ghost use Rattle.hg_session.specs.Acts.{IsRemoved, NeedsSome, OnlyTakes, StopsRemoving, span_of};
ghost use Rattle.hg_session.specs.Call.{watched};
ghost use Rattle.hg_session.specs.Kept.{KeepsLent};
ghost use Rattle.hg_shelf.specs.History as shelves;
ghost use Rattle.hg_shelf.specs.Images.{Goes, course};

use crate::acting::put_refused;
use hg_base::Words;
use hg_mixed::Mixed;
use hg_ops::{OpFault, Parent, remove};
use hg_shelf::Shelf;
use hg_tree::Tree;
use std::alloc::Global;

/// Takes the files of some words away, in order, and answers the lines of the words that were refused.
pub(crate) fn remove_words<T: Tree, S: Shelf>(
    alloc: Global,
    after: bool,
    words: &Words,
    mixed: &mut Mixed<'_>,
    tree: &mut T,
    shelf: &mut S,
) -> Result<Vec<u8>, OpFault>
    // `IsRemoved` and `StopsRemoving` in specs/Acts.antt; of a table in which nothing was changed before.
    ensures acts { mixed.old.changed ≡ false
        → IfOk
        result
        (λ lines. IsRemoved
        after
        words.now
        (watched T.history T.faults tree.old tree.new)
        (watched S.history S.faults shelf.old shelf.new)
        (table mixed.old)
        (table mixed.new)
        lines.items
        mixed.new.changed) }
    ensures stops { mixed.old.changed ≡ false
        → IfErr
        result
        (StopsRemoving
        after
        words.now
        (watched T.history T.faults tree.old tree.new)
        (watched S.history S.faults shelf.old shelf.new)
        (table mixed.old)) }
    ensures lent { OnOk result (KeepsLent mixed.old mixed.new) }
    ensures image { IsOfSameImage mixed.old mixed.new }
    ensures takes { OnlyTakes
        after
        words.now
        (table mixed.old)
        (watched T.history T.faults tree.old tree.new) }
    ensures passes { shelves.Passes (S.history shelf.old) (S.history shelf.new) }
    ensures kept { Goes (course (S.history shelf.old) (S.images shelf.old)) (course (S.history shelf.new) (S.images shelf.new)) }
    ensures held { S.held shelf.new ≡ S.held shelf.old }
    ensures asked { IsTrue (S.history shelf.old).told
        → ((S.history shelf.new).asked ≡ (S.history shelf.old).asked)
        ⊎ (NeedsSome
        after
        words.now
        (table mixed.old)
        (watched T.history T.faults tree.old tree.new)
        × AsksStore (span_of (table mixed.old) (S.history shelf.old) (S.history shelf.new))) }
    ensures cause { HasCause (T.faults tree.old) (T.faults tree.new) result (λ e. e ≡ an_op_fault.TreeFailed) }
    ensures failed { T.faults tree.old < T.faults tree.new → result ≡ Err an_op_fault.TreeFailed }
    ensures cause_shelf { HasCause (S.faults shelf.old) (S.faults shelf.new) result (λ e. e ≡ an_op_fault.ShelfFailed) }
{
    let mut lines = Vec::new(alloc);
    let mut parent = Parent::of(mixed.parents().0);
    for i in 0..words.len() {
        // (a table tells how it is formed where it is asked)
        let _ = mixed.parents();
        let word = words.at(i).as_str();
        let refused = remove(alloc, mixed, tree, shelf, &mut parent, word, after)?;
        match put_refused(alloc, "remove", word, &refused, &mut lines) {
            Err(_) => return Err(OpFault::OutOfMemory),
            Ok(()) => {}
        }
    }
    Ok(lines)
}
