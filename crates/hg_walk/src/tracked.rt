//! The look of a walk at all paths of a record that have an entry.

ghost use Rattle.std.specs.Prelude.{◌≡◌, ℕ, List, IsTrue, IfErr, IfOk};
ghost use Rattle.hg_flat.specs.Asked.{AsksReads};
ghost use Rattle.hg_flat.specs.Course.{MetParent};
ghost use Rattle.hg_flat.specs.First.{MetFirst};
ghost use Rattle.hg_flat.specs.Needed.{ReadsNeeded};
ghost use Rattle.hg_flat.specs.Parent.{WasAsked};
ghost use Rattle.hg_flat.specs.Stored.{AsksStore};
ghost use Rattle.hg_listing.specs.Cause.{HasShelfCause, HasStatusCause};
ghost use Rattle.hg_mixed.specs.Held.{table};
ghost use Rattle.hg_shelf.specs.History as shelves;
ghost use Rattle.hg_shelf.specs.Images as images;
ghost use Rattle.hg_tree.specs.History as trees;
ghost use Rattle.hg_walk.specs.Tracked.{NotesAll, TellsAll};
ghost use Rattle.hg_walk.specs.Walking.{asked_unvouched, walk_status};

use crate::keeper::Keeper;
use crate::notes::Notes;
use crate::telling::tell_each;
use hg_base::Time;
use hg_listing::{Row, StatusFault, Wanted};
use hg_mixed::{Mixed, gather};
use hg_shelf::Shelf;
use hg_tree::Tree;
use std::alloc::Global;

/// The nodes of the record with what a look showed of each, the rows so far, and what is noted of times.
#[derive(Drop)]
pub(crate) struct Tracked<'t> {
    pub keeper: Keeper<'t>,
    pub rows: Vec<Row>,
    pub notes: Notes,
}

/// Looks at each path with an entry, in order, and notes the times of clean files that are before the boundary.
pub(crate) fn tell_all<'t, T: Tree, S: Shelf>(
    alloc: Global,
    mixed: &'t Mixed<'_>,
    tree: &mut T,
    shelf: &mut S,
    wanted: Wanted,
    boundary: Time,
) -> Result<Tracked<'t>, StatusFault>
    ensures passes { trees.Passes (T.history tree.old) (T.history tree.new) }
    ensures passes_shelf { shelves.Passes (S.history shelf.old) (S.history shelf.new) }
    ensures kept { images.Goes (images.course (S.history shelf.old) (S.images shelf.old)) (images.course (S.history shelf.new) (S.images shelf.new)) }
    ensures held { S.held shelf.new ≡ S.held shelf.old }
    ensures told { IfOk
        result
        (λ tracked. TellsAll
        (walk_status wanted (table mixed.now) (T.history tree.old) (T.history tree.new) (S.history shelf.old) (S.history shelf.new))
        (table mixed.now)
        tracked.keeper.children.items
        tracked.keeper.marks.items
        tracked.rows.items) }
    ensures noted { IfOk
        result
        (λ tracked. NotesAll
        (walk_status wanted (table mixed.now) (T.history tree.old) (T.history tree.new) (S.history shelf.old) (S.history shelf.new))
        (table mixed.now)
        boundary
        tracked.notes) }
    ensures met { IfErr
        result
        (MetParent (walk_status wanted (table mixed.now) (T.history tree.old) (T.history tree.new) (S.history shelf.old) (S.history shelf.new))) }
    // Of several contents that are absent those of the first path are answered.
    ensures first { IfErr
        result
        (MetFirst (walk_status wanted (table mixed.now) (T.history tree.old) (T.history tree.new) (S.history shelf.old) (S.history shelf.new))) }
    ensures asked { IsTrue (T.history tree.old).told
        → AsksReads
        (WasAsked (asked_unvouched wanted (table mixed.now)) (T.history tree.old) (T.history tree.new))
        (T.history tree.old)
        (T.history tree.new) }
    // The bytes of each path are read in one comparison at most, and only where nothing else decides its letter.
    ensures reads { IsTrue (T.history tree.old).told
        → ReadsNeeded (walk_status wanted (table mixed.now) (T.history tree.old) (T.history tree.new) (S.history shelf.old) (S.history shelf.new)) }
    ensures unasked { ((path : List ℕ) → WasAsked (asked_unvouched wanted (table mixed.now)) (T.history tree.old) (T.history tree.new) path → ⊥)
        → shelf.new ≡ shelf.old }
    ensures store { IsTrue (S.history shelf.old).told
        → AsksStore (walk_status wanted (table mixed.now) (T.history tree.old) (T.history tree.new) (S.history shelf.old) (S.history shelf.new)) }
    ensures cause { HasStatusCause (T.faults tree.old) (T.faults tree.new) result }
    ensures cause_shelf { HasShelfCause (S.faults shelf.old) (S.faults shelf.new) result }
{
    let (p1, _) = mixed.parents();
    let children = gather(alloc, mixed)?;
    let mut marks = Vec::new(alloc);
    let mut rows = Vec::new(alloc);
    let mut notes = Notes::new(alloc);
    tell_each(
        alloc, &children, &p1, tree, shelf, wanted, boundary, &mut marks, &mut rows, &mut notes,
    )?;
    let keeper = Keeper::of(children, marks);
    Ok(Tracked {
        keeper,
        rows,
        notes,
    })
}
