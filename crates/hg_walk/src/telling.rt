//! The pass over the paths of a record: each that has an entry is looked at, and its row is put where its letter is wanted.

ghost use Rattle.std.specs.Prelude.{◌≡◌, ◌∷◌, [], ℕ, true, List, Some, IsTrue, IfErr, IfOk, OnOk};
ghost use Rattle.std.specs.Option.{option_map};
ghost use Rattle.hg_entry.specs.Table.{Table};
ghost use Rattle.hg_flat.specs.Asked.{AsksReads};
ghost use Rattle.hg_flat.specs.Course.{MetParent, Proceeds};
ghost use Rattle.hg_flat.specs.First.{MetAt, MetFirst};
ghost use Rattle.hg_flat.specs.Needed.{ReadsPath};
ghost use Rattle.hg_flat.specs.Parent.{WasAsked};
ghost use Rattle.hg_flat.specs.Stored.{AsksStore};
ghost use Rattle.hg_listing.specs.Cause.{HasShelfCause, HasStatusCause};
ghost use Rattle.hg_shelf.specs.History as shelves;
ghost use Rattle.hg_shelf.specs.Images as images;
ghost use Rattle.hg_tree.specs.History as trees;
ghost use Rattle.hg_walk.specs.Marks.{mark_of};
ghost use Rattle.hg_walk.specs.Right.{AreRight};
ghost use Rattle.hg_walk.specs.Telling.{AreAllOf, AreNotesOf, AreOf, IsAtChild, IsChildOf, IsLetterOf, IsMarked, MarksEach, NotesBehind, ReadsFront, ShowsNow, TellsEach, copied_in, notes_of, tracked_row, with_clean_notes};
ghost use Rattle.hg_walk.specs.Walking.{asked_unvouched, rows_in, walk_status};

use crate::finding::find;
use crate::mark::Mark;
use crate::notes::Notes;
use hg_base::{Id20, OutOfMemory, Path, PathRef, Stamp, Stat, Time};
use hg_compare::Letter;
use hg_entry::Entry;
use hg_flat::{Parent, letter_by_marks, put_wanted, wants_bytes, wants_tracked};
use hg_listing::{Row, StatusFault, Wanted};
use hg_mixed::Line;
use hg_shelf::Shelf;
use hg_tree::Tree;
use std::alloc::Global;

/// What is told of a path with an entry.
#[derive(Clone, Copy, Debug)]
pub(crate) struct Told {
    /// Its letter, unless that isn't wanted.
    pub letter: Option<Letter>,
    /// What is noted of it, where it is clean: what a look showed, and the time to be recorded.
    pub seen: Option<(Stat, Stamp)>,
    /// What a look showed there.
    pub mark: Mark,
}

fn is_copy(child: &Line<'_>) -> bool
    ensures { result ≡ copied_in child.now }
{
    child.source.is_some()
}

fn seen_by(there: &Stat, stamp: Option<Stamp>) -> Option<(Stat, Stamp)>
    ensures { result ≡ option_map (λ s. (there.now, s)) stamp }
{
    match stamp {
        None => None,
        Some(stamp) => Some((*there, stamp)),
    }
}

// What is told of a tracked path where a look shows something.
fn tell_there<T: Tree, S: Shelf>(
    alloc: Global,
    child: &Line<'_>,
    entry: &Entry,
    there: &Stat,
    tree: &mut T,
    shelf: &mut S,
    parent: &mut Parent,
    wanted: Wanted,
    boundary: Time,
) -> Result<Told, StatusFault>
    requires own { child.now.entry ≡ Some entry.now }
    requires tracked { entry.now.w ≡ true }
    ensures passes { trees.Passes (T.history tree.old) (T.history tree.new) }
    ensures passes_shelf { shelves.Passes (S.history shelf.old) (S.history shelf.new) }
    ensures kept { images.Goes (images.course (S.history shelf.old) (S.images shelf.old)) (images.course (S.history shelf.new) (S.images shelf.new)) }
    ensures held { S.held shelf.new ≡ S.held shelf.old }
    ensures goes { OnOk
        result
        ((t : Table) (start : trees.History) (begun : shelves.History) → IsAtChild (walk_status wanted t start (T.history tree.old) begun (S.history shelf.old)) t parent.old child.now
        → ShowsNow (T.history tree.old) child.now.path.text.now there.now
        → Proceeds (walk_status wanted t start (T.history tree.new) begun (S.history shelf.new)) parent.new) }
    ensures found { IfOk
        result
        (λ told. (t : Table) (start : trees.History) (begun : shelves.History) (store : shelves.Files) → IsAtChild (walk_status wanted t start (T.history tree.old) begun (S.history shelf.old)) t parent.old child.now
        → ShowsNow (T.history tree.old) child.now.path.text.now there.now
        → IsLetterOf
        store
        (AreRight (rows_in t store) t start (T.history tree.new))
        (walk_status wanted t (T.history tree.old) (T.history tree.new) begun (S.history shelf.new))
        (tracked_row child.now entry.now)
        told.letter) }
    ensures noted { IfOk
        result
        (λ told. (t : Table) (start : trees.History) (begun : shelves.History) → IsAtChild (walk_status wanted t start (T.history tree.old) begun (S.history shelf.old)) t parent.old child.now
        → ShowsNow (T.history tree.old) child.now.path.text.now there.now
        → AreNotesOf
        (walk_status wanted t (T.history tree.old) (T.history tree.new) begun (S.history shelf.new))
        t
        boundary
        (child.now ∷ [])
        (notes_of child.now.path.text.now told.seen)) }
    ensures marked { IfOk result (λ told. told.mark ≡ mark_of (Some there.now)) }
    ensures met { IfErr
        result
        (λ fault. (t : Table) (start : trees.History) (begun : shelves.History) → IsAtChild (walk_status wanted t start (T.history tree.old) begun (S.history shelf.old)) t parent.old child.now
        → ShowsNow (T.history tree.old) child.now.path.text.now there.now
        → MetParent (walk_status wanted t start (T.history tree.new) begun (S.history shelf.new)) fault) }
    // Absent contents are those of this path.
    ensures names { IfErr
        result
        (λ fault. (t : Table) (start : trees.History) (begun : shelves.History) → IsAtChild (walk_status wanted t start (T.history tree.old) begun (S.history shelf.old)) t parent.old child.now
        → ShowsNow (T.history tree.old) child.now.path.text.now there.now
        → MetAt
        (walk_status wanted t start (T.history tree.new) begun (S.history shelf.new))
        child.now.path.text.now
        fault) }
    ensures asked { IsTrue (T.history tree.old).told
        → ShowsNow (T.history tree.old) child.now.path.text.now there.now
        → (t : Table) → IsChildOf t child.now
        → AsksReads
        (WasAsked (asked_unvouched wanted t) (T.history tree.old) (T.history tree.new))
        (T.history tree.old)
        (T.history tree.new) }
    // Its bytes are read only where nothing else decides its letter.
    ensures reads { (t : Table) (start : trees.History) (begun : shelves.History) → IsAtChild (walk_status wanted t start (T.history tree.old) begun (S.history shelf.old)) t parent.old child.now
        → ShowsNow (T.history tree.old) child.now.path.text.now there.now
        → IsTrue (T.history tree.old).told
        → ReadsPath
        (walk_status wanted t start (T.history tree.new) begun (S.history shelf.new))
        (T.history tree.old)
        child.now.path.text.now }
    ensures unasked { (t : Table) → IsChildOf t child.now
        → ShowsNow (T.history tree.old) child.now.path.text.now there.now
        → (WasAsked (asked_unvouched wanted t) (T.history tree.old) (T.history tree.new) child.now.path.text.now → ⊥)
        → shelf.new ≡ shelf.old }
    ensures store { IfErr
        result
        (λ fault. (t : Table) (start : trees.History) (begun : shelves.History) → IsAtChild (walk_status wanted t start (T.history tree.old) begun (S.history shelf.old)) t parent.old child.now
        → ShowsNow (T.history tree.old) child.now.path.text.now there.now
        → IsTrue begun.told
        → AsksStore (walk_status wanted t start (T.history tree.new) begun (S.history shelf.new))) }
    ensures cause { HasStatusCause (T.faults tree.old) (T.faults tree.new) result }
    ensures cause_shelf { HasShelfCause (S.faults shelf.old) (S.faults shelf.new) result }
{
    let copied = is_copy(child);
    if let Some(letter) = letter_by_marks(entry, copied, there) {
        return Ok(Told {
            letter: Some(letter),
            seen: None,
            mark: Mark::of(there),
        });
    }
    if !wants_bytes(wanted) {
        return Ok(Told {
            letter: None,
            seen: None,
            mark: Mark::of(there),
        });
    }
    let found = find(
        alloc, tree, shelf, child.path, entry, copied, there, boundary, parent,
    )?;
    Ok(Told {
        letter: Some(found.letter),
        seen: seen_by(there, found.stamp),
        mark: Mark::of(there),
    })
}

// What is told of a path with an entry.
fn tell_tracked<T: Tree, S: Shelf>(
    alloc: Global,
    child: &Line<'_>,
    entry: &Entry,
    tree: &mut T,
    shelf: &mut S,
    parent: &mut Parent,
    wanted: Wanted,
    boundary: Time,
) -> Result<Told, StatusFault>
    requires { child.now.entry ≡ Some entry.now }
    ensures passes { trees.Passes (T.history tree.old) (T.history tree.new) }
    ensures passes_shelf { shelves.Passes (S.history shelf.old) (S.history shelf.new) }
    ensures kept { images.Goes (images.course (S.history shelf.old) (S.images shelf.old)) (images.course (S.history shelf.new) (S.images shelf.new)) }
    ensures held { S.held shelf.new ≡ S.held shelf.old }
    ensures goes { OnOk
        result
        ((t : Table) (start : trees.History) (begun : shelves.History) → IsAtChild (walk_status wanted t start (T.history tree.old) begun (S.history shelf.old)) t parent.old child.now
        → Proceeds (walk_status wanted t start (T.history tree.new) begun (S.history shelf.new)) parent.new) }
    ensures found { IfOk
        result
        (λ told. (t : Table) (start : trees.History) (begun : shelves.History) (store : shelves.Files) → IsAtChild (walk_status wanted t start (T.history tree.old) begun (S.history shelf.old)) t parent.old child.now
        → IsLetterOf
        store
        (AreRight (rows_in t store) t start (T.history tree.new))
        (walk_status wanted t (T.history tree.old) (T.history tree.new) begun (S.history shelf.new))
        (tracked_row child.now entry.now)
        told.letter) }
    ensures noted { IfOk
        result
        (λ told. (t : Table) (start : trees.History) (begun : shelves.History) → IsAtChild (walk_status wanted t start (T.history tree.old) begun (S.history shelf.old)) t parent.old child.now
        → AreNotesOf
        (walk_status wanted t (T.history tree.old) (T.history tree.new) begun (S.history shelf.new))
        t
        boundary
        (child.now ∷ [])
        (notes_of child.now.path.text.now told.seen)) }
    ensures marked { IfOk result (λ told. IsMarked wanted (T.history tree.old) (T.history tree.new) child.now told.mark) }
    ensures met { IfErr
        result
        (λ fault. (t : Table) (start : trees.History) (begun : shelves.History) → IsAtChild (walk_status wanted t start (T.history tree.old) begun (S.history shelf.old)) t parent.old child.now
        → MetParent (walk_status wanted t start (T.history tree.new) begun (S.history shelf.new)) fault) }
    ensures names { IfErr
        result
        (λ fault. (t : Table) (start : trees.History) (begun : shelves.History) → IsAtChild (walk_status wanted t start (T.history tree.old) begun (S.history shelf.old)) t parent.old child.now
        → MetAt
        (walk_status wanted t start (T.history tree.new) begun (S.history shelf.new))
        child.now.path.text.now
        fault) }
    ensures asked { IsTrue (T.history tree.old).told
        → (t : Table) → IsChildOf t child.now
        → AsksReads
        (WasAsked (asked_unvouched wanted t) (T.history tree.old) (T.history tree.new))
        (T.history tree.old)
        (T.history tree.new) }
    ensures reads { (t : Table) (start : trees.History) (begun : shelves.History) → IsAtChild (walk_status wanted t start (T.history tree.old) begun (S.history shelf.old)) t parent.old child.now
        → IsTrue (T.history tree.old).told
        → ReadsPath
        (walk_status wanted t start (T.history tree.new) begun (S.history shelf.new))
        (T.history tree.old)
        child.now.path.text.now }
    ensures unasked { (t : Table) → IsChildOf t child.now
        → (WasAsked (asked_unvouched wanted t) (T.history tree.old) (T.history tree.new) child.now.path.text.now → ⊥)
        → shelf.new ≡ shelf.old }
    ensures store { IfErr
        result
        (λ fault. (t : Table) (start : trees.History) (begun : shelves.History) → IsAtChild (walk_status wanted t start (T.history tree.old) begun (S.history shelf.old)) t parent.old child.now
        → IsTrue begun.told
        → AsksStore (walk_status wanted t start (T.history tree.new) begun (S.history shelf.new))) }
    ensures cause { HasStatusCause (T.faults tree.old) (T.faults tree.new) result }
    ensures cause_shelf { HasShelfCause (S.faults shelf.old) (S.faults shelf.new) result }
{
    if !entry.w {
        return Ok(Told {
            letter: Some(Letter::R),
            seen: None,
            mark: Mark::Unasked,
        });
    }
    if !wants_tracked(wanted) {
        return Ok(Told {
            letter: None,
            seen: None,
            mark: Mark::Unasked,
        });
    }
    let Some(there) = tree.stat(child.path)? else {
        return Ok(Told {
            letter: Some(Letter::Gone),
            seen: None,
            mark: Mark::Nothing,
        });
    };
    tell_there(
        alloc, child, entry, &there, tree, shelf, parent, wanted, boundary,
    )
}

// Notes what was seen of a path.
fn note_seen(
    alloc: Global,
    path: PathRef<'_>,
    seen: Option<(Stat, Stamp)>,
    notes: &mut Notes,
) -> Result<(), OutOfMemory>
    ensures { OnOk result (notes.new ≡ with_clean_notes (notes_of path.entry.text.now seen) notes.old) }
{
    match seen {
        None => Ok(()),
        Some((stat, stamp)) => notes.add_clean(Path::of(alloc, path)?, stat, stamp),
    }
}

// Tells of one child, and answers what a look showed at its path.
fn tell_one<T: Tree, S: Shelf>(
    alloc: Global,
    child: &Line<'_>,
    tree: &mut T,
    shelf: &mut S,
    parent: &mut Parent,
    wanted: Wanted,
    boundary: Time,
    rows: &mut Vec<Row>,
    notes: &mut Notes,
) -> Result<Mark, StatusFault>
    ensures passes { trees.Passes (T.history tree.old) (T.history tree.new) }
    ensures passes_shelf { shelves.Passes (S.history shelf.old) (S.history shelf.new) }
    ensures kept { images.Goes (images.course (S.history shelf.old) (S.images shelf.old)) (images.course (S.history shelf.new) (S.images shelf.new)) }
    ensures held { S.held shelf.new ≡ S.held shelf.old }
    ensures goes { OnOk
        result
        ((t : Table) (start : trees.History) (begun : shelves.History) → IsAtChild (walk_status wanted t start (T.history tree.old) begun (S.history shelf.old)) t parent.old child.now
        → Proceeds (walk_status wanted t start (T.history tree.new) begun (S.history shelf.new)) parent.new) }
    ensures row { OnOk
        result
        ((t : Table) (start : trees.History) (begun : shelves.History) (store : shelves.Files) → IsAtChild (walk_status wanted t start (T.history tree.old) begun (S.history shelf.old)) t parent.old child.now
        → TellsEach
        store
        (AreRight (rows_in t store) t start (T.history tree.new))
        (walk_status wanted t (T.history tree.old) (T.history tree.new) begun (S.history shelf.new))
        (child.now ∷ [])
        rows.old.items
        rows.new.items) }
    ensures noted { OnOk
        result
        (NotesBehind
        (λ t more. (start : trees.History) (begun : shelves.History) → IsAtChild (walk_status wanted t start (T.history tree.old) begun (S.history shelf.old)) t parent.old child.now
        → AreNotesOf
        (walk_status wanted t (T.history tree.old) (T.history tree.new) begun (S.history shelf.new))
        t
        boundary
        (child.now ∷ [])
        more)
        notes.old
        notes.new) }
    ensures marked { IfOk result (λ mark. IsMarked wanted (T.history tree.old) (T.history tree.new) child.now mark) }
    ensures met { IfErr
        result
        (λ fault. (t : Table) (start : trees.History) (begun : shelves.History) → IsAtChild (walk_status wanted t start (T.history tree.old) begun (S.history shelf.old)) t parent.old child.now
        → MetParent (walk_status wanted t start (T.history tree.new) begun (S.history shelf.new)) fault) }
    ensures names { IfErr
        result
        (λ fault. (t : Table) (start : trees.History) (begun : shelves.History) → IsAtChild (walk_status wanted t start (T.history tree.old) begun (S.history shelf.old)) t parent.old child.now
        → MetAt
        (walk_status wanted t start (T.history tree.new) begun (S.history shelf.new))
        child.now.path.text.now
        fault) }
    ensures asked { IsTrue (T.history tree.old).told
        → (t : Table) → IsChildOf t child.now
        → AsksReads
        (WasAsked (asked_unvouched wanted t) (T.history tree.old) (T.history tree.new))
        (T.history tree.old)
        (T.history tree.new) }
    ensures reads { (t : Table) (start : trees.History) (begun : shelves.History) → IsAtChild (walk_status wanted t start (T.history tree.old) begun (S.history shelf.old)) t parent.old child.now
        → IsTrue (T.history tree.old).told
        → ReadsPath
        (walk_status wanted t start (T.history tree.new) begun (S.history shelf.new))
        (T.history tree.old)
        child.now.path.text.now }
    ensures unasked { (t : Table) → IsChildOf t child.now
        → (WasAsked (asked_unvouched wanted t) (T.history tree.old) (T.history tree.new) child.now.path.text.now → ⊥)
        → shelf.new ≡ shelf.old }
    ensures store { IfErr
        result
        (λ fault. (t : Table) (start : trees.History) (begun : shelves.History) → IsAtChild (walk_status wanted t start (T.history tree.old) begun (S.history shelf.old)) t parent.old child.now
        → IsTrue begun.told
        → AsksStore (walk_status wanted t start (T.history tree.new) begun (S.history shelf.new))) }
    ensures cause { HasStatusCause (T.faults tree.old) (T.faults tree.new) result }
    ensures cause_shelf { HasShelfCause (S.faults shelf.old) (S.faults shelf.new) result }
{
    let Some(entry) = &child.entry else {
        return Ok(Mark::Unasked);
    };
    let told = tell_tracked(alloc, child, entry, tree, shelf, parent, wanted, boundary)?;
    put_wanted(alloc, child.path, child.source, told.letter, wanted, rows)?;
    note_seen(alloc, child.path, told.seen, notes)?;
    Ok(told.mark)
}

// Looks at each path with an entry, in order. A mark is put for each child: what a look showed at its path. `boundary` is a time of the tree's clock from
// before.
pub(crate) fn tell_each<T: Tree, S: Shelf>(
    alloc: Global,
    children: &[Line<'_>],
    p1: &Id20,
    tree: &mut T,
    shelf: &mut S,
    wanted: Wanted,
    boundary: Time,
    marks: &mut Vec<Mark>,
    rows: &mut Vec<Row>,
    notes: &mut Notes,
) -> Result<(), StatusFault>
    ensures passes { trees.Passes (T.history tree.old) (T.history tree.new) }
    ensures passes_shelf { shelves.Passes (S.history shelf.old) (S.history shelf.new) }
    ensures kept { images.Goes (images.course (S.history shelf.old) (S.images shelf.old)) (images.course (S.history shelf.new) (S.images shelf.new)) }
    ensures held { S.held shelf.new ≡ S.held shelf.old }
    // Where the record's times are right over the pass, each row is that of the path's letter; what a comparison asks for is there in any case.
    ensures added { OnOk
        result
        ((t : Table) (store : shelves.Files) → AreOf t p1.now children.now
        → TellsEach
        store
        (AreRight (rows_in t store) t (T.history tree.old) (T.history tree.new))
        (walk_status wanted t (T.history tree.old) (T.history tree.new) (S.history shelf.old) (S.history shelf.new))
        children.now
        rows.old.items
        rows.new.items) }
    ensures marked { OnOk
        result
        (MarksEach wanted (T.history tree.old) (T.history tree.new) children.now marks.old.items marks.new.items) }
    ensures noted { OnOk
        result
        (NotesBehind
        (λ t more. AreOf t p1.now children.now
        → AreNotesOf
        (walk_status wanted t (T.history tree.old) (T.history tree.new) (S.history shelf.old) (S.history shelf.new))
        t
        boundary
        children.now
        more)
        notes.old
        notes.new) }
    ensures met { IfErr
        result
        (λ fault. (t : Table) → AreOf t p1.now children.now
        → MetParent (walk_status wanted t (T.history tree.old) (T.history tree.new) (S.history shelf.old) (S.history shelf.new)) fault) }
    // Of several contents that are absent those of the first path are answered.
    ensures first { IfErr
        result
        (λ fault. (t : Table) → AreOf t p1.now children.now
        → AreAllOf t children.now
        → MetFirst (walk_status wanted t (T.history tree.old) (T.history tree.new) (S.history shelf.old) (S.history shelf.new)) fault) }
    ensures asked { IsTrue (T.history tree.old).told
        → (t : Table) → AreOf t p1.now children.now
        → AsksReads
        (WasAsked (asked_unvouched wanted t) (T.history tree.old) (T.history tree.new))
        (T.history tree.old)
        (T.history tree.new) }
    // The bytes of each path are read in one comparison at most, and only where they are needed.
    ensures reads { IsTrue (T.history tree.old).told
        → (t : Table) → AreOf t p1.now children.now
        → ReadsFront
        (walk_status wanted t (T.history tree.old) (T.history tree.new) (S.history shelf.old) (S.history shelf.new))
        children.now }
    ensures unasked { (t : Table) → AreOf t p1.now children.now
        → ((path : List ℕ) → WasAsked (asked_unvouched wanted t) (T.history tree.old) (T.history tree.new) path → ⊥)
        → shelf.new ≡ shelf.old }
    ensures store { IsTrue (S.history shelf.old).told
        → (t : Table) → AreOf t p1.now children.now
        → AsksStore (walk_status wanted t (T.history tree.old) (T.history tree.new) (S.history shelf.old) (S.history shelf.new)) }
    ensures cause { HasStatusCause (T.faults tree.old) (T.faults tree.new) result }
    ensures cause_shelf { HasShelfCause (S.faults shelf.old) (S.faults shelf.new) result }
{
    let mut parent = Parent::new(p1);
    for child in children {
        let mark = tell_one(
            alloc,
            child,
            tree,
            shelf,
            &mut parent,
            wanted,
            boundary,
            rows,
            notes,
        )?;
        marks.push(mark)?;
    }
    Ok(())
}
