//! The row of one path.

ghost use Rattle.std.specs.Prelude.{◌≡◌, ◌++◌, ◌∷◌, [], Some, None, false, true, OnOk, IfErr, IfOk, IsTrue, if◌then◌else◌, is_some, ◌||◌, option_map};
ghost use Rattle.hg_shelf.specs.History as shelves;
ghost use Rattle.hg_shelf.specs.Images as images;
ghost use Rattle.hg_tree.specs.History as trees;
ghost use Rattle.hg_tree.specs.Moment.{stat_at};
ghost use Rattle.hg_flat.specs.Asked.{AsksReads};
ghost use Rattle.hg_listing.specs.Cause.{HasShelfCause, HasStatusCause};
ghost use Rattle.hg_flat.specs.Course.{Proceeds, MetParent, upto};
ghost use Rattle.hg_flat.specs.First.{MetAt};
ghost use Rattle.hg_listing.specs.Full.{wants};
ghost use Rattle.hg_flat.specs.Listing.{AddsTracked, AsksRow, IsLeftRow, IsLetterFor, is_file_or_link_kind, marked_letter, row_under, rows_under, wants_bytes, wants_tracked};
ghost use Rattle.hg_flat.specs.Met.{Status};
ghost use Rattle.hg_flat.specs.Needed.{ReadsPath};
ghost use Rattle.hg_flat.specs.Parent.{Asking, WasAsked};
ghost use Rattle.hg_flat.specs.Stored.{AsksStore};
ghost use Rattle.hg_flat.specs.declared.kept.FlatRow.{FlatRow};

use crate::comparing::{compared_letter, letter_of};
use crate::kept::{FlatRow, item_of};
use crate::parent::Parent;
use hg_base::{Kind, OutOfMemory, Path, PathRef, Stat};
use hg_compare::Letter;
use hg_entry::Entry;
use hg_listing::{Row, StatusFault, Wanted};
use hg_shelf::Shelf;
use hg_tree::Tree;
use std::alloc::Global;

/// Whether a letter is asked for.
pub fn wants(wanted: Wanted, letter: Letter) -> bool
    ensures { result ≡ wants wanted letter }
{
    match letter {
        Letter::M => wanted.m,
        Letter::A => wanted.a,
        Letter::R => wanted.r,
        Letter::Gone => wanted.d,
        Letter::Unknown => wanted.u,
        Letter::I => wanted.i,
        Letter::C => wanted.c,
    }
}

/// Whether a letter is asked for that takes a look at a tracked path: M, A, `!` or C.
pub fn wants_tracked(wanted: Wanted) -> bool
    ensures { result ≡ wants_tracked wanted }
{
    wanted.m || wanted.a || wanted.d || wanted.c
}

/// Whether a letter is asked for that takes a comparison: M or C.
pub fn wants_bytes(wanted: Wanted) -> bool
    ensures { result ≡ wants_bytes wanted }
{
    wanted.m || wanted.c
}

/// The letter of a tracked path by its marks, where a look shows this, or none where its bytes decide.
pub fn letter_by_marks(entry: &Entry, copied: bool, there: &Stat) -> Option<Letter>
    ensures { (kept : FlatRow) → kept.entry ≡ entry.now → is_some kept.source ≡ copied → result ≡ marked_letter kept there.now }
{
    if !matches!(there.kind, Kind::File | Kind::Link) {
        return Some(Letter::Gone);
    }
    if entry.p2 {
        return Some(Letter::M);
    }
    if !entry.p1 {
        return Some(Letter::A);
    }
    if copied {
        return Some(Letter::M);
    }
    None
}

// The same of a row.
fn marked_letter(kept: &FlatRow, there: &Stat) -> Option<Letter>
    ensures { result ≡ marked_letter kept.now there.now }
{
    letter_by_marks(&kept.entry, kept.source.is_some(), there)
}

// The letter of a tracked path where a look shows something, or none where it isn't wanted.
fn letter_there<T: Tree, S: Shelf>(
    alloc: Global,
    tree: &mut T,
    shelf: &mut S,
    kept: &FlatRow,
    there: &Stat,
    parent: &mut Parent,
    wanted: Wanted,
) -> Result<Option<Letter>, StatusFault>
    requires { kept.now.entry.w ≡ true }
    ensures tree_passes { trees.Passes (T.history tree.old) (T.history tree.new) }
    ensures shelf_passes { shelves.Passes (S.history shelf.old) (S.history shelf.new) }
    ensures kept { images.Goes (images.course (S.history shelf.old) (S.images shelf.old)) (images.course (S.history shelf.new) (S.images shelf.new)) }
    ensures held { S.held shelf.new ≡ S.held shelf.old }
    ensures goes { OnOk
        result
        ((s : Status) → Proceeds (upto s (T.history tree.old) (S.history shelf.old)) parent.old
        → AsksRow wanted kept.now s.asks
        → (IsTrue (T.history tree.old).told → stat_at (trees.now (T.history tree.old)) kept.now.path ≡ Some there.now)
        → Proceeds (upto s (T.history tree.new) (S.history shelf.new)) parent.new) }
    ensures found { IfOk
        result
        (λ letter. (s : Status) (store : shelves.Files) → Proceeds (upto s (T.history tree.old) (S.history shelf.old)) parent.old
        → (IsTrue (T.history tree.old).told → stat_at (trees.now (T.history tree.old)) kept.now.path ≡ Some there.now)
        → IsLetterFor
        (IsLeftRow
        store
        wanted
        s.id
        (T.history tree.new)
        (T.history tree.old).last
        (S.history shelf.new)
        s.shelf_old.last)
        store
        s.id
        (trees.now (T.history tree.old))
        wanted
        kept.now
        letter) }
    ensures met { IfErr
        result
        (λ fault. (s : Status) → Proceeds (upto s (T.history tree.old) (S.history shelf.old)) parent.old
        → AsksRow wanted kept.now s.asks
        → (IsTrue (T.history tree.old).told → stat_at (trees.now (T.history tree.old)) kept.now.path ≡ Some there.now)
        → MetParent (upto s (T.history tree.new) (S.history shelf.new)) fault) }
    // Absent contents are those of this path.
    ensures names { IfErr
        result
        (λ fault. (s : Status) → Proceeds (upto s (T.history tree.old) (S.history shelf.old)) parent.old
        → AsksRow wanted kept.now s.asks
        → (IsTrue (T.history tree.old).told → stat_at (trees.now (T.history tree.old)) kept.now.path ≡ Some there.now)
        → MetAt (upto s (T.history tree.new) (S.history shelf.new)) kept.now.path fault) }
    ensures asked { (asks : Asking) → AsksRow wanted kept.now asks
        → IsTrue (T.history tree.old).told
        → stat_at (trees.now (T.history tree.old)) kept.now.path ≡ Some there.now
        → AsksReads (WasAsked asks (T.history tree.old) (T.history tree.new)) (T.history tree.old) (T.history tree.new) }
    // Its bytes are read only where nothing else decides its letter.
    ensures reads { (s : Status) → Proceeds (upto s (T.history tree.old) (S.history shelf.old)) parent.old
        → AsksRow wanted kept.now s.asks
        → IsTrue (T.history tree.old).told
        → stat_at (trees.now (T.history tree.old)) kept.now.path ≡ Some there.now
        → ReadsPath (upto s (T.history tree.new) (S.history shelf.new)) (T.history tree.old) kept.now.path }
    ensures unasked { (asks : Asking) → AsksRow wanted kept.now asks
        → (IsTrue (T.history tree.old).told → stat_at (trees.now (T.history tree.old)) kept.now.path ≡ Some there.now)
        → (WasAsked asks (T.history tree.old) (T.history tree.new) kept.now.path → ⊥)
        → shelf.new ≡ shelf.old }
    ensures store { IfErr
        result
        (λ fault. (s : Status) → Proceeds (upto s (T.history tree.old) (S.history shelf.old)) parent.old
        → AsksRow wanted kept.now s.asks
        → (IsTrue (T.history tree.old).told → stat_at (trees.now (T.history tree.old)) kept.now.path ≡ Some there.now)
        → IsTrue s.shelf_old.told
        → AsksStore (upto s (T.history tree.new) (S.history shelf.new))) }
    ensures cause { HasStatusCause (T.faults tree.old) (T.faults tree.new) result }
    ensures cause_shelf { HasShelfCause (S.faults shelf.old) (S.faults shelf.new) result }
{
    if let Some(letter) = marked_letter(kept, there) {
        return Ok(Some(letter));
    }
    if !wants_bytes(wanted) {
        return Ok(None);
    }
    let looked = compared_letter(alloc, tree, shelf, kept.path.as_ref(), there, parent)?;
    Ok(Some(letter_of(looked)))
}

// The letter of a path with an entry, or none where it isn't wanted.
fn find_letter<T: Tree, S: Shelf>(
    alloc: Global,
    tree: &mut T,
    shelf: &mut S,
    kept: &FlatRow,
    parent: &mut Parent,
    wanted: Wanted,
) -> Result<Option<Letter>, StatusFault>
    ensures tree_passes { trees.Passes (T.history tree.old) (T.history tree.new) }
    ensures shelf_passes { shelves.Passes (S.history shelf.old) (S.history shelf.new) }
    ensures kept { images.Goes (images.course (S.history shelf.old) (S.images shelf.old)) (images.course (S.history shelf.new) (S.images shelf.new)) }
    ensures held { S.held shelf.new ≡ S.held shelf.old }
    ensures goes { OnOk
        result
        ((s : Status) → Proceeds (upto s (T.history tree.old) (S.history shelf.old)) parent.old
        → AsksRow wanted kept.now s.asks
        → Proceeds (upto s (T.history tree.new) (S.history shelf.new)) parent.new) }
    ensures found { IfOk
        result
        (λ letter. (s : Status) (store : shelves.Files) → Proceeds (upto s (T.history tree.old) (S.history shelf.old)) parent.old
        → IsLetterFor
        (IsLeftRow
        store
        wanted
        s.id
        (T.history tree.new)
        (T.history tree.old).last
        (S.history shelf.new)
        s.shelf_old.last)
        store
        s.id
        (trees.now (T.history tree.old))
        wanted
        kept.now
        letter) }
    ensures met { IfErr
        result
        (λ fault. (s : Status) → Proceeds (upto s (T.history tree.old) (S.history shelf.old)) parent.old
        → AsksRow wanted kept.now s.asks
        → MetParent (upto s (T.history tree.new) (S.history shelf.new)) fault) }
    ensures names { IfErr
        result
        (λ fault. (s : Status) → Proceeds (upto s (T.history tree.old) (S.history shelf.old)) parent.old
        → AsksRow wanted kept.now s.asks
        → MetAt (upto s (T.history tree.new) (S.history shelf.new)) kept.now.path fault) }
    ensures asked { (asks : Asking) → AsksRow wanted kept.now asks
        → IsTrue (T.history tree.old).told
        → AsksReads (WasAsked asks (T.history tree.old) (T.history tree.new)) (T.history tree.old) (T.history tree.new) }
    ensures reads { (s : Status) → Proceeds (upto s (T.history tree.old) (S.history shelf.old)) parent.old
        → AsksRow wanted kept.now s.asks
        → IsTrue (T.history tree.old).told
        → ReadsPath (upto s (T.history tree.new) (S.history shelf.new)) (T.history tree.old) kept.now.path }
    ensures unasked { (asks : Asking) → AsksRow wanted kept.now asks
        → (WasAsked asks (T.history tree.old) (T.history tree.new) kept.now.path → ⊥)
        → shelf.new ≡ shelf.old }
    ensures store { IfErr
        result
        (λ fault. (s : Status) → Proceeds (upto s (T.history tree.old) (S.history shelf.old)) parent.old
        → AsksRow wanted kept.now s.asks
        → IsTrue s.shelf_old.told
        → AsksStore (upto s (T.history tree.new) (S.history shelf.new))) }
    ensures cause { HasStatusCause (T.faults tree.old) (T.faults tree.new) result }
    ensures cause_shelf { HasShelfCause (S.faults shelf.old) (S.faults shelf.new) result }
{
    if !kept.entry.w {
        return Ok(Some(Letter::R));
    }
    if !wants_tracked(wanted) {
        return Ok(None);
    }
    let Some(there) = tree.stat(kept.path.as_ref())? else {
        return Ok(Some(Letter::Gone));
    };
    letter_there(alloc, tree, shelf, kept, &there, parent, wanted)
}

fn copy_of(alloc: Global, path: Option<PathRef<'_>>) -> Result<Option<Path>, OutOfMemory>
    ensures { IfOk result (λ copy. copy ≡ option_map (λ path. path.text.now) path.entry) }
{
    match path {
        None => Ok(None),
        Some(path) => Ok(Some(Path::of(alloc, path)?)),
    }
}

// Puts the row of a path under a letter.
fn put_under(
    alloc: Global,
    path: PathRef<'_>,
    source: Option<PathRef<'_>>,
    letter: Letter,
    rows: &mut Vec<Row>,
) -> Result<(), OutOfMemory>
    ensures { OnOk
        result
        ((kept : FlatRow) → kept.path ≡ path.entry.text.now
        → kept.source ≡ option_map (λ source. source.text.now) source.entry
        → rows.new.items ≡ rows.old.items ++ (row_under kept letter) ∷ []) }
{
    let path = Path::of(alloc, path)?;
    let source = copy_of(alloc, source)?;
    rows.push(Row {
        letter,
        path,
        source,
    })?;
    Ok(())
}

/// Puts the row of a path with its copy source, where there is a letter and it is wanted.
pub fn put_wanted(
    alloc: Global,
    path: PathRef<'_>,
    source: Option<PathRef<'_>>,
    letter: Option<Letter>,
    wanted: Wanted,
    rows: &mut Vec<Row>,
) -> Result<(), OutOfMemory>
    ensures { OnOk
        result
        ((kept : FlatRow) → kept.path ≡ path.entry.text.now
        → kept.source ≡ option_map (λ source. source.text.now) source.entry
        → rows.new.items ≡ rows.old.items ++ rows_under wanted kept letter) }
{
    match letter {
        None => Ok(()),
        Some(letter) => if wants(wanted, letter) {
            put_under(alloc, path, source, letter, rows)
        } else {
            Ok(())
        },
    }
}

/// Puts the row of a path with an entry, where its letter is wanted.
pub(crate) fn add_tracked<T: Tree, S: Shelf>(
    alloc: Global,
    tree: &mut T,
    shelf: &mut S,
    kept: &FlatRow,
    parent: &mut Parent,
    wanted: Wanted,
    rows: &mut Vec<Row>,
) -> Result<(), StatusFault>
    ensures tree_passes { trees.Passes (T.history tree.old) (T.history tree.new) }
    ensures shelf_passes { shelves.Passes (S.history shelf.old) (S.history shelf.new) }
    ensures kept { images.Goes (images.course (S.history shelf.old) (S.images shelf.old)) (images.course (S.history shelf.new) (S.images shelf.new)) }
    ensures held { S.held shelf.new ≡ S.held shelf.old }
    ensures goes { OnOk
        result
        ((s : Status) → Proceeds (upto s (T.history tree.old) (S.history shelf.old)) parent.old
        → AsksRow wanted kept.now s.asks
        → Proceeds (upto s (T.history tree.new) (S.history shelf.new)) parent.new) }
    ensures row { OnOk
        result
        ((s : Status) (store : shelves.Files) → Proceeds (upto s (T.history tree.old) (S.history shelf.old)) parent.old
        → AddsTracked
        (IsLeftRow
        store
        wanted
        s.id
        (T.history tree.new)
        (T.history tree.old).last
        (S.history shelf.new)
        s.shelf_old.last)
        store
        s.id
        (trees.now (T.history tree.old))
        wanted
        (kept.now ∷ [])
        rows.old.items
        rows.new.items) }
    ensures met { IfErr
        result
        (λ fault. (s : Status) → Proceeds (upto s (T.history tree.old) (S.history shelf.old)) parent.old
        → AsksRow wanted kept.now s.asks
        → MetParent (upto s (T.history tree.new) (S.history shelf.new)) fault) }
    ensures names { IfErr
        result
        (λ fault. (s : Status) → Proceeds (upto s (T.history tree.old) (S.history shelf.old)) parent.old
        → AsksRow wanted kept.now s.asks
        → MetAt (upto s (T.history tree.new) (S.history shelf.new)) kept.now.path fault) }
    ensures asked { (asks : Asking) → AsksRow wanted kept.now asks
        → IsTrue (T.history tree.old).told
        → AsksReads (WasAsked asks (T.history tree.old) (T.history tree.new)) (T.history tree.old) (T.history tree.new) }
    ensures reads { (s : Status) → Proceeds (upto s (T.history tree.old) (S.history shelf.old)) parent.old
        → AsksRow wanted kept.now s.asks
        → IsTrue (T.history tree.old).told
        → ReadsPath (upto s (T.history tree.new) (S.history shelf.new)) (T.history tree.old) kept.now.path }
    ensures unasked { (asks : Asking) → AsksRow wanted kept.now asks
        → (WasAsked asks (T.history tree.old) (T.history tree.new) kept.now.path → ⊥)
        → shelf.new ≡ shelf.old }
    ensures store { IfErr
        result
        (λ fault. (s : Status) → Proceeds (upto s (T.history tree.old) (S.history shelf.old)) parent.old
        → AsksRow wanted kept.now s.asks
        → IsTrue s.shelf_old.told
        → AsksStore (upto s (T.history tree.new) (S.history shelf.new))) }
    ensures cause { HasStatusCause (T.faults tree.old) (T.faults tree.new) result }
    ensures cause_shelf { HasShelfCause (S.faults shelf.old) (S.faults shelf.new) result }
{
    let letter = find_letter(alloc, tree, shelf, kept, parent, wanted)?;
    put_wanted(
        alloc,
        kept.path.as_ref(),
        item_of(kept).source,
        letter,
        wanted,
        rows,
    )?;
    Ok(())
}
