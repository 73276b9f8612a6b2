//! What is found at a path that may be removed.

ghost use Rattle.std.specs.Prelude.{◌≡◌, ◌⊎◌, None, Some, true, IfErr, IfOk, IsTrue, OnErr, OnOk};
ghost use Rattle.hg_compare.specs.Alike.{contents_name};
ghost use Rattle.hg_compare.specs.Same.{Reads};
ghost use Rattle.hg_entry.specs.Steps.{is_file};
ghost use Rattle.hg_manifest.specs.Load.{AsksByFile, asks_of};
ghost use Rattle.hg_manifest.specs.Plain.{plain_name};
ghost use Rattle.hg_ops.specs.Cause.{HasOpCause};
ghost use Rattle.hg_ops.specs.Finding.{Finds, FindsBy, FindsByRow, FindsIn, FindsThere, LacksIn, LoadsParent, MetBy, found_of};
ghost use Rattle.hg_ops.specs.Parent.{AsksStore, HasStoreCause, IsContents, KeepsParent, Span, upto};
ghost use Rattle.hg_ops.specs.Parents.{row_at};
ghost use Rattle.hg_ops.specs.Remove.{MetRemoving, NeedsRow, ReadsWord, WasGone, compared};
ghost use Rattle.hg_ops.specs.declared.finding.Found.TheVariants as a_find;
ghost use Rattle.hg_ops.specs.declared.refusal.OpFault.TheVariants as a_fault;
ghost use Rattle.hg_shelf.specs.Asks.{AsksOnly};
ghost use Rattle.hg_shelf.specs.History as shelves;
ghost use Rattle.hg_shelf.specs.Images as images;
ghost use Rattle.hg_tree.specs.History as trees;

use crate::parent::{Loaded, Parent};
use crate::refusal::OpFault;
use hg_base::{Id20, Kind, PathRef, Stat};
use hg_compare::{Looked, Room, same};
use hg_manifest::{FileRow, Manifest};
use hg_shelf::Shelf;
use hg_tree::Tree;
use std::alloc::Global;

/// What stands at a path that may be removed.
#[derive(Clone, Copy, Debug, PartialEq, Eq)]
pub(crate) enum Found {
    /// A file or a link, where none may stand.
    StillThere,
    /// A file or a link that isn't as the first parent has it, or whose marks or copy source say so.
    Changed,
    /// A file or a link as the first parent has it.
    Unchanged,
    /// Neither a file nor a link.
    Nothing,
}

// Loads the manifest of a parent.
fn load<S: Shelf>(alloc: Global, shelf: &mut S, id: &Id20) -> Result<Loaded, OpFault>
    ensures passes { shelves.Passes (S.history shelf.old) (S.history shelf.new) }
    ensures kept { images.Goes (images.course (S.history shelf.old) (S.images shelf.old)) (images.course (S.history shelf.new) (S.images shelf.new)) }
    ensures held { S.held shelf.new ≡ S.held shelf.old }
    ensures found { (s : Span) → shelves.Passes s.old (S.history shelf.old) → id.now ≡ s.id → LoadsParent (upto s (S.history shelf.new)) result }
    ensures asked { IsTrue (S.history shelf.old).told → AsksByFile (plain_name id.now.0) (asks_of id.now) (S.history shelf.old) (S.history shelf.new) result }
    ensures kind { IfErr result (λ fault. fault ≡ a_fault.TreeFailed → ⊥) }
    ensures cause { HasStoreCause (S.faults shelf.old) (S.faults shelf.new) result }
{
    match Manifest::load(alloc, shelf, id) {
        Err(fault) => Err(OpFault::from(fault)),
        Ok(manifest) => with_room(alloc, manifest),
    }
}

fn with_room(alloc: Global, manifest: Manifest) -> Result<Loaded, OpFault>
    ensures manifest { IfOk result (λ loaded. loaded.manifest ≡ manifest) }
    ensures kind { IfErr result (λ fault. fault ≡ a_fault.OutOfMemory) }
{
    match Room::new(alloc) {
        Err(_) => Err(OpFault::OutOfMemory),
        Ok(room) => Ok(Loaded { manifest, room }),
    }
}

fn found_of(looked: Looked) -> Found
    ensures { result ≡ found_of looked }
{
    match looked {
        Looked::Same { .. } => Found::Unchanged,
        Looked::Differs => Found::Changed,
        Looked::Gone => Found::Nothing,
    }
}

// What a comparison with a row finds.
fn find_by_row<T: Tree, S: Shelf>(
    tree: &mut T,
    shelf: &mut S,
    path: PathRef<'_>,
    row: &FileRow,
    before: &Stat,
    room: &mut Room,
) -> Result<Found, OpFault>
    ensures tree_passes { trees.Passes (T.history tree.old) (T.history tree.new) }
    ensures shelf_passes { shelves.Passes (S.history shelf.old) (S.history shelf.new) }
    ensures kept { images.Goes (images.course (S.history shelf.old) (S.images shelf.old)) (images.course (S.history shelf.new) (S.images shelf.new)) }
    ensures held { S.held shelf.new ≡ S.held shelf.old }
    ensures found { IfOk
        result
        (FindsBy
        (compared
        path.entry.text.now
        row.now
        (T.history tree.old)
        (T.history tree.new)
        (S.history shelf.old)
        (S.history shelf.new))
        row.now
        before.now) }
    ensures lacks { IfErr result (LacksIn (S.history shelf.old) (S.history shelf.new) (Some row.now) before.now) }
    ensures asked { IsTrue (T.history tree.old).told → Reads before.now.size path.entry.text.now (T.history tree.old) (T.history tree.new) }
    ensures contents { IsTrue (S.history shelf.old).told → AsksOnly (IsContents (Some row.now)) (S.history shelf.old) (S.history shelf.new) }
    ensures cause { HasOpCause (T.faults tree.old) (T.faults tree.new) result }
    ensures cause_shelf { HasStoreCause (S.faults shelf.old) (S.faults shelf.new) result }
{
    match same(tree, shelf, path, row, before, room) {
        Err(fault) => Err(OpFault::from(fault)),
        Ok(looked) => Ok(found_of(looked)),
    }
}

// The same by what a manifest has of the path; what it hasn't is changed.
fn find_in<T: Tree, S: Shelf>(
    tree: &mut T,
    shelf: &mut S,
    path: PathRef<'_>,
    before: &Stat,
    loaded: &mut Loaded,
) -> Result<Found, OpFault>
    ensures tree_passes { trees.Passes (T.history tree.old) (T.history tree.new) }
    ensures shelf_passes { shelves.Passes (S.history shelf.old) (S.history shelf.new) }
    ensures kept { images.Goes (images.course (S.history shelf.old) (S.images shelf.old)) (images.course (S.history shelf.new) (S.images shelf.new)) }
    ensures held { S.held shelf.new ≡ S.held shelf.old }
    ensures manifest { loaded.new.manifest ≡ loaded.old.manifest }
    ensures found { IfOk
        result
        (FindsIn
        path.entry.text.now
        (T.history tree.old)
        (T.history tree.new)
        (S.history shelf.old)
        (S.history shelf.new)
        before.now
        (row_at loaded.old.manifest path.entry.text.now)) }
    ensures lacks { IfErr
        result
        (LacksIn (S.history shelf.old) (S.history shelf.new) (row_at loaded.old.manifest path.entry.text.now) before.now) }
    ensures asked { IsTrue (T.history tree.old).told → Reads before.now.size path.entry.text.now (T.history tree.old) (T.history tree.new) }
    ensures contents { IsTrue (S.history shelf.old).told
        → AsksOnly (IsContents (row_at loaded.old.manifest path.entry.text.now)) (S.history shelf.old) (S.history shelf.new) }
    ensures cause { HasOpCause (T.faults tree.old) (T.faults tree.new) result }
    ensures cause_shelf { HasStoreCause (S.faults shelf.old) (S.faults shelf.new) result }
{
    match loaded.manifest.get(path) {
        None => Ok(Found::Changed),
        Some(row) => find_by_row(tree, shelf, path, &row, before, &mut loaded.room),
    }
}

// The same where the manifest has to be loaded first.
fn find_first<T: Tree, S: Shelf>(
    alloc: Global,
    tree: &mut T,
    shelf: &mut S,
    path: PathRef<'_>,
    before: &Stat,
    parent: &mut Parent,
) -> Result<Found, OpFault>
    requires { parent.now.loaded ≡ None }
    ensures tree_passes { trees.Passes (T.history tree.old) (T.history tree.new) }
    ensures shelf_passes { shelves.Passes (S.history shelf.old) (S.history shelf.new) }
    ensures kept { images.Goes (images.course (S.history shelf.old) (S.images shelf.old)) (images.course (S.history shelf.new) (S.images shelf.new)) }
    ensures held { S.held shelf.new ≡ S.held shelf.old }
    ensures goes { OnOk
        result
        ((s : Span) → KeepsParent (upto s (S.history shelf.old)) parent.old → KeepsParent (upto s (S.history shelf.new)) parent.new) }
    ensures found { IfOk
        result
        (λ found. (s : Span) → KeepsParent (upto s (S.history shelf.old)) parent.old
        → FindsByRow path.entry.text.now (T.history tree.old) (T.history tree.new) (upto s (S.history shelf.new)) before.now found) }
    ensures met { IfErr
        result
        (λ fault. (s : Span) → KeepsParent (upto s (S.history shelf.old)) parent.old
        → MetBy (upto s (S.history shelf.new)) path.entry.text.now before.now fault) }
    ensures store { IfErr
        result
        (λ fault. (s : Span) → KeepsParent (upto s (S.history shelf.old)) parent.old
        → IsTrue s.old.told
        → AsksStore (upto s (S.history shelf.new))) }
    ensures asked { IsTrue (T.history tree.old).told → Reads before.now.size path.entry.text.now (T.history tree.old) (T.history tree.new) }
    ensures cause { HasOpCause (T.faults tree.old) (T.faults tree.new) result }
    ensures cause_shelf { HasStoreCause (S.faults shelf.old) (S.faults shelf.new) result }
{
    let mut loaded = load(alloc, shelf, &parent.id)?;
    let found = find_in(tree, shelf, path, before, &mut loaded)?;
    parent.loaded = Some(loaded);
    Ok(found)
}

// What a comparison with the first parent finds.
fn find_compared<T: Tree, S: Shelf>(
    alloc: Global,
    tree: &mut T,
    shelf: &mut S,
    path: PathRef<'_>,
    before: &Stat,
    parent: &mut Parent,
) -> Result<Found, OpFault>
    ensures tree_passes { trees.Passes (T.history tree.old) (T.history tree.new) }
    ensures shelf_passes { shelves.Passes (S.history shelf.old) (S.history shelf.new) }
    ensures kept { images.Goes (images.course (S.history shelf.old) (S.images shelf.old)) (images.course (S.history shelf.new) (S.images shelf.new)) }
    ensures held { S.held shelf.new ≡ S.held shelf.old }
    ensures goes { OnOk
        result
        ((s : Span) → KeepsParent (upto s (S.history shelf.old)) parent.old → KeepsParent (upto s (S.history shelf.new)) parent.new) }
    ensures found { IfOk
        result
        (λ found. (s : Span) → KeepsParent (upto s (S.history shelf.old)) parent.old
        → FindsByRow path.entry.text.now (T.history tree.old) (T.history tree.new) (upto s (S.history shelf.new)) before.now found) }
    ensures met { IfErr
        result
        (λ fault. (s : Span) → KeepsParent (upto s (S.history shelf.old)) parent.old
        → MetBy (upto s (S.history shelf.new)) path.entry.text.now before.now fault) }
    ensures store { IfErr
        result
        (λ fault. (s : Span) → KeepsParent (upto s (S.history shelf.old)) parent.old
        → IsTrue s.old.told
        → AsksStore (upto s (S.history shelf.new))) }
    ensures asked { IsTrue (T.history tree.old).told → Reads before.now.size path.entry.text.now (T.history tree.old) (T.history tree.new) }
    ensures cause { HasOpCause (T.faults tree.old) (T.faults tree.new) result }
    ensures cause_shelf { HasStoreCause (S.faults shelf.old) (S.faults shelf.new) result }
{
    match &mut parent.loaded {
        None => find_first(alloc, tree, shelf, path, before, parent),
        Some(loaded) => find_in(tree, shelf, path, before, loaded),
    }
}

fn is_file(kind: Kind) -> bool
    ensures { result ≡ is_file kind }
{
    matches!(kind, Kind::File | Kind::Link)
}

// What is found where a look showed something.
fn find_there<T: Tree, S: Shelf>(
    alloc: Global,
    tree: &mut T,
    shelf: &mut S,
    parent: &mut Parent,
    path: PathRef<'_>,
    before: &Stat,
    after: bool,
    needs: bool,
) -> Result<Found, OpFault>
    ensures tree_passes { trees.Passes (T.history tree.old) (T.history tree.new) }
    ensures shelf_passes { shelves.Passes (S.history shelf.old) (S.history shelf.new) }
    ensures kept { images.Goes (images.course (S.history shelf.old) (S.images shelf.old)) (images.course (S.history shelf.new) (S.images shelf.new)) }
    ensures held { S.held shelf.new ≡ S.held shelf.old }
    ensures goes { OnOk
        result
        ((s : Span) → KeepsParent (upto s (S.history shelf.old)) parent.old → KeepsParent (upto s (S.history shelf.new)) parent.new) }
    ensures found { IfOk
        result
        (λ found. (s : Span) → KeepsParent (upto s (S.history shelf.old)) parent.old
        → FindsThere
        after
        needs
        path.entry.text.now
        (T.history tree.old)
        (T.history tree.new)
        (upto s (S.history shelf.new))
        before.now
        found) }
    ensures met { IfErr
        result
        (λ fault. (s : Span) → KeepsParent (upto s (S.history shelf.old)) parent.old
        → MetBy (upto s (S.history shelf.new)) path.entry.text.now before.now fault) }
    ensures store { IfErr
        result
        (λ fault. (s : Span) → KeepsParent (upto s (S.history shelf.old)) parent.old
        → IsTrue s.old.told
        → AsksStore (upto s (S.history shelf.new))) }
    // Nothing is asked but for a comparison.
    ensures asked { IsTrue (T.history tree.old).told → Reads before.now.size path.entry.text.now (T.history tree.old) (T.history tree.new) }
    ensures needed { ((tree.new ≡ tree.old) × (shelf.new ≡ shelf.old)) ⊎ ((needs ≡ true) × (is_file before.now.kind ≡ true)) }
    ensures compared { OnErr result ((needs ≡ true) × (is_file before.now.kind ≡ true)) }
    ensures never { after ≡ true → IfOk result (λ found. found ≡ a_find.Unchanged → ⊥) }
    ensures cause { HasOpCause (T.faults tree.old) (T.faults tree.new) result }
    ensures cause_shelf { HasStoreCause (S.faults shelf.old) (S.faults shelf.new) result }
{
    if !is_file(before.kind) {
        return Ok(Found::Nothing);
    }
    if after {
        return Ok(Found::StillThere);
    }
    if !needs {
        return Ok(Found::Changed);
    }
    find_compared(alloc, tree, shelf, path, before, parent)
}

/// What stands at a path. `after` says that no file may stand there, and `needs` that what the first parent has of the path decides whether it is changed.
pub(crate) fn find<T: Tree, S: Shelf>(
    alloc: Global,
    tree: &mut T,
    shelf: &mut S,
    parent: &mut Parent,
    path: PathRef<'_>,
    after: bool,
    needs: bool,
) -> Result<Found, OpFault>
    ensures tree_passes { trees.Passes (T.history tree.old) (T.history tree.new) }
    ensures shelf_passes { shelves.Passes (S.history shelf.old) (S.history shelf.new) }
    ensures kept { images.Goes (images.course (S.history shelf.old) (S.images shelf.old)) (images.course (S.history shelf.new) (S.images shelf.new)) }
    ensures held { S.held shelf.new ≡ S.held shelf.old }
    ensures goes { OnOk
        result
        ((s : Span) → KeepsParent (upto s (S.history shelf.old)) parent.old → KeepsParent (upto s (S.history shelf.new)) parent.new) }
    ensures found { IfOk
        result
        (λ found. (s : Span) → KeepsParent (upto s (S.history shelf.old)) parent.old
        → Finds after needs path.entry.text.now (T.history tree.old) (T.history tree.new) (upto s (S.history shelf.new)) found) }
    ensures met { IfErr
        result
        (λ fault. (s : Span) → KeepsParent (upto s (S.history shelf.old)) parent.old
        → MetRemoving needs path.entry.text.now (T.history tree.old) (T.history tree.new) (upto s (S.history shelf.new)) fault) }
    ensures store { IfErr
        result
        (λ fault. (s : Span) → KeepsParent (upto s (S.history shelf.old)) parent.old
        → IsTrue s.old.told
        → AsksStore (upto s (S.history shelf.new))) }
    ensures asked { ReadsWord needs path.entry.text.now (T.history tree.old) (T.history tree.new) }
    ensures needed { (shelf.new ≡ shelf.old) ⊎ NeedsRow needs path.entry.text.now (T.history tree.old) (T.history tree.new) }
    ensures never { after ≡ true → IfOk result (λ found. found ≡ a_find.Unchanged → ⊥) }
    ensures cause { HasOpCause (T.faults tree.old) (T.faults tree.new) result }
    ensures cause_shelf { HasStoreCause (S.faults shelf.old) (S.faults shelf.new) result }
{
    match tree.stat(path) {
        Err(_) => Err(OpFault::TreeFailed),
        Ok(None) => Ok(Found::Nothing),
        Ok(Some(before)) => find_there(alloc, tree, shelf, parent, path, &before, after, needs),
    }
}
