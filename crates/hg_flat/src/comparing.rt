//! The letter of a path whose bytes are compared with the first parent's.

ghost use Rattle.std.specs.Prelude.{◌≡◌, ◌⊎◌, List, Option, Some, None, ℕ, IsTrue, IfErr, IfOk, IfSome, OnOk, is_some};
ghost use Rattle.hg_compare.specs.Alike.{contents_name, is_alike};
ghost use Rattle.hg_compare.specs.Same.{Reads, StaysShown, parent_row};
ghost use Rattle.hg_manifest.specs.Load.{AsksByFile, asks_of};
ghost use Rattle.hg_manifest.specs.Plain.{plain_name};
ghost use Rattle.hg_shelf.specs.Asks.{AsksOnly};
ghost use Rattle.hg_shelf.specs.History as shelves;
ghost use Rattle.hg_shelf.specs.Images as images;
ghost use Rattle.hg_shelf.specs.Polite.{StaysIn};
ghost use Rattle.hg_tree.specs.History as trees;
ghost use Rattle.hg_tree.specs.Moment.{stat_at};
ghost use Rattle.hg_listing.specs.Cause.{HasShelfCause, HasStatusCause};
ghost use Rattle.hg_flat.specs.Course.{Proceeds, ComparesFound, IsComparedBy, IsFound, IsJudged, LacksIn, LoadsParent, MetBy, compared_letter, letter_of, upto};
ghost use Rattle.hg_flat.specs.Met.{Status};
ghost use Rattle.hg_flat.specs.Needed.{NeedsBytes, NeedsIn};
ghost use Rattle.hg_flat.specs.Parent.{KeepsRow, WasAsked, row_of};
ghost use Rattle.hg_flat.specs.Stored.{AsksStore, IsContents};
ghost use Rattle.hg_listing.specs.declared.fault.StatusFault.TheVariants as a_fault;

use crate::parent::{Loaded, Parent};
use hg_base::{Id20, PathRef, Stat};
use hg_compare::{Letter, Looked, Room, same};
use hg_listing::StatusFault;
use hg_manifest::{FileRow, Manifest};
use hg_shelf::Shelf;
use hg_tree::Tree;
use std::alloc::Global;

// Loads the manifest of a parent.
fn load<S: Shelf>(alloc: Global, shelf: &mut S, id: &Id20) -> Result<Loaded, StatusFault>
    ensures passes { shelves.Passes (S.history shelf.old) (S.history shelf.new) }
    ensures kept { images.Goes (images.course (S.history shelf.old) (S.images shelf.old)) (images.course (S.history shelf.new) (S.images shelf.new)) }
    ensures held { S.held shelf.new ≡ S.held shelf.old }
    ensures found { (s : Status) → shelves.Passes s.shelf_old (S.history shelf.old)
        → id.now ≡ s.id
        → LoadsParent (upto s s.tree_new (S.history shelf.new)) result }
    ensures asked { IsTrue (S.history shelf.old).told → AsksByFile (plain_name id.now.0) (asks_of id.now) (S.history shelf.old) (S.history shelf.new) result }
    ensures kind { IfErr result (λ fault. fault ≡ a_fault.TreeFailed → ⊥) }
    ensures cause { HasShelfCause (S.faults shelf.old) (S.faults shelf.new) result }
{
    match Manifest::load(alloc, shelf, id) {
        Err(fault) => Err(StatusFault::from(fault)),
        Ok(manifest) => with_room(alloc, manifest),
    }
}

fn with_room(alloc: Global, manifest: Manifest) -> Result<Loaded, StatusFault>
    ensures manifest { IfOk result (λ loaded. loaded.manifest ≡ manifest) }
    ensures kind { IfErr result (λ fault. fault ≡ a_fault.OutOfMemory) }
{
    let room = Room::new(alloc)?;
    Ok(Loaded { manifest, room })
}

/// The letter of a path that was compared: C, M, or `!` where it is gone.
pub fn letter_of(looked: Looked) -> Letter
    ensures { result ≡ letter_of looked }
{
    match looked {
        Looked::Same { .. } => Letter::C,
        Looked::Differs => Letter::M,
        Looked::Gone => Letter::Gone,
    }
}

// How a path compares with its row.
fn letter_by_row<T: Tree, S: Shelf>(
    tree: &mut T,
    shelf: &mut S,
    path: PathRef<'_>,
    row: &FileRow,
    before: &Stat,
    room: &mut Room,
) -> Result<Looked, StatusFault>
    ensures tree_passes { trees.Passes (T.history tree.old) (T.history tree.new) }
    ensures shelf_passes { shelves.Passes (S.history shelf.old) (S.history shelf.new) }
    ensures kept { images.Goes (images.course (S.history shelf.old) (S.images shelf.old)) (images.course (S.history shelf.new) (S.images shelf.new)) }
    ensures held { S.held shelf.new ≡ S.held shelf.old }
    ensures judged { (files : shelves.Files) → IsTrue (T.history tree.old).told
        → IsTrue (S.history shelf.old).told
        → StaysShown (T.history tree.old) (T.history tree.new) path.entry.text.now
        → StaysIn files (S.history shelf.new) (S.history shelf.old).last (contents_name row.now.id.0)
        → stat_at (trees.now (T.history tree.old)) path.entry.text.now ≡ Some before.now
        → IfOk
        result
        (λ looked. IsJudged files (Some row.now) (trees.now (T.history tree.old)) path.entry.text.now (letter_of looked)) }
    ensures compared { IfOk
        result
        (ComparesFound
        path.entry.text.now
        (T.history tree.old)
        (T.history tree.new)
        (S.history shelf.old)
        (S.history shelf.new)
        (Some row.now)
        before.now) }
    // The working copy isn't asked but where kind and executable bit are the row's and its contents had the size of the look.
    ensures needed { (tree.new ≡ tree.old) ⊎ NeedsIn (S.history shelf.old) (S.history shelf.new) (Some row.now) before.now }
    ensures lacks { IfErr result (LacksIn (S.history shelf.old) (S.history shelf.new) (Some row.now) before.now) }
    ensures asked { IsTrue (T.history tree.old).told → Reads before.now.size path.entry.text.now (T.history tree.old) (T.history tree.new) }
    ensures contents { IsTrue (S.history shelf.old).told
        → AsksOnly (IsContents (Some row.now)) (S.history shelf.old) (S.history shelf.new) }
    ensures cause { HasStatusCause (T.faults tree.old) (T.faults tree.new) result }
    ensures cause_shelf { HasShelfCause (S.faults shelf.old) (S.faults shelf.new) result }
{
    match same(tree, shelf, path, row, before, room) {
        Err(fault) => Err(StatusFault::from(fault)),
        Ok(looked) => Ok(looked),
    }
}

// How a path compares with what a manifest has of it; what it hasn't differs.
fn letter_in<T: Tree, S: Shelf>(
    tree: &mut T,
    shelf: &mut S,
    path: PathRef<'_>,
    before: &Stat,
    loaded: &mut Loaded,
) -> Result<Looked, StatusFault>
    ensures tree_passes { trees.Passes (T.history tree.old) (T.history tree.new) }
    ensures shelf_passes { shelves.Passes (S.history shelf.old) (S.history shelf.new) }
    ensures kept { images.Goes (images.course (S.history shelf.old) (S.images shelf.old)) (images.course (S.history shelf.new) (S.images shelf.new)) }
    ensures held { S.held shelf.new ≡ S.held shelf.old }
    ensures manifest { loaded.new.manifest ≡ loaded.old.manifest }
    ensures judged { (files : shelves.Files) → IsTrue (T.history tree.old).told
        → IsTrue (S.history shelf.old).told
        → StaysShown (T.history tree.old) (T.history tree.new) path.entry.text.now
        → IfSome
        (row_of loaded.old.manifest path.entry.text.now)
        (λ row. StaysIn files (S.history shelf.new) (S.history shelf.old).last (contents_name row.id.0))
        → stat_at (trees.now (T.history tree.old)) path.entry.text.now ≡ Some before.now
        → IfOk
        result
        (λ looked. IsJudged
        files
        (row_of loaded.old.manifest path.entry.text.now)
        (trees.now (T.history tree.old))
        path.entry.text.now
        (letter_of looked)) }
    ensures compared { IfOk
        result
        (ComparesFound
        path.entry.text.now
        (T.history tree.old)
        (T.history tree.new)
        (S.history shelf.old)
        (S.history shelf.new)
        (row_of loaded.old.manifest path.entry.text.now)
        before.now) }
    ensures needed { (tree.new ≡ tree.old)
        ⊎ NeedsIn
        (S.history shelf.old)
        (S.history shelf.new)
        (row_of loaded.old.manifest path.entry.text.now)
        before.now }
    ensures lacks { IfErr
        result
        (LacksIn
        (S.history shelf.old)
        (S.history shelf.new)
        (row_of loaded.old.manifest path.entry.text.now)
        before.now) }
    ensures asked { IsTrue (T.history tree.old).told → Reads before.now.size path.entry.text.now (T.history tree.old) (T.history tree.new) }
    ensures contents { IsTrue (S.history shelf.old).told
        → AsksOnly
        (IsContents (row_of loaded.old.manifest path.entry.text.now))
        (S.history shelf.old)
        (S.history shelf.new) }
    ensures cause { HasStatusCause (T.faults tree.old) (T.faults tree.new) result }
    ensures cause_shelf { HasShelfCause (S.faults shelf.old) (S.faults shelf.new) result }
{
    match loaded.manifest.get(path) {
        None => Ok(Looked::Differs),
        Some(row) => letter_by_row(tree, shelf, path, &row, before, &mut loaded.room),
    }
}

// The same where the manifest has to be loaded first.
fn first_letter<T: Tree, S: Shelf>(
    alloc: Global,
    tree: &mut T,
    shelf: &mut S,
    path: PathRef<'_>,
    before: &Stat,
    parent: &mut Parent,
) -> Result<Looked, StatusFault>
    requires { parent.now.loaded ≡ None }
    ensures tree_passes { trees.Passes (T.history tree.old) (T.history tree.new) }
    ensures shelf_passes { shelves.Passes (S.history shelf.old) (S.history shelf.new) }
    ensures kept { images.Goes (images.course (S.history shelf.old) (S.images shelf.old)) (images.course (S.history shelf.new) (S.images shelf.new)) }
    ensures held { S.held shelf.new ≡ S.held shelf.old }
    ensures goes { OnOk
        result
        ((s : Status) → Proceeds (upto s (T.history tree.old) (S.history shelf.old)) parent.old
        → WasAsked s.asks s.tree_old (T.history tree.new) path.entry.text.now
        → Proceeds (upto s (T.history tree.new) (S.history shelf.new)) parent.new) }
    // Where nobody touches the path, and what the parent has of it is a store's wherever it is there, it is the letter of that.
    ensures found { IfOk
        result
        (λ looked. (s : Status) (store : shelves.Files) → Proceeds (upto s (T.history tree.old) (S.history shelf.old)) parent.old
        → IsTrue (T.history tree.old).told
        → StaysShown (T.history tree.old) (T.history tree.new) path.entry.text.now
        → KeepsRow store (S.history shelf.new) s.shelf_old.last s.id path.entry.text.now
        → stat_at (trees.now (T.history tree.old)) path.entry.text.now ≡ Some before.now
        → IsFound store s.id (trees.now (T.history tree.old)) path.entry.text.now (letter_of looked)) }
    // Whatever others do to the path, where what the parent has of it is a store's: by which row it was compared, and what was seen.
    ensures same { IfOk
        result
        (λ looked. (s : Status) (store : shelves.Files) → Proceeds (upto s (T.history tree.old) (S.history shelf.old)) parent.old
        → KeepsRow store (S.history shelf.new) s.shelf_old.last s.id path.entry.text.now
        → IsComparedBy
        store
        (upto s (T.history tree.new) (S.history shelf.new))
        (T.history tree.old)
        path.entry.text.now
        before.now
        looked) }
    ensures met { IfErr
        result
        (λ fault. (s : Status) → Proceeds (upto s (T.history tree.old) (S.history shelf.old)) parent.old
        → MetBy (upto s (T.history tree.new) (S.history shelf.new)) path.entry.text.now before.now fault) }
    ensures needed { (s : Status) → Proceeds (upto s (T.history tree.old) (S.history shelf.old)) parent.old
        → (tree.new ≡ tree.old)
        ⊎ NeedsBytes (upto s (T.history tree.new) (S.history shelf.new)) path.entry.text.now before.now }
    ensures asked { IsTrue (T.history tree.old).told → Reads before.now.size path.entry.text.now (T.history tree.old) (T.history tree.new) }
    ensures store { IfErr
        result
        (λ fault. (s : Status) → Proceeds (upto s (T.history tree.old) (S.history shelf.old)) parent.old
        → WasAsked s.asks s.tree_old (T.history tree.new) path.entry.text.now
        → IsTrue s.shelf_old.told
        → AsksStore (upto s (T.history tree.new) (S.history shelf.new))) }
    ensures cause { HasStatusCause (T.faults tree.old) (T.faults tree.new) result }
    ensures cause_shelf { HasShelfCause (S.faults shelf.old) (S.faults shelf.new) result }
{
    let mut loaded = load(alloc, shelf, &parent.id)?;
    let looked = letter_in(tree, shelf, path, before, &mut loaded)?;
    parent.loaded = Some(loaded);
    Ok(looked)
}

/// How a path compares with what the first parent has of it, where a look showed `before` there: the same, which is C, or else, which is M; or it is gone
/// meanwhile. At the first path that is compared in a status the manifest of the parent is loaded.
pub fn compared_letter<T: Tree, S: Shelf>(
    alloc: Global,
    tree: &mut T,
    shelf: &mut S,
    path: PathRef<'_>,
    before: &Stat,
    parent: &mut Parent,
) -> Result<Looked, StatusFault>
    ensures tree_passes { trees.Passes (T.history tree.old) (T.history tree.new) }
    ensures shelf_passes { shelves.Passes (S.history shelf.old) (S.history shelf.new) }
    ensures kept { images.Goes (images.course (S.history shelf.old) (S.images shelf.old)) (images.course (S.history shelf.new) (S.images shelf.new)) }
    ensures held { S.held shelf.new ≡ S.held shelf.old }
    ensures goes { OnOk
        result
        ((s : Status) → Proceeds (upto s (T.history tree.old) (S.history shelf.old)) parent.old
        → WasAsked s.asks s.tree_old (T.history tree.new) path.entry.text.now
        → Proceeds (upto s (T.history tree.new) (S.history shelf.new)) parent.new) }
    // Where nobody touches the path, and what the parent has of it is a store's wherever it is there, it is the letter of that.
    ensures found { IfOk
        result
        (λ looked. (s : Status) (store : shelves.Files) → Proceeds (upto s (T.history tree.old) (S.history shelf.old)) parent.old
        → IsTrue (T.history tree.old).told
        → StaysShown (T.history tree.old) (T.history tree.new) path.entry.text.now
        → KeepsRow store (S.history shelf.new) s.shelf_old.last s.id path.entry.text.now
        → stat_at (trees.now (T.history tree.old)) path.entry.text.now ≡ Some before.now
        → IsFound store s.id (trees.now (T.history tree.old)) path.entry.text.now (letter_of looked)) }
    // Whatever others do to the path, where what the parent has of it is a store's: by which row it was compared, and what was seen.
    ensures same { IfOk
        result
        (λ looked. (s : Status) (store : shelves.Files) → Proceeds (upto s (T.history tree.old) (S.history shelf.old)) parent.old
        → KeepsRow store (S.history shelf.new) s.shelf_old.last s.id path.entry.text.now
        → IsComparedBy
        store
        (upto s (T.history tree.new) (S.history shelf.new))
        (T.history tree.old)
        path.entry.text.now
        before.now
        looked) }
    ensures met { IfErr
        result
        (λ fault. (s : Status) → Proceeds (upto s (T.history tree.old) (S.history shelf.old)) parent.old
        → MetBy (upto s (T.history tree.new) (S.history shelf.new)) path.entry.text.now before.now fault) }
    // The working copy isn't asked, nor looked at again, but where the manifest that was read has a row of the path's kind and executable bit, whose contents
    // had the size of the look.
    ensures needed { (s : Status) → Proceeds (upto s (T.history tree.old) (S.history shelf.old)) parent.old
        → (tree.new ≡ tree.old)
        ⊎ NeedsBytes (upto s (T.history tree.new) (S.history shelf.new)) path.entry.text.now before.now }
    ensures asked { IsTrue (T.history tree.old).told → Reads before.now.size path.entry.text.now (T.history tree.old) (T.history tree.new) }
    ensures store { IfErr
        result
        (λ fault. (s : Status) → Proceeds (upto s (T.history tree.old) (S.history shelf.old)) parent.old
        → WasAsked s.asks s.tree_old (T.history tree.new) path.entry.text.now
        → IsTrue s.shelf_old.told
        → AsksStore (upto s (T.history tree.new) (S.history shelf.new))) }
    ensures cause { HasStatusCause (T.faults tree.old) (T.faults tree.new) result }
    ensures cause_shelf { HasShelfCause (S.faults shelf.old) (S.faults shelf.new) result }
{
    match &mut parent.loaded {
        None => first_letter(alloc, tree, shelf, path, before, parent),
        Some(loaded) => letter_in(tree, shelf, path, before, loaded),
    }
}
