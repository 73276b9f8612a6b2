//! Comparing a path with a row of the first parent.

ghost use Rattle.std.specs.Prelude.{◌≡◌, ◌⊎◌, true, false, IsTrue, IfErr, Ok, Option, Some, length, ℕ, List};
ghost use Rattle.hg_compare.specs.Alike.{contents_name, is_alike};
ghost use Rattle.hg_compare.specs.Pieces.{AsksSize, ComparesBytes, CountsShelf, CountsTree, LooksAgain, ReadsTheirs, Sizes};
ghost use Rattle.hg_compare.specs.Same.{AsksOrFails, AsksShelf, Compares, Decides, IsNeeded, Reads, StaysShown, parent_row};
ghost use Rattle.hg_compare.specs.Seen.{HasSize};
ghost use Rattle.hg_compare.specs.Tracked.{is_unchanged};
ghost use Rattle.hg_compare.specs.declared.fault.CompareFault.TheVariants as a_fault;
ghost use Rattle.hg_compare.specs.declared.looked.Looked.TheVariants as a_look;
ghost use Rattle.hg_manifest.specs.Load.{Stays};
ghost use Rattle.hg_shelf.specs.History as shelves;
ghost use Rattle.hg_shelf.specs.Images.{Goes, course};
ghost use Rattle.hg_tree.specs.History as trees;
ghost use Rattle.hg_tree.specs.Moment.{stat_at};

use crate::alike::{is_alike, is_settled};
use crate::contents::ContentsName;
use crate::fault::CompareFault;
use crate::looked::Looked;
use crate::piece::{Piece, same_piece};
use crate::room::{PIECE, Room};
use hg_base::{Id20, PathRef, Stat};
use hg_manifest::FileRow;
use hg_shelf::Shelf;
use hg_tree::Tree;

// Whether the contents have so many bytes.
fn has_size<S: Shelf>(shelf: &mut S, name: &str, id: Id20, size: u64) -> Result<bool, CompareFault>
    ensures passes { shelves.Passes (S.history shelf.old) (S.history shelf.new) }
    ensures kept { Goes (course (S.history shelf.old) (S.images shelf.old)) (course (S.history shelf.new) (S.images shelf.new)) }
    ensures held { S.held shelf.new ≡ S.held shelf.old }
    ensures found { (path : List ℕ) (tree : trees.History) → Sizes
        (record {
          path = path;
          name = name.now;
          tree_old = tree;
          tree_new = tree;
          shelf_old = S.history shelf.old;
          shelf_new = S.history shelf.new;
        })
        id
        size
        result }
    ensures asked { IsTrue (S.history shelf.old).told → AsksSize name.now (S.history shelf.old) (S.history shelf.new) result }
    ensures kind { IfErr result (λ fault. fault ≡ a_fault.TreeFailed → ⊥) }
    ensures count { CountsShelf (S.faults shelf.old) (S.faults shelf.new) result }
{
    match shelf.size(name) {
        Err(_) => Err(CompareFault::ShelfFailed),
        Ok(None) => Err(CompareFault::NoContents { id }),
        Ok(Some(number)) => Ok(number == size),
    }
}

// Compares so many bytes, and answers what ended the comparison, or nothing where all were the same.
fn same_bytes<T: Tree, S: Shelf>(
    tree: &mut T,
    shelf: &mut S,
    path: PathRef<'_>,
    name: &str,
    id: Id20,
    size: u64,
    mine: &mut [u8],
    theirs: &mut [u8],
) -> Result<Option<Looked>, CompareFault>
    requires mine { length mine.old ≡ 65536 }
    requires theirs { length theirs.old ≡ 65536 }
    ensures tree_passes { trees.Passes (T.history tree.old) (T.history tree.new) }
    ensures shelf_passes { shelves.Passes (S.history shelf.old) (S.history shelf.new) }
    ensures kept { Goes (course (S.history shelf.old) (S.images shelf.old)) (course (S.history shelf.new) (S.images shelf.new)) }
    ensures held { S.held shelf.new ≡ S.held shelf.old }
    ensures found { ComparesBytes
        (record {
          path = path.entry.text.now;
          name = name.now;
          tree_old = T.history tree.old;
          tree_new = T.history tree.new;
          shelf_old = S.history shelf.old;
          shelf_new = S.history shelf.new;
        })
        id
        size
        result }
    ensures shelf_asked { IsTrue (S.history shelf.old).told → ReadsTheirs size name.now (S.history shelf.old) (S.history shelf.new) }
    ensures asked { IsTrue (T.history tree.old).told → Reads size path.entry.text.now (T.history tree.old) (T.history tree.new) }
    ensures tree_count { CountsTree (T.faults tree.old) (T.faults tree.new) result }
    ensures shelf_count { CountsShelf (S.faults shelf.old) (S.faults shelf.new) result }
{
    let mut place = 0;
    while place < size {
        let width = (size - place).min(PIECE as u64) as usize;
        match same_piece(
            tree,
            shelf,
            path,
            name,
            id,
            place,
            &mut mine[..width],
            &mut theirs[..width],
        )? {
            Piece::More => place += width as u64,
            Piece::End => return Ok(None),
            Piece::Over(looked) => return Ok(Some(looked)),
        }
    }
    Ok(None)
}

// Looks at the path again.
fn look_again<T: Tree>(
    tree: &mut T,
    path: PathRef<'_>,
    before: &Stat,
) -> Result<Looked, CompareFault>
    ensures passes { trees.Passes (T.history tree.old) (T.history tree.new) }
    ensures found { LooksAgain (T.history tree.new) path.entry.text.now before.now result }
    ensures asked { IsTrue (T.history tree.old).told → (T.history tree.new).asked ≡ (T.history tree.old).asked }
    ensures count { CountsTree (T.faults tree.old) (T.faults tree.new) result }
{
    match tree.stat(path) {
        Err(_) => Err(CompareFault::TreeFailed),
        Ok(None) => Ok(Looked::Gone),
        Ok(Some(after)) => Ok(Looked::Same {
            settled: is_settled(before, &after),
        }),
    }
}

// Compares what is alike at the first look with the contents of this name.
fn compare<T: Tree, S: Shelf>(
    tree: &mut T,
    shelf: &mut S,
    path: PathRef<'_>,
    name: &str,
    row: &FileRow,
    before: &Stat,
    mine: &mut [u8],
    theirs: &mut [u8],
) -> Result<Looked, CompareFault>
    requires alike { is_alike row.now before.now ≡ true }
    requires mine { length mine.old ≡ 65536 }
    requires theirs { length theirs.old ≡ 65536 }
    ensures tree_passes { trees.Passes (T.history tree.old) (T.history tree.new) }
    ensures shelf_passes { shelves.Passes (S.history shelf.old) (S.history shelf.new) }
    ensures kept { Goes (course (S.history shelf.old) (S.images shelf.old)) (course (S.history shelf.new) (S.images shelf.new)) }
    ensures held { S.held shelf.new ≡ S.held shelf.old }
    ensures compared { Compares
        (record {
          path = path.entry.text.now;
          name = name.now;
          tree_old = T.history tree.old;
          tree_new = T.history tree.new;
          shelf_old = S.history shelf.old;
          shelf_new = S.history shelf.new;
        })
        row.now
        before.now
        result }
    ensures needed { (tree.new ≡ tree.old)
        ⊎ HasSize
        (record {
          path = path.entry.text.now;
          name = name.now;
          tree_old = T.history tree.old;
          tree_new = T.history tree.new;
          shelf_old = S.history shelf.old;
          shelf_new = S.history shelf.new;
        })
        before.now.size }
    ensures asked { IsTrue (T.history tree.old).told → Reads before.now.size path.entry.text.now (T.history tree.old) (T.history tree.new) }
    ensures shelf_asked { IsTrue (S.history shelf.old).told
        → AsksOrFails
        (record {
          path = path.entry.text.now;
          name = name.now;
          tree_old = T.history tree.old;
          tree_new = T.history tree.new;
          shelf_old = S.history shelf.old;
          shelf_new = S.history shelf.new;
        })
        before.now.size
        result }
    ensures tree_count { CountsTree (T.faults tree.old) (T.faults tree.new) result }
    ensures shelf_count { CountsShelf (S.faults shelf.old) (S.faults shelf.new) result }
{
    match has_size(shelf, name, row.id, before.size) {
        Err(fault) => Err(fault),
        Ok(false) => Ok(Looked::Differs),
        Ok(true) => match same_bytes(tree, shelf, path, name, row.id, before.size, mine, theirs) {
            Err(fault) => Err(fault),
            Ok(Some(looked)) => Ok(looked),
            Ok(None) => look_again(tree, path, before),
        },
    }
}

/// Compares what stands at a path with a row of the first parent. It takes no memory.
///
/// Kind and executable bit come first, and where they differ nothing is asked. Then the size of the row's contents is asked; where it isn't that of
/// the first look the working copy isn't asked. Then both are read in pieces of 65,536 bytes, and at last the path is looked at again. A file that ends
/// early in both is the same as far as it was read.
pub fn same<T: Tree, S: Shelf>(
    tree: &mut T,
    shelf: &mut S,
    path: PathRef<'_>,
    row: &FileRow,
    before: &Stat,
    room: &mut Room,
) -> Result<Looked, CompareFault>
    ensures tree_passes { trees.Passes (T.history tree.old) (T.history tree.new) }
    ensures shelf_passes { shelves.Passes (S.history shelf.old) (S.history shelf.new) }
    ensures kept { Goes (course (S.history shelf.old) (S.images shelf.old)) (course (S.history shelf.new) (S.images shelf.new)) }
    ensures held { S.held shelf.new ≡ S.held shelf.old }
    // What was seen, each at a moment of the call.
    ensures compared { Compares
        (record {
          path = path.entry.text.now;
          name = contents_name row.now.id.0;
          tree_old = T.history tree.old;
          tree_new = T.history tree.new;
          shelf_old = S.history shelf.old;
          shelf_new = S.history shelf.new;
        })
        row.now
        before.now
        result }
    ensures unlike { is_alike row.now before.now ≡ false → (result ≡ Ok a_look.Differs) × (tree.new ≡ tree.old) × (shelf.new ≡ shelf.old) }
    // The working copy isn't asked, nor looked at again, but where kind and executable bit are the row's and the contents had the size of the first look.
    ensures needed { (tree.new ≡ tree.old)
        ⊎ IsNeeded
        (record {
          path = path.entry.text.now;
          name = contents_name row.now.id.0;
          tree_old = T.history tree.old;
          tree_new = T.history tree.new;
          shelf_old = S.history shelf.old;
          shelf_new = S.history shelf.new;
        })
        row.now
        before.now }
    ensures asked { IsTrue (T.history tree.old).told → Reads before.now.size path.entry.text.now (T.history tree.old) (T.history tree.new) }
    ensures shelf_asked { IsTrue (S.history shelf.old).told
        → AsksShelf
        (record {
          path = path.entry.text.now;
          name = contents_name row.now.id.0;
          tree_old = T.history tree.old;
          tree_new = T.history tree.new;
          shelf_old = S.history shelf.old;
          shelf_new = S.history shelf.new;
        })
        row.now
        before.now
        result }
    // Where nothing changes meanwhile, whether the thing equals the row.
    ensures decided { (file : Option (List ℕ)) → IsTrue (T.history tree.old).told
        → IsTrue (S.history shelf.old).told
        → StaysShown (T.history tree.old) (T.history tree.new) path.entry.text.now
        → Stays (S.history shelf.old) (S.history shelf.new) (contents_name row.now.id.0) file
        → stat_at (trees.now (T.history tree.old)) path.entry.text.now ≡ Some before.now
        → Decides
        (is_unchanged (Some (parent_row row.now file)) ((trees.now (T.history tree.old)).things path.entry.text.now))
        file
        result }
    ensures tree_count { CountsTree (T.faults tree.old) (T.faults tree.new) result }
    ensures shelf_count { CountsShelf (S.faults shelf.old) (S.faults shelf.new) result }
{
    if !is_alike(row, before) {
        return Ok(Looked::Differs);
    }
    let name = ContentsName::of(row.id);
    compare(
        tree,
        shelf,
        path,
        name.as_str(),
        row,
        before,
        room.mine.as_mut_slice(),
        room.theirs.as_mut_slice(),
    )
}
