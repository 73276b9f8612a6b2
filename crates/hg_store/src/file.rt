//! Storing what stands at a path.

ghost use Rattle.std.specs.Prelude.{◌≡◌, ◌⊎◌, Some, IsTrue};
ghost use Rattle.hg_shelf.specs.Images.{course};
ghost use Rattle.hg_store.specs.Standing.{CountsShelf};
ghost use Rattle.hg_store.specs.Storing.{Proceeds};
ghost use Rattle.hg_store.specs.Taking.{CountsTree, IsFlag, StoresFile, StoresSized};
ghost use Rattle.hg_store.specs.declared.fault.StoreFault.TheVariants as a_fault;
ghost use Rattle.hg_tree.specs.History.{Passes, now};
ghost use Rattle.hg_tree.specs.Moment.{stat_at};

use crate::comparing::HALF;
use crate::fault::StoreFault;
use crate::names::{Plain, PlainName};
use crate::settling::settle;
use crate::taking::write_file;
use hg_base::{Id20, Kind, Path, PathRef, Stat};
use hg_compare::Room;
use hg_manifest::FileRow;
use hg_shelf::Shelf;
use hg_tree::Tree;
use std::alloc::Global;

// That a path is gone, where there is memory to name it.
fn gone(alloc: Global, path: PathRef<'_>) -> StoreFault
    ensures { (result ≡ a_fault.OutOfMemory) ⊎ (result ≡ a_fault.Gone path.entry.text.now) }
{
    match Path::of(alloc, path) {
        Ok(path) => StoreFault::Gone { path },
        Err(_) => StoreFault::OutOfMemory,
    }
}

// Stores so many bytes of a path, and answers their SHA-1.
fn store_sized<T: Tree, S: Shelf>(
    alloc: Global,
    tree: &mut T,
    shelf: &mut S,
    path: PathRef<'_>,
    size: u64,
    room: &mut Room,
) -> Result<Id20, StoreFault>
    ensures stores { StoresSized path.entry.text.now size (T.history tree.old) (T.history tree.new) (course (S.history shelf.old) (S.images shelf.old)) (course (S.history shelf.new) (S.images shelf.new)) result }
    ensures tree_passes { Passes (T.history tree.old) (T.history tree.new) }
    ensures tree_count { CountsTree (T.faults tree.old) (T.faults tree.new) result }
    ensures proceeds { Proceeds (course (S.history shelf.old) (S.images shelf.old)) (course (S.history shelf.new) (S.images shelf.new)) }
    ensures held { S.held shelf.new ≡ S.held shelf.old }
    ensures count { CountsShelf (S.faults shelf.old) (S.faults shelf.new) result }
{
    match write_file(tree, shelf, path, size, room.buffer()) {
        Err(fault) => Err(fault),
        Ok(None) => Err(gone(alloc, path)),
        Ok(Some(taken)) => {
            let name = PlainName::of(Plain::Contents, &taken.id);
            let (mine, theirs) = room.buffer().split_at_mut(HALF);
            match settle(shelf, name.as_str(), taken.id, taken.len, mine, theirs) {
                Err(fault) => Err(fault),
                Ok(()) => Ok(taken.id),
            }
        }
    }
}

// Stores so many bytes of a path, as a row with this flag.
fn store_row<T: Tree, S: Shelf>(
    alloc: Global,
    tree: &mut T,
    shelf: &mut S,
    path: PathRef<'_>,
    stat: &Stat,
    link: bool,
    room: &mut Room,
) -> Result<FileRow, StoreFault>
    requires flag { IsFlag link stat.now.kind }
    requires looked { IsTrue (T.history tree.old).told → stat_at (now (T.history tree.old)) path.text.now ≡ Some stat.now }
    ensures stores { StoresFile path.entry.text.now (T.history tree.old) (T.history tree.new) (course (S.history shelf.old) (S.images shelf.old)) (course (S.history shelf.new) (S.images shelf.new)) result }
    ensures tree_passes { Passes (T.history tree.old) (T.history tree.new) }
    ensures tree_count { CountsTree (T.faults tree.old) (T.faults tree.new) result }
    ensures proceeds { Proceeds (course (S.history shelf.old) (S.images shelf.old)) (course (S.history shelf.new) (S.images shelf.new)) }
    ensures held { S.held shelf.new ≡ S.held shelf.old }
    ensures count { CountsShelf (S.faults shelf.old) (S.faults shelf.new) result }
{
    match store_sized(alloc, tree, shelf, path, stat.size, room) {
        Err(fault) => Err(fault),
        Ok(id) => Ok(FileRow {
            id,
            exec: stat.exec,
            link,
        }),
    }
}

/// Stores what stands at a path as contents in the plain store, and answers the row that a manifest has of it: the SHA-1 of the bytes, and whether it is
/// an executable file or a link.
///
/// As many bytes are stored as a first look states, fewer where the path ends earlier by the time it is read. They are written as `plain/new` in pieces of
/// 65,536 bytes before their identifier is known. A plain file that stands is compared and stays as it is.
pub fn store_file<T: Tree, S: Shelf>(
    alloc: Global,
    tree: &mut T,
    shelf: &mut S,
    path: PathRef<'_>,
    room: &mut Room,
) -> Result<FileRow, StoreFault>
    ensures stores { StoresFile path.entry.text.now (T.history tree.old) (T.history tree.new) (course (S.history shelf.old) (S.images shelf.old)) (course (S.history shelf.new) (S.images shelf.new)) result }
    ensures tree_passes { Passes (T.history tree.old) (T.history tree.new) }
    ensures tree_count { CountsTree (T.faults tree.old) (T.faults tree.new) result }
    ensures proceeds { Proceeds (course (S.history shelf.old) (S.images shelf.old)) (course (S.history shelf.new) (S.images shelf.new)) }
    ensures held { S.held shelf.new ≡ S.held shelf.old }
    ensures count { CountsShelf (S.faults shelf.old) (S.faults shelf.new) result }
{
    match tree.stat(path) {
        Err(_) => Err(StoreFault::TreeFailed),
        Ok(None) => Err(gone(alloc, path)),
        Ok(Some(stat)) => match stat.kind {
            Kind::File => store_row(alloc, tree, shelf, path, &stat, false, room),
            Kind::Link => store_row(alloc, tree, shelf, path, &stat, true, room),
            Kind::Dir => Err(gone(alloc, path)),
            Kind::Other => Err(gone(alloc, path)),
        },
    }
}
