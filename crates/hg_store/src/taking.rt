//! Taking a path piece by piece, and writing each piece as it is taken.

ghost use Rattle.std.specs.Prelude.{◌≡◌, ◌++◌, ◌≤◌, [], ℕ, List, IsTrue, length, take, OnOk, IfErr};
ghost use Rattle.hg_base.specs.Fault.{HasCause};
ghost use Rattle.hg_shelf.specs.Images.{course};
ghost use Rattle.hg_store.specs.Standing.{CountsShelf};
ghost use Rattle.hg_store.specs.Storing.{ButNew, IsAlone, IsLaid, Leads, Proceeds};
ghost use Rattle.hg_store.specs.Taking.{CopiesAll, CountsTree, IsDevice, OnTaken, TakesPiece, WritesAll};
ghost use Rattle.hg_tree.specs.History.{Passes};
ghost use Rattle.sha1.specs.Sha1.{Holds};

use crate::fault::StoreFault;
use crate::writing::{PIECE, clear, finish, write};
use hg_base::{Failed, Got, Id20, PathRef};
use hg_shelf::Shelf;
use hg_tree::Tree;
use sha1::Sha1;

/// A text that was taken and is the new file by now: its SHA-1, and how many bytes it has.
#[derive(Clone, Copy, Debug)]
pub(crate) struct Taken {
    pub id: Id20,
    pub len: u64,
}

// So many bytes of the path as there is room for, where a file or a link stands there.
fn take_piece<T: Tree>(
    tree: &mut T,
    path: PathRef<'_>,
    place: u64,
    room: &mut [u8],
) -> Result<Option<usize>, StoreFault>
    ensures tree_passes { Passes (T.history tree.old) (T.history tree.new) }
    ensures kind { IfErr result IsDevice }
    ensures tree_count { CountsTree (T.faults tree.old) (T.faults tree.new) result }
    ensures found { TakesPiece (T.history tree.new) path.entry.text.now place (length room.old) room.new result }
    ensures shelf_still { (faults : ℕ) → CountsShelf faults faults result }
{
    match tree.read(path, place, room) {
        Err(_) => Err(StoreFault::TreeFailed),
        Ok(Got::Absent) => Ok(None),
        Ok(Got::Bytes(n)) => Ok(Some(n)),
    }
}

// Writes a piece, where it has bytes, and hashes it.
fn put_piece<S: Shelf>(
    shelf: &mut S,
    place: u64,
    piece: &[u8],
    hasher: &mut Sha1,
) -> Result<(), Failed>
    ensures leads { IsAlone (course (S.history shelf.old) (S.images shelf.old)) (course (S.history shelf.new) (S.images shelf.new)) → Leads ButNew (course (S.history shelf.old) (S.images shelf.old)) (course (S.history shelf.new) (S.images shelf.new)) }
    ensures laid { (text : List ℕ) → IsAlone (course (S.history shelf.old) (S.images shelf.old)) (course (S.history shelf.new) (S.images shelf.new)) → IsLaid text (course (S.history shelf.old) (S.images shelf.old)) → length text ≡ place → OnOk result (IsLaid (text ++ piece.now) (course (S.history shelf.new) (S.images shelf.new))) }
    ensures hashed { (text : List ℕ) → Holds hasher.old text → OnOk result (Holds hasher.new (text ++ piece.now)) }
    ensures proceeds { Proceeds (course (S.history shelf.old) (S.images shelf.old)) (course (S.history shelf.new) (S.images shelf.new)) }
    ensures held { S.held shelf.new ≡ S.held shelf.old }
    ensures cause { HasCause (S.faults shelf.old) (S.faults shelf.new) result (λ e. Unit {0}) }
{
    if piece.is_empty() {
        return Ok(());
    }
    write(shelf, place, piece)?;
    hasher.update(piece);
    Ok(())
}

// Takes a piece, and writes it.
fn copy_piece<T: Tree, S: Shelf>(
    tree: &mut T,
    shelf: &mut S,
    path: PathRef<'_>,
    place: u64,
    room: &mut [u8],
    hasher: &mut Sha1,
) -> Result<Option<usize>, StoreFault>
    ensures tree_passes { Passes (T.history tree.old) (T.history tree.new) }
    ensures kind { IfErr result IsDevice }
    ensures tree_count { CountsTree (T.faults tree.old) (T.faults tree.new) result }
    ensures found { TakesPiece (T.history tree.new) path.entry.text.now place (length room.old) room.new result }
    ensures leads { IsAlone (course (S.history shelf.old) (S.images shelf.old)) (course (S.history shelf.new) (S.images shelf.new)) → Leads ButNew (course (S.history shelf.old) (S.images shelf.old)) (course (S.history shelf.new) (S.images shelf.new)) }
    ensures laid { (text : List ℕ) → IsAlone (course (S.history shelf.old) (S.images shelf.old)) (course (S.history shelf.new) (S.images shelf.new)) → IsLaid text (course (S.history shelf.old) (S.images shelf.old)) → length text ≡ place → OnTaken (λ n. IsLaid (text ++ take n room.new) (course (S.history shelf.new) (S.images shelf.new))) result }
    ensures hashed { (text : List ℕ) → Holds hasher.old text → OnTaken (λ n. Holds hasher.new (text ++ take n room.new)) result }
    ensures proceeds { Proceeds (course (S.history shelf.old) (S.images shelf.old)) (course (S.history shelf.new) (S.images shelf.new)) }
    ensures held { S.held shelf.new ≡ S.held shelf.old }
    ensures count { CountsShelf (S.faults shelf.old) (S.faults shelf.new) result }
{
    match take_piece(tree, path, place, room) {
        Err(fault) => Err(fault),
        Ok(None) => Ok(None),
        Ok(Some(n)) => match put_piece(shelf, place, &room[..n], hasher) {
            Err(_) => Err(StoreFault::ShelfFailed),
            Ok(()) => Ok(Some(n)),
        },
    }
}

// Takes so many bytes of the path, fewer where it ends earlier, and writes them piece by piece; nothing is answered where neither a file nor a link is there.
fn copy<T: Tree, S: Shelf>(
    tree: &mut T,
    shelf: &mut S,
    path: PathRef<'_>,
    size: u64,
    room: &mut [u8],
    hasher: &mut Sha1,
) -> Result<Option<u64>, StoreFault>
    requires { length room.old ≡ 65536 }
    ensures tree_passes { Passes (T.history tree.old) (T.history tree.new) }
    ensures kind { IfErr result IsDevice }
    ensures tree_count { CountsTree (T.faults tree.old) (T.faults tree.new) result }
    ensures copied { CopiesAll path.entry.text.now size (T.history tree.old) (T.history tree.new) (course (S.history shelf.old) (S.images shelf.old)) (course (S.history shelf.new) (S.images shelf.new)) hasher.old hasher.new result }
    ensures leads { IsAlone (course (S.history shelf.old) (S.images shelf.old)) (course (S.history shelf.new) (S.images shelf.new)) → Leads ButNew (course (S.history shelf.old) (S.images shelf.old)) (course (S.history shelf.new) (S.images shelf.new)) }
    ensures proceeds { Proceeds (course (S.history shelf.old) (S.images shelf.old)) (course (S.history shelf.new) (S.images shelf.new)) }
    ensures held { S.held shelf.new ≡ S.held shelf.old }
    ensures count { CountsShelf (S.faults shelf.old) (S.faults shelf.new) result }
{
    let mut place = 0;
    while place < size {
        let width = (size - place).min(PIECE as u64) as usize;
        match copy_piece(tree, shelf, path, place, &mut room[..width], hasher) {
            Err(fault) => return Err(fault),
            Ok(None) => return Ok(None),
            Ok(Some(n)) => {
                place += n as u64;
                if n < width {
                    return Ok(Some(place));
                }
            }
        }
    }
    Ok(Some(place))
}

/// Takes so many bytes of the path, fewer where it ends earlier, as the new file, and makes that sure; nothing is answered where neither a file nor a link
/// is there.
pub(crate) fn write_file<T: Tree, S: Shelf>(
    tree: &mut T,
    shelf: &mut S,
    path: PathRef<'_>,
    size: u64,
    room: &mut [u8],
) -> Result<Option<Taken>, StoreFault>
    requires { length room.old ≡ 65536 }
    ensures tree_passes { Passes (T.history tree.old) (T.history tree.new) }
    ensures kind { IfErr result IsDevice }
    ensures tree_count { CountsTree (T.faults tree.old) (T.faults tree.new) result }
    ensures written { WritesAll path.entry.text.now size (T.history tree.old) (T.history tree.new) (course (S.history shelf.old) (S.images shelf.old)) (course (S.history shelf.new) (S.images shelf.new)) result }
    ensures leads { IsAlone (course (S.history shelf.old) (S.images shelf.old)) (course (S.history shelf.new) (S.images shelf.new)) → Leads ButNew (course (S.history shelf.old) (S.images shelf.old)) (course (S.history shelf.new) (S.images shelf.new)) }
    ensures proceeds { Proceeds (course (S.history shelf.old) (S.images shelf.old)) (course (S.history shelf.new) (S.images shelf.new)) }
    ensures held { S.held shelf.new ≡ S.held shelf.old }
    ensures count { CountsShelf (S.faults shelf.old) (S.faults shelf.new) result }
{
    clear(shelf)?;
    let mut hasher = Sha1::new();
    match copy(tree, shelf, path, size, room, &mut hasher) {
        Err(fault) => Err(fault),
        Ok(None) => Ok(None),
        Ok(Some(len)) => match finish(shelf, len) {
            Err(_) => Err(StoreFault::ShelfFailed),
            Ok(()) => Ok(Some(Taken {
                id: Id20(hasher.finalize()),
                len,
            })),
        },
    }
}
