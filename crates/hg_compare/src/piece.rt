//! One piece of the bytes that are compared.

ghost use Rattle.std.specs.Prelude.{◌≡◌, ◌∷◌, [], IsTrue, length};
ghost use Rattle.hg_compare.specs.Pieces.{ComparesPiece, CountsShelf, CountsTree, ReadsOnce, TakesMine, TakesTheirs};
ghost use Rattle.hg_shelf.specs.Asks.{AsksInOrder};
ghost use Rattle.hg_shelf.specs.History as shelves;
ghost use Rattle.hg_shelf.specs.Images.{Goes, course};
ghost use Rattle.hg_shelf.specs.declared.asked.Asked.TheVariants as a_shelf_ask;
ghost use Rattle.hg_tree.specs.History as trees;

use crate::fault::CompareFault;
use crate::looked::Looked;
use hg_base::{Got, Id20, PathRef};
use hg_shelf::Shelf;
use hg_tree::Tree;

/// What a piece tells.
#[derive(Clone, Copy)]
pub(crate) enum Piece {
    /// It is the same, and more may follow.
    More,
    /// It is the same, and both end in it.
    End,
    /// The comparison is over.
    Over(Looked),
}

// So many bytes of the contents as there is room for.
fn read_theirs<S: Shelf>(
    shelf: &mut S,
    name: &str,
    id: Id20,
    place: u64,
    room: &mut [u8],
) -> Result<usize, CompareFault>
    ensures passes { shelves.Passes (S.history shelf.old) (S.history shelf.new) }
    ensures kept { Goes (course (S.history shelf.old) (S.images shelf.old)) (course (S.history shelf.new) (S.images shelf.new)) }
    ensures held { S.held shelf.new ≡ S.held shelf.old }
    ensures asked { IsTrue (S.history shelf.old).told → AsksInOrder
        (a_shelf_ask.Read name.now place (length room.old) ∷ [])
        (S.history shelf.old)
        (S.history shelf.new)
        result }
    ensures found { TakesTheirs (S.history shelf.new) name.now id place (length room.old) room.new result }
    ensures count { CountsShelf (S.faults shelf.old) (S.faults shelf.new) result }
{
    match shelf.read_at(name, place, room) {
        Err(_) => Err(CompareFault::ShelfFailed),
        Ok(Got::Absent) => Err(CompareFault::NoContents { id }),
        Ok(Got::Bytes(n)) => Ok(n),
    }
}

// So many bytes of the path as there is room for, where a file or a link stands there.
fn read_mine<T: Tree>(
    tree: &mut T,
    path: PathRef<'_>,
    place: u64,
    room: &mut [u8],
) -> Result<Option<usize>, CompareFault>
    ensures passes { trees.Passes (T.history tree.old) (T.history tree.new) }
    ensures found { TakesMine (T.history tree.new) path.entry.text.now place (length room.old) room.new result }
    ensures asked { IsTrue (T.history tree.old).told → ReadsOnce path.entry.text.now (T.history tree.old) (T.history tree.new) }
    ensures count { CountsTree (T.faults tree.old) (T.faults tree.new) result }
{
    match tree.read(path, place, room) {
        Err(_) => Err(CompareFault::TreeFailed),
        Ok(Got::Absent) => Ok(None),
        Ok(Got::Bytes(n)) => Ok(Some(n)),
    }
}

/// Compares a piece of the contents, and then of the path, with as many bytes as there is room for.
pub(crate) fn same_piece<T: Tree, S: Shelf>(
    tree: &mut T,
    shelf: &mut S,
    path: PathRef<'_>,
    name: &str,
    id: Id20,
    place: u64,
    mine: &mut [u8],
    theirs: &mut [u8],
) -> Result<Piece, CompareFault>
    requires { length mine.old ≡ length theirs.old }
    ensures tree_passes { trees.Passes (T.history tree.old) (T.history tree.new) }
    ensures shelf_passes { shelves.Passes (S.history shelf.old) (S.history shelf.new) }
    ensures kept { Goes (course (S.history shelf.old) (S.images shelf.old)) (course (S.history shelf.new) (S.images shelf.new)) }
    ensures held { S.held shelf.new ≡ S.held shelf.old }
    ensures found { ComparesPiece
        (record {
          path = path.entry.text.now;
          name = name.now;
          tree_old = T.history tree.old;
          tree_new = T.history tree.new;
          shelf_old = S.history shelf.old;
          shelf_new = S.history shelf.new;
        })
        id
        place
        (length mine.old)
        result }
    ensures shelf_asked { IsTrue (S.history shelf.old).told → AsksInOrder
        (a_shelf_ask.Read name.now place (length theirs.old) ∷ [])
        (S.history shelf.old)
        (S.history shelf.new)
        result }
    ensures asked { IsTrue (T.history tree.old).told → ReadsOnce path.entry.text.now (T.history tree.old) (T.history tree.new) }
    ensures tree_count { CountsTree (T.faults tree.old) (T.faults tree.new) result }
    ensures shelf_count { CountsShelf (S.faults shelf.old) (S.faults shelf.new) result }
{
    let theirs_read = read_theirs(shelf, name, id, place, theirs)?;
    let Some(mine_read) = read_mine(tree, path, place, mine)? else {
        return Ok(Piece::Over(Looked::Gone));
    };
    if mine[..mine_read] != theirs[..theirs_read] {
        return Ok(Piece::Over(Looked::Differs));
    }
    if mine_read < mine.len() {
        Ok(Piece::End)
    } else {
        Ok(Piece::More)
    }
}
