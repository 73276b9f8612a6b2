//! What stands at a path is put at another, piece by piece.

ghost use Rattle.std.specs.Prelude.{◌≡◌, ◌+◌, ◌≤◌, ◌<◌, ◌⊎◌, ◌∷◌, [], if◌then◌else◌, IfErr, IfOk, IsTrue, List, Some, false, length, min, nat_lt, true, ℕ};
ghost use Rattle.hg_compare.specs.Same.{InPieces, Reads};
ghost use Rattle.hg_ops.specs.Cause.{HasOpCause};
ghost use Rattle.hg_ops.specs.Putting.{Completes, FailsPiece, IsPutting, Puts, PutsOn, PutsWhole, ReadsEnd, ReadsPiece, ReadsWhole, is_link_kind, piece_of};
ghost use Rattle.hg_ops.specs.declared.putting.Piece.TheVariants as a_piece;
ghost use Rattle.hg_ops.specs.declared.refusal.OpFault.TheVariants as a_fault;
ghost use Rattle.hg_tree.specs.declared.asked.Asked.{Asked};
ghost use Rattle.hg_tree.specs.declared.asked.Asked.TheVariants as an_ask;
ghost use Rattle.hg_tree.specs.History.{Extends, IsOurs, Passes, now};
ghost use Rattle.hg_tree.specs.Moment.{bytes_at};
ghost use Rattle.hg_tree.specs.Own.{CanPut, IsPuttable};
ghost use Rattle.hg_tree.specs.Touched.{ChangesOnly};

use crate::copy_refusal::CopyRefusal;
use crate::refusal::{OpFault, Refusal};
use hg_base::{Got, Kind, PathRef, Stat};
use hg_tree::Tree;

/// How many bytes are copied at once.
pub(crate) const PIECE: usize = 65_536;

/// What came of a piece.
#[derive(Debug, Drop)]
pub(crate) enum Piece {
    /// It was put, with as many bytes as there was room for.
    More,
    /// The source ended in it, and what there was of it was put.
    End,
    /// The copy is cut short.
    Over(CopyRefusal),
}

// So many bytes of the source as there is room for, where a file or a link stands there; for no bytes it isn't asked.
fn read_piece<T: Tree>(
    tree: &mut T,
    from: PathRef<'_>,
    place: u64,
    room: &mut [u8],
) -> Result<Option<usize>, OpFault>
    ensures passes { Passes (T.history tree.old) (T.history tree.new) }
    ensures asked { IsTrue (T.history tree.old).told → Reads (length room.old) from.entry.text.now (T.history tree.old) (T.history tree.new) }
    ensures found { IfOk
        result
        (ReadsPiece from.entry.text.now place (length room.old) room.new (T.history tree.new)) }
    ensures end { IfOk result (ReadsEnd from.entry.text.now place (length room.old) (T.history tree.new)) }
    ensures whole { IsOurs (T.history tree.old) (T.history tree.new)
        → (bytes : List ℕ) → bytes_at (now (T.history tree.old)) from.entry.text.now ≡ Some bytes
        → place + length room.old ≤ length bytes
        → IfOk result (ReadsWhole bytes place (length room.old) room.new) }
    ensures room { length room.new ≡ length room.old }
    ensures cause { HasOpCause (T.faults tree.old) (T.faults tree.new) result }
    ensures kind { IfErr result (λ fault. fault ≡ a_fault.TreeFailed) }
{
    if room.is_empty() {
        return Ok(Some(0));
    }
    match tree.read(from, place, room) {
        Err(_) => Err(OpFault::TreeFailed),
        Ok(Got::Absent) => Ok(None),
        Ok(Got::Bytes(n)) => Ok(Some(n)),
    }
}

// Puts one piece, of as many bytes as there is room for.
fn put_piece<T: Tree>(
    tree: &mut T,
    from: PathRef<'_>,
    to: PathRef<'_>,
    stat: &Stat,
    place: u64,
    room: &mut [u8],
) -> Result<Piece, OpFault>
    requires puttable { IsPuttable stat.now.kind }
    requires within { place + length room.old ≤ stat.now.size }
    requires some { (place ≡ 0) ⊎ (0 < length room.old) }
    ensures past { Extends (T.history tree.old) (T.history tree.new) }
    ensures asked { IsTrue (T.history tree.old).told → Reads (length room.old) from.entry.text.now (T.history tree.old) (T.history tree.new) }
    ensures only { IsTrue (T.history tree.old).told → ChangesOnly (to.entry.text.now ∷ []) (T.history tree.old) (T.history tree.new) }
    ensures found { length room.old ≤ 65536
        → IfOk
        result
        (Puts from.entry.text.now to.entry.text.now stat.now place (length room.old) (T.history tree.old) (T.history tree.new)) }
    ensures failed { length room.old ≤ 65536
        → IfErr
        result
        (λ fault. IsTrue (T.history tree.old).told
        → FailsPiece from.entry.text.now to.entry.text.now stat.now place (T.history tree.old) (T.history tree.new)) }
    ensures whole { IsOurs (T.history tree.old) (T.history tree.new)
        → (bytes : List ℕ) → bytes_at (now (T.history tree.old)) from.entry.text.now ≡ Some bytes
        → place + length room.old ≤ length bytes
        → CanPut stat.now.kind stat.now.exec place (piece_of bytes place (length room.old)) to.entry.text.now (now (T.history tree.old)).things
        → IfOk
        result
        (PutsWhole to.entry.text.now stat.now place (piece_of bytes place (length room.old)) (now (T.history tree.old)) (now (T.history tree.new))) }
    ensures cause { HasOpCause (T.faults tree.old) (T.faults tree.new) result }
    ensures kind { IfErr result (λ fault. fault ≡ a_fault.TreeFailed) }
{
    match read_piece(tree, from, place, room) {
        Err(fault) => Err(fault),
        Ok(None) => Ok(Piece::Over(CopyRefusal::Source(Refusal::NotThere))),
        Ok(Some(n)) => {
            if is_end(n, place) {
                return Ok(Piece::End);
            }
            match tree.put(to, stat.kind, stat.exec, place, &room[..n]) {
                Err(_) => Err(OpFault::TreeFailed),
                Ok(false) => Ok(Piece::Over(CopyRefusal::Target(Refusal::Exists))),
                Ok(true) => Ok(piece_put(n, room.len())),
            }
        }
    }
}

// Whether a read of so many bytes says that nothing is left behind pieces that were put.
fn is_end(n: usize, place: u64) -> bool
    ensures end { result ≡ true → (n ≡ 0) × (0 < place) }
    ensures more { result ≡ false → (place ≡ 0) ⊎ (0 < n) }
{
    (n == 0) & (place > 0)
}

// What came of a piece that was put with so many bytes.
fn piece_put(n: usize, room: usize) -> Piece
    ensures { result ≡ (if nat_lt n room then a_piece.End else a_piece.More) }
{
    if n < room { Piece::End } else { Piece::More }
}

fn is_link(kind: Kind) -> bool
    ensures { result ≡ is_link_kind kind }
{
    match kind {
        Kind::Link => true,
        Kind::File | Kind::Dir | Kind::Other => false,
    }
}

// Puts what is behind the first piece of a file.
fn put_rest<T: Tree>(
    tree: &mut T,
    from: PathRef<'_>,
    to: PathRef<'_>,
    stat: &Stat,
    first: u64,
    room: &mut [u8],
) -> Result<Option<CopyRefusal>, OpFault>
    requires puttable { IsPuttable stat.now.kind }
    requires first { first ≡ min stat.now.size 65536 }
    requires room { length room.old ≡ 65536 }
    ensures past { Extends (T.history tree.old) (T.history tree.new) }
    ensures asked { IsTrue (T.history tree.old).told
        → (before : List Asked) → InPieces first (an_ask.Read from.entry.text.now) before (T.history tree.old).asked
        → InPieces stat.now.size (an_ask.Read from.entry.text.now) before (T.history tree.new).asked }
    ensures only { IsTrue (T.history tree.old).told → ChangesOnly (to.entry.text.now ∷ []) (T.history tree.old) (T.history tree.new) }
    ensures puts { PutsOn from.entry.text.now to.entry.text.now stat.now first (T.history tree.old) (T.history tree.new) result }
    ensures whole { IsOurs (T.history tree.old) (T.history tree.new)
        → Completes from.entry.text.now to.entry.text.now stat.now first (T.history tree.old) (T.history tree.new) result }
    ensures cause { HasOpCause (T.faults tree.old) (T.faults tree.new) result }
    ensures kind { IfErr result (λ fault. fault ≡ a_fault.TreeFailed) }
{
    let mut place = first;
    while place < stat.size {
        let width = (stat.size - place).min(PIECE as u64) as usize;
        match put_piece(tree, from, to, stat, place, &mut room[..width])? {
            Piece::More => place += width as u64,
            Piece::End => return Ok(None),
            Piece::Over(refusal) => return Ok(Some(refusal)),
        }
    }
    Ok(None)
}

/// Puts what stands at a path at another: a link whole, a file piece by piece, as far as a look showed.
pub(crate) fn put_bytes<T: Tree>(
    tree: &mut T,
    from: PathRef<'_>,
    to: PathRef<'_>,
    stat: &Stat,
    room: &mut [u8],
) -> Result<Option<CopyRefusal>, OpFault>
    requires puttable { IsPuttable stat.now.kind }
    requires room { length room.old ≡ 65536 }
    ensures put { IsPutting from.entry.text.now to.entry.text.now stat.now (T.history tree.old) (T.history tree.new) result }
    ensures cause { HasOpCause (T.faults tree.old) (T.faults tree.new) result }
    ensures kind { IfErr result (λ fault. fault ≡ a_fault.TreeFailed) }
{
    let width = stat.size.min(PIECE as u64) as usize;
    match put_piece(tree, from, to, stat, 0, &mut room[..width]) {
        Err(fault) => Err(fault),
        Ok(Piece::Over(refusal)) => Ok(Some(refusal)),
        Ok(Piece::End) => Ok(None),
        Ok(Piece::More) => {
            if is_link(stat.kind) {
                return Ok(None);
            }
            put_rest(tree, from, to, stat, width as u64, room)
        }
    }
}
