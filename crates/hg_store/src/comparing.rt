//! Comparing the new file with the plain file that stands under its name.

ghost use Rattle.std.specs.Prelude.{◌≡◌, ◌≤◌, ℕ, List, Some, length, take, drop, IfOk, MatchBool};
ghost use Rattle.hg_base.specs.Fault.{HasCause};
ghost use Rattle.hg_shelf.specs.History.{Passes, now};
ghost use Rattle.hg_shelf.specs.Images.{Goes, course};
ghost use Rattle.hg_store.specs.Standing.{IsStill, standing_of};
ghost use Rattle.hg_store.specs.Storing.{new_name};

use crate::standing::Standing;
use crate::writing::NEW;
use hg_base::{Failed, Got};
use hg_shelf::Shelf;

/// How many bytes of each of two files are compared at once.
pub(crate) const HALF: usize = 32_768;

// As many bytes of a file as there is room for; none where it is absent.
fn read_piece<S: Shelf>(
    shelf: &mut S,
    name: &str,
    place: u64,
    room: &mut [u8],
) -> Result<usize, Failed>
    ensures passes { Passes (S.history shelf.old) (S.history shelf.new) }
    ensures kept { Goes (course (S.history shelf.old) (S.images shelf.old)) (course (S.history shelf.new) (S.images shelf.new)) }
    ensures held { S.held shelf.new ≡ S.held shelf.old }
    ensures fit { IfOk result (λ n. n ≤ length room.new) }
    ensures found { (bytes : List ℕ) → IsStill (S.history shelf.old) (S.history shelf.new) → (now (S.history shelf.old)).files name.now ≡ Some bytes
        → IfOk result (λ n. take n room.new ≡ take (length room.old) (drop place bytes)) }
    ensures cause { HasCause (S.faults shelf.old) (S.faults shelf.new) result (λ e. Unit {0}) }
{
    match shelf.read_at(name, place, room)? {
        Got::Absent => Ok(0),
        Got::Bytes(n) => Ok(n),
    }
}

// Whether both files have the same bytes there.
fn same_piece<S: Shelf>(
    shelf: &mut S,
    name: &str,
    place: u64,
    mine: &mut [u8],
    theirs: &mut [u8],
) -> Result<bool, Failed>
    requires { length mine.old ≡ length theirs.old }
    ensures passes { Passes (S.history shelf.old) (S.history shelf.new) }
    ensures kept { Goes (course (S.history shelf.old) (S.images shelf.old)) (course (S.history shelf.new) (S.images shelf.new)) }
    ensures held { S.held shelf.new ≡ S.held shelf.old }
    ensures found { (text bytes : List ℕ) → IsStill (S.history shelf.old) (S.history shelf.new) → (now (S.history shelf.old)).files new_name ≡ Some text → (now (S.history shelf.old)).files name.now ≡ Some bytes
        → IfOk
        result
        (λ same. MatchBool same (take (length mine.old) (drop place text) ≡ take (length mine.old) (drop place bytes)) (take (length mine.old) (drop place text) ≡ take (length mine.old) (drop place bytes) → ⊥)) }
    ensures cause { HasCause (S.faults shelf.old) (S.faults shelf.new) result (λ e. Unit {0}) }
{
    let mine_read = read_piece(shelf, NEW, place, mine)?;
    let theirs_read = read_piece(shelf, name, place, theirs)?;
    Ok(mine[..mine_read] == theirs[..theirs_read])
}

// Whether both files, of so many bytes each, are the same.
fn same_bytes<S: Shelf>(
    shelf: &mut S,
    name: &str,
    size: u64,
    mine: &mut [u8],
    theirs: &mut [u8],
) -> Result<bool, Failed>
    requires mine { length mine.old ≡ 32768 }
    requires theirs { length theirs.old ≡ 32768 }
    ensures passes { Passes (S.history shelf.old) (S.history shelf.new) }
    ensures kept { Goes (course (S.history shelf.old) (S.images shelf.old)) (course (S.history shelf.new) (S.images shelf.new)) }
    ensures held { S.held shelf.new ≡ S.held shelf.old }
    ensures found { (text bytes : List ℕ) → IsStill (S.history shelf.old) (S.history shelf.new) → (now (S.history shelf.old)).files new_name ≡ Some text → (now (S.history shelf.old)).files name.now ≡ Some bytes
        → length text ≡ size
        → length bytes ≡ size
        → IfOk result (λ same. MatchBool same (text ≡ bytes) (text ≡ bytes → ⊥)) }
    ensures cause { HasCause (S.faults shelf.old) (S.faults shelf.new) result (λ e. Unit {0}) }
{
    let mut place = 0;
    while place < size {
        let width = (size - place).min(HALF as u64) as usize;
        if !same_piece(shelf, name, place, &mut mine[..width], &mut theirs[..width])? {
            return Ok(false);
        }
        place += width as u64;
    }
    Ok(true)
}

/// What stands under a name, beside the new file of so many bytes.
pub(crate) fn standing<S: Shelf>(
    shelf: &mut S,
    name: &str,
    len: u64,
    mine: &mut [u8],
    theirs: &mut [u8],
) -> Result<Standing, Failed>
    requires mine { length mine.old ≡ 32768 }
    requires theirs { length theirs.old ≡ 32768 }
    ensures passes { Passes (S.history shelf.old) (S.history shelf.new) }
    ensures kept { Goes (course (S.history shelf.old) (S.images shelf.old)) (course (S.history shelf.new) (S.images shelf.new)) }
    ensures held { S.held shelf.new ≡ S.held shelf.old }
    ensures found { (text : List ℕ) → IsStill (S.history shelf.old) (S.history shelf.new) → (now (S.history shelf.old)).files new_name ≡ Some text → length text ≡ len
        → IfOk result (λ standing. standing ≡ standing_of ((now (S.history shelf.old)).files name.now) text) }
    ensures cause { HasCause (S.faults shelf.old) (S.faults shelf.new) result (λ e. Unit {0}) }
{
    match shelf.size(name)? {
        None => Ok(Standing::Absent),
        Some(size) => {
            if size != len {
                return Ok(Standing::Other);
            }
            if same_bytes(shelf, name, size, mine, theirs)? {
                Ok(Standing::Same)
            } else {
                Ok(Standing::Other)
            }
        }
    }
}
