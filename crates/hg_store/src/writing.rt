//! Writing a text under a name of its own, before its identifier is known.

ghost use Rattle.std.specs.Prelude.{◌≡◌, ◌++◌, [], ℕ, List, Some, None, length, OnOk};
ghost use Rattle.hg_base.specs.Fault.{HasCause};
ghost use Rattle.hg_shelf.specs.Images.{course, last_scene};
ghost use Rattle.hg_store.specs.Storing.{ButNew, IsAlone, IsCleared, IsLaid, IsSure, Leads, Proceeds, new_name};

use hg_base::Failed;
use hg_shelf::Shelf;

/// The file that a text is written to.
pub(crate) const NEW: &str = "plain/new";

/// How many bytes are written, read or compared at once.
pub(crate) const PIECE: usize = 65_536;

/// Takes the new file away, where one was left.
pub(crate) fn clear<S: Shelf>(shelf: &mut S) -> Result<(), Failed>
    ensures leads { IsAlone (course (S.history shelf.old) (S.images shelf.old)) (course (S.history shelf.new) (S.images shelf.new)) → Leads ButNew (course (S.history shelf.old) (S.images shelf.old)) (course (S.history shelf.new) (S.images shelf.new)) }
    ensures cleared { IsAlone (course (S.history shelf.old) (S.images shelf.old)) (course (S.history shelf.new) (S.images shelf.new)) → OnOk result (IsCleared (course (S.history shelf.new) (S.images shelf.new))) }
    ensures proceeds { Proceeds (course (S.history shelf.old) (S.images shelf.old)) (course (S.history shelf.new) (S.images shelf.new)) }
    ensures held { S.held shelf.new ≡ S.held shelf.old }
    ensures cause { HasCause (S.faults shelf.old) (S.faults shelf.new) result (λ e. Unit {0}) }
{
    shelf.remove(NEW)
}

/// Writes a piece behind what the new file has by now.
pub(crate) fn write<S: Shelf>(shelf: &mut S, place: u64, piece: &[u8]) -> Result<(), Failed>
    ensures leads { IsAlone (course (S.history shelf.old) (S.images shelf.old)) (course (S.history shelf.new) (S.images shelf.new)) → Leads ButNew (course (S.history shelf.old) (S.images shelf.old)) (course (S.history shelf.new) (S.images shelf.new)) }
    ensures laid { (text : List ℕ) → IsAlone (course (S.history shelf.old) (S.images shelf.old)) (course (S.history shelf.new) (S.images shelf.new)) → IsLaid text (course (S.history shelf.old) (S.images shelf.old)) → length text ≡ place → OnOk result (IsLaid (text ++ piece.now) (course (S.history shelf.new) (S.images shelf.new))) }
    ensures there { (text : List ℕ) → IsAlone (course (S.history shelf.old) (S.images shelf.old)) (course (S.history shelf.new) (S.images shelf.new)) → IsLaid text (course (S.history shelf.old) (S.images shelf.old)) → length text ≡ place → OnOk result ((last_scene (course (S.history shelf.new) (S.images shelf.new))).files new_name ≡ Some (text ++ piece.now)) }
    ensures proceeds { Proceeds (course (S.history shelf.old) (S.images shelf.old)) (course (S.history shelf.new) (S.images shelf.new)) }
    ensures held { S.held shelf.new ≡ S.held shelf.old }
    ensures cause { HasCause (S.faults shelf.old) (S.faults shelf.new) result (λ e. Unit {0}) }
{
    shelf.write_at(NEW, place, piece)
}

// Makes an empty new file, where no byte was written.
fn fill<S: Shelf>(shelf: &mut S, len: u64) -> Result<(), Failed>
    ensures leads { IsAlone (course (S.history shelf.old) (S.images shelf.old)) (course (S.history shelf.new) (S.images shelf.new)) → Leads ButNew (course (S.history shelf.old) (S.images shelf.old)) (course (S.history shelf.new) (S.images shelf.new)) }
    ensures there { (text : List ℕ) → IsAlone (course (S.history shelf.old) (S.images shelf.old)) (course (S.history shelf.new) (S.images shelf.new)) → IsLaid text (course (S.history shelf.old) (S.images shelf.old)) → length text ≡ len → OnOk result ((last_scene (course (S.history shelf.new) (S.images shelf.new))).files new_name ≡ Some text) }
    ensures proceeds { Proceeds (course (S.history shelf.old) (S.images shelf.old)) (course (S.history shelf.new) (S.images shelf.new)) }
    ensures held { S.held shelf.new ≡ S.held shelf.old }
    ensures cause { HasCause (S.faults shelf.old) (S.faults shelf.new) result (λ e. Unit {0}) }
{
    if len != 0 {
        return Ok(());
    }
    write(shelf, 0, &[])
}

// Makes the new file sure.
fn seal<S: Shelf>(shelf: &mut S) -> Result<(), Failed>
    ensures leads { IsAlone (course (S.history shelf.old) (S.images shelf.old)) (course (S.history shelf.new) (S.images shelf.new)) → Leads ButNew (course (S.history shelf.old) (S.images shelf.old)) (course (S.history shelf.new) (S.images shelf.new)) }
    ensures sure { (text : List ℕ) → IsAlone (course (S.history shelf.old) (S.images shelf.old)) (course (S.history shelf.new) (S.images shelf.new)) → (last_scene (course (S.history shelf.old) (S.images shelf.old))).files new_name ≡ Some text → OnOk result (IsSure new_name text (course (S.history shelf.new) (S.images shelf.new))) }
    ensures proceeds { Proceeds (course (S.history shelf.old) (S.images shelf.old)) (course (S.history shelf.new) (S.images shelf.new)) }
    ensures held { S.held shelf.new ≡ S.held shelf.old }
    ensures cause { HasCause (S.faults shelf.old) (S.faults shelf.new) result (λ e. Unit {0}) }
{
    shelf.sync(NEW)
}

/// Makes sure what was written of a text of so many bytes.
pub(crate) fn finish<S: Shelf>(shelf: &mut S, len: u64) -> Result<(), Failed>
    ensures leads { IsAlone (course (S.history shelf.old) (S.images shelf.old)) (course (S.history shelf.new) (S.images shelf.new)) → Leads ButNew (course (S.history shelf.old) (S.images shelf.old)) (course (S.history shelf.new) (S.images shelf.new)) }
    ensures sure { (text : List ℕ) → IsAlone (course (S.history shelf.old) (S.images shelf.old)) (course (S.history shelf.new) (S.images shelf.new)) → IsLaid text (course (S.history shelf.old) (S.images shelf.old)) → length text ≡ len → OnOk result (IsSure new_name text (course (S.history shelf.new) (S.images shelf.new))) }
    ensures proceeds { Proceeds (course (S.history shelf.old) (S.images shelf.old)) (course (S.history shelf.new) (S.images shelf.new)) }
    ensures held { S.held shelf.new ≡ S.held shelf.old }
    ensures cause { HasCause (S.faults shelf.old) (S.faults shelf.new) result (λ e. Unit {0}) }
{
    fill(shelf, len)?;
    seal(shelf)
}

// Writes a text into the new file, piece by piece.
fn write_pieces<S: Shelf>(shelf: &mut S, text: &[u8]) -> Result<(), Failed>
    ensures leads { IsAlone (course (S.history shelf.old) (S.images shelf.old)) (course (S.history shelf.new) (S.images shelf.new)) → Leads ButNew (course (S.history shelf.old) (S.images shelf.old)) (course (S.history shelf.new) (S.images shelf.new)) }
    ensures laid { IsAlone (course (S.history shelf.old) (S.images shelf.old)) (course (S.history shelf.new) (S.images shelf.new)) → IsLaid [] (course (S.history shelf.old) (S.images shelf.old)) → OnOk result (IsLaid text.now (course (S.history shelf.new) (S.images shelf.new))) }
    ensures proceeds { Proceeds (course (S.history shelf.old) (S.images shelf.old)) (course (S.history shelf.new) (S.images shelf.new)) }
    ensures held { S.held shelf.new ≡ S.held shelf.old }
    ensures cause { HasCause (S.faults shelf.old) (S.faults shelf.new) result (λ e. Unit {0}) }
{
    let mut place = 0;
    while place < text.len() {
        let end = place + (text.len() - place).min(PIECE);
        write(shelf, place as u64, &text[place..end])?;
        place = end;
    }
    Ok(())
}

/// Writes a text as the new file, and makes it sure.
pub(crate) fn write_text<S: Shelf>(shelf: &mut S, text: &[u8]) -> Result<(), Failed>
    ensures leads { IsAlone (course (S.history shelf.old) (S.images shelf.old)) (course (S.history shelf.new) (S.images shelf.new)) → Leads ButNew (course (S.history shelf.old) (S.images shelf.old)) (course (S.history shelf.new) (S.images shelf.new)) }
    ensures sure { IsAlone (course (S.history shelf.old) (S.images shelf.old)) (course (S.history shelf.new) (S.images shelf.new)) → OnOk result (IsSure new_name text.now (course (S.history shelf.new) (S.images shelf.new))) }
    ensures proceeds { Proceeds (course (S.history shelf.old) (S.images shelf.old)) (course (S.history shelf.new) (S.images shelf.new)) }
    ensures held { S.held shelf.new ≡ S.held shelf.old }
    ensures cause { HasCause (S.faults shelf.old) (S.faults shelf.new) result (λ e. Unit {0}) }
{
    clear(shelf)?;
    write_pieces(shelf, text)?;
    finish(shelf, text.len() as u64)
}
