//! Giving a text that was written its place in the plain store.

ghost use Rattle.std.specs.Prelude.{◌≡◌, ℕ, List, None, true, false, length, IfErr, OnOk, bytes_eq, replicate};
ghost use Rattle.hg_base.specs.Fault.{HasCause};
ghost use Rattle.hg_shelf.specs.Images.{course, last_scene};
ghost use Rattle.hg_store.specs.Standing.{CountsShelf, Decides, IsSettleFault, OnClash, clashes};
ghost use Rattle.hg_store.specs.Storing.{ButNew, IsAlone, IsCleared, IsStored, IsSure, Keeps, Leads, Proceeds, new_name};

use crate::comparing::standing;
use crate::fault::StoreFault;
use crate::standing::Standing;
use crate::writing::{NEW, clear};
use hg_base::{Failed, Id20};
use hg_shelf::Shelf;

// Gives the new file the name, which no file has, and makes that sure.
fn place<S: Shelf>(shelf: &mut S, name: &str) -> Result<(), Failed>
    ensures leads { (text : List ℕ) → IsAlone (course (S.history shelf.old) (S.images shelf.old)) (course (S.history shelf.new) (S.images shelf.new)) → IsSure new_name text (course (S.history shelf.old) (S.images shelf.old)) → (last_scene (course (S.history shelf.old) (S.images shelf.old))).files name.now ≡ None → (name.now ≡ new_name → ⊥)
        → Leads (Keeps None name.now text) (course (S.history shelf.old) (S.images shelf.old)) (course (S.history shelf.new) (S.images shelf.new)) }
    ensures stored { (text : List ℕ) → IsAlone (course (S.history shelf.old) (S.images shelf.old)) (course (S.history shelf.new) (S.images shelf.new)) → IsSure new_name text (course (S.history shelf.old) (S.images shelf.old)) → (name.now ≡ new_name → ⊥)
        → OnOk result (IsStored name.now text (course (S.history shelf.old) (S.images shelf.old)) (course (S.history shelf.new) (S.images shelf.new))) }
    ensures proceeds { Proceeds (course (S.history shelf.old) (S.images shelf.old)) (course (S.history shelf.new) (S.images shelf.new)) }
    ensures held { S.held shelf.new ≡ S.held shelf.old }
    ensures cause { HasCause (S.faults shelf.old) (S.faults shelf.new) result (λ e. Unit {0}) }
{
    shelf.rename(NEW, name)?;
    shelf.sync_names()
}

// Takes the new file away, and makes sure that it is gone and that what stands under the name of its text is there.
fn let_stand<S: Shelf>(shelf: &mut S) -> Result<(), Failed>
    ensures leads { IsAlone (course (S.history shelf.old) (S.images shelf.old)) (course (S.history shelf.new) (S.images shelf.new)) → Leads ButNew (course (S.history shelf.old) (S.images shelf.old)) (course (S.history shelf.new) (S.images shelf.new)) }
    ensures stood { (name text : List ℕ) → IsAlone (course (S.history shelf.old) (S.images shelf.old)) (course (S.history shelf.new) (S.images shelf.new)) → (name ≡ new_name → ⊥) → (last_scene (course (S.history shelf.old) (S.images shelf.old))).files name ≡ Some text
        → OnOk result (IsStored name text (course (S.history shelf.old) (S.images shelf.old)) (course (S.history shelf.new) (S.images shelf.new))) }
    ensures proceeds { Proceeds (course (S.history shelf.old) (S.images shelf.old)) (course (S.history shelf.new) (S.images shelf.new)) }
    ensures held { S.held shelf.new ≡ S.held shelf.old }
    ensures cause { HasCause (S.faults shelf.old) (S.faults shelf.new) result (λ e. Unit {0}) }
{
    clear(shelf)?;
    shelf.sync_names()
}

// Refuses a text: the new file goes, and no name is made sure.
fn refuse<S: Shelf>(shelf: &mut S, id: Id20) -> Result<(), StoreFault>
    ensures leads { IsAlone (course (S.history shelf.old) (S.images shelf.old)) (course (S.history shelf.new) (S.images shelf.new)) → Leads ButNew (course (S.history shelf.old) (S.images shelf.old)) (course (S.history shelf.new) (S.images shelf.new)) }
    ensures decided { Decides true id result }
    ensures cleared { IsAlone (course (S.history shelf.old) (S.images shelf.old)) (course (S.history shelf.new) (S.images shelf.new)) → OnClash ((last_scene (course (S.history shelf.new) (S.images shelf.new))).files new_name ≡ None) result }
    ensures kind { IfErr result (IsSettleFault id) }
    ensures proceeds { Proceeds (course (S.history shelf.old) (S.images shelf.old)) (course (S.history shelf.new) (S.images shelf.new)) }
    ensures held { S.held shelf.new ≡ S.held shelf.old }
    ensures count { CountsShelf (S.faults shelf.old) (S.faults shelf.new) result }
{
    clear(shelf)?;
    Err(StoreFault::StoreClash { id })
}

// Whether the identifier is the null one.
fn is_null(id: &Id20) -> bool
    ensures { result ≡ bytes_eq id.now.0 (replicate 20 0) }
{
    *id == Id20([0; 20])
}

/// Gives the new file, of so many bytes, the name of its identifier, where nothing stands there; else the one that stands has to be the same.
pub(crate) fn settle<S: Shelf>(
    shelf: &mut S,
    name: &str,
    id: Id20,
    len: u64,
    mine: &mut [u8],
    theirs: &mut [u8],
) -> Result<(), StoreFault>
    requires mine { length mine.old ≡ 32768 }
    requires theirs { length theirs.old ≡ 32768 }
    ensures leads { (text : List ℕ) → IsAlone (course (S.history shelf.old) (S.images shelf.old)) (course (S.history shelf.new) (S.images shelf.new)) → IsSure new_name text (course (S.history shelf.old) (S.images shelf.old)) → length text ≡ len → (name.now ≡ new_name → ⊥)
        → Leads (Keeps ((last_scene (course (S.history shelf.old) (S.images shelf.old))).files name.now) name.now text) (course (S.history shelf.old) (S.images shelf.old)) (course (S.history shelf.new) (S.images shelf.new)) }
    ensures decided { (text : List ℕ) → IsAlone (course (S.history shelf.old) (S.images shelf.old)) (course (S.history shelf.new) (S.images shelf.new)) → IsSure new_name text (course (S.history shelf.old) (S.images shelf.old)) → length text ≡ len → Decides (clashes id.0 ((last_scene (course (S.history shelf.old) (S.images shelf.old))).files name.now) text) id result }
    ensures stored { (text : List ℕ) → IsAlone (course (S.history shelf.old) (S.images shelf.old)) (course (S.history shelf.new) (S.images shelf.new)) → IsSure new_name text (course (S.history shelf.old) (S.images shelf.old)) → length text ≡ len → (name.now ≡ new_name → ⊥)
        → OnOk result (IsStored name.now text (course (S.history shelf.old) (S.images shelf.old)) (course (S.history shelf.new) (S.images shelf.new))) }
    ensures cleared { IsAlone (course (S.history shelf.old) (S.images shelf.old)) (course (S.history shelf.new) (S.images shelf.new)) → OnClash ((last_scene (course (S.history shelf.new) (S.images shelf.new))).files new_name ≡ None) result }
    ensures kind { IfErr result (IsSettleFault id) }
    ensures known { OnOk result (bytes_eq id.0 (replicate 20 0) ≡ false) }
    ensures proceeds { Proceeds (course (S.history shelf.old) (S.images shelf.old)) (course (S.history shelf.new) (S.images shelf.new)) }
    ensures held { S.held shelf.new ≡ S.held shelf.old }
    ensures count { CountsShelf (S.faults shelf.old) (S.faults shelf.new) result }
{
    if is_null(&id) {
        return refuse(shelf, id);
    }
    match standing(shelf, name, len, mine, theirs)? {
        Standing::Absent => Ok(place(shelf, name)?),
        Standing::Same => Ok(let_stand(shelf)?),
        Standing::Other => refuse(shelf, id),
    }
}
