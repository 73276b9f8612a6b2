//! Publishing a table: the data file, then the docket.

ghost use Rattle.std.specs.Prelude.{◌≡◌, ◌≤◌, ◌<◌, ◌∷◌, [], length, None, true, IsTrue, OnOk, OnErr};
ghost use Rattle.hg_base.specs.Fault.{HasCause};
ghost use Rattle.hg_docket.specs.Docket.{docket_of, docket_refusal};
ghost use Rattle.hg_shelf.specs.Asks.{AsksNothing};
ghost use Rattle.hg_shelf.specs.Images.{Goes, course, last_scene};
ghost use Rattle.hg_shelf.specs.Polite.{Undisturbed};
ghost use Rattle.hg_save.specs.Behind.{HasNodes};
ghost use Rattle.hg_save.specs.Leads.{Clears, IsHeld, Leads, OwnSteps, ShowsEither, StepBy};
ghost use Rattle.hg_save.specs.Over.{IsPut};
ghost use Rattle.hg_save.specs.Record.{data_name};
ghost use Rattle.hg_save.specs.Saved.{HoldsExactly, IsOver, Records, published};

use crate::loaded::Loaded;
use crate::steps::{put, swap};
use hg_append::Encoded;
use hg_base::Failed;
use hg_docket::{DataName, Docket, Ident};
use hg_shelf::Shelf;

// The names of the docket below `.hg`, and of a new one before it takes that place.
const DOCKET: &str = "dirstate";

const NEW_DOCKET: &str = "dirstate-new";

// Takes the data file away that a docket names, where it names one, and another one than a new docket.
fn clear<S: Shelf>(shelf: &mut S, docket: &[u8], next: &[u8]) -> Result<(), Failed>
    requires held { (S.history shelf.old).ours ≡ true }
    requires few { length docket.now ≤ 512 }
    requires whole { docket_refusal docket.now ≡ None }
    ensures leads { Undisturbed (course (S.history shelf.old) (S.images shelf.old)) (course (S.history shelf.new) (S.images shelf.new))
        → Leads
        (Clears (docket_of docket.now).id next.now)
        (course (S.history shelf.old) (S.images shelf.old))
        (course (S.history shelf.new) (S.images shelf.new)) }
    ensures gone { Undisturbed (course (S.history shelf.old) (S.images shelf.old)) (course (S.history shelf.new) (S.images shelf.new))
        → OnOk
        result
        (((docket_of docket.now).id ≡ [] → ⊥)
        → ((docket_of docket.now).id ≡ next.now → ⊥)
        → (last_scene (course (S.history shelf.new) (S.images shelf.new))).files (data_name (docket_of docket.now).id) ≡ None) }
    // Each of its steps takes that file away, or nothing.
    ensures steps { Undisturbed (course (S.history shelf.old) (S.images shelf.old)) (course (S.history shelf.new) (S.images shelf.new))
        → OwnSteps
        (StepBy (Clears (docket_of docket.now).id next.now))
        (course (S.history shelf.old) (S.images shelf.old))
        (course (S.history shelf.new) (S.images shelf.new)) }
    // At each moment reads show what they showed at the start, or what they show at the end.
    ensures either { Undisturbed (course (S.history shelf.old) (S.images shelf.old)) (course (S.history shelf.new) (S.images shelf.new))
        → ShowsEither (course (S.history shelf.old) (S.images shelf.old)) (course (S.history shelf.new) (S.images shelf.new)) }
    ensures lock { IsTrue (S.history shelf.old).told → IsHeld (S.history shelf.old) (S.history shelf.new) }
    ensures kept { Goes (course (S.history shelf.old) (S.images shelf.old)) (course (S.history shelf.new) (S.images shelf.new)) }
    ensures ours { (S.history shelf.new).ours ≡ (S.history shelf.old).ours }
    ensures unasked { AsksNothing (S.history shelf.old) (S.history shelf.new) }
    ensures held { S.held shelf.new ≡ S.held shelf.old }
    ensures cause { HasCause (S.faults shelf.old) (S.faults shelf.new) result (λ e. Unit {0}) }
{
    match Docket::read(docket) {
        Err(_) => unreachable!(),
        Ok(docket) => {
            if docket.id.is_empty() {
                return Ok(());
            }
            if docket.id == next {
                return Ok(());
            }
            match Ident::read(docket.id) {
                None => unreachable!(),
                Some(id) => shelf.remove(DataName::of(&id).as_str()),
            }
        }
    }
}

/// Writes what was encoded of a table over the record that was loaded, and then a docket that takes the place of the one that stands: under the next
/// identifier, from place 0 on, or behind the loaded nodes, under the identifier that stands. Where that changed, the old data file goes then. The caller
/// holds the lock, and `new` is the loaded table, changed and encoded by either way.
///
/// After a crash at any moment the dirstate is as it was before or as it is after, and so it is where a call failed. It takes no memory.
pub fn publish<S: Shelf>(shelf: &mut S, loaded: &Loaded, new: &Encoded) -> Result<(), Failed>
    requires held { (S.history shelf.old).ours ≡ true }
    requires over { IsOver loaded.now.shown.items loaded.now.nodes.items new.now }
    // It is published over the record that stood, wholly or in part, whatever is answered.
    ensures safe { Undisturbed (course (S.history shelf.old) (S.images shelf.old)) (course (S.history shelf.new) (S.images shelf.new))
        → IsPut loaded.now new.now (course (S.history shelf.old) (S.images shelf.old)) (course (S.history shelf.new) (S.images shelf.new)) }
    // Where it succeeded, the new table is recorded, also after a crash.
    ensures sure { Undisturbed (course (S.history shelf.old) (S.images shelf.old)) (course (S.history shelf.new) (S.images shelf.new))
        → (0 < new.now.place → HasNodes loaded.now (last_scene (course (S.history shelf.old) (S.images shelf.old))))
        → OnOk result (Records (course (S.history shelf.new) (S.images shelf.new)) (published loaded.now.nodes.items new.now)) }
    // The data file and the docket hold exactly the new bytes over what stood there then, also after a crash.
    ensures exact { Undisturbed (course (S.history shelf.old) (S.images shelf.old)) (course (S.history shelf.new) (S.images shelf.new))
        → OnOk
        result
        (HoldsExactly
        new.now
        (course (S.history shelf.old) (S.images shelf.old))
        (course (S.history shelf.new) (S.images shelf.new))) }
    // And the data file that the loaded docket named is gone, where it is another one.
    ensures gone { Undisturbed (course (S.history shelf.old) (S.images shelf.old)) (course (S.history shelf.new) (S.images shelf.new))
        → OnOk
        result
        (((docket_of loaded.now.shown.items).id ≡ [] → ⊥)
        → ((docket_of loaded.now.shown.items).id ≡ new.now.id → ⊥)
        → (last_scene (course (S.history shelf.new) (S.images shelf.new))).files (data_name (docket_of loaded.now.shown.items).id) ≡ None) }
    // Each step meanwhile is its own, or of one who may only read.
    ensures lock { IsTrue (S.history shelf.old).told → IsHeld (S.history shelf.old) (S.history shelf.new) }
    ensures kept { Goes (course (S.history shelf.old) (S.images shelf.old)) (course (S.history shelf.new) (S.images shelf.new)) }
    ensures ours { (S.history shelf.new).ours ≡ (S.history shelf.old).ours }
    ensures unasked { AsksNothing (S.history shelf.old) (S.history shelf.new) }
    ensures held { S.held shelf.new ≡ S.held shelf.old }
    ensures cause { HasCause (S.faults shelf.old) (S.faults shelf.new) result (λ e. Unit {0}) }
{
    let name = DataName::of(&new.id);
    put(shelf, name.as_str(), new.place as u64, new.bytes.as_slice())?;
    put(shelf, NEW_DOCKET, 0, new.docket.as_slice())?;
    swap(shelf, NEW_DOCKET, DOCKET)?;
    clear(shelf, loaded.shown.as_slice(), new.id.as_bytes())
}
