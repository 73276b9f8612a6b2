//! A status saves what it noted, where it gets the lock and the docket still stands.

ghost use Rattle.std.specs.Prelude.{◌≡◌, ◌⊎◌, ◌↔◌, ◌∷◌, [], IfErr, IfOk, IsTrue, Ok, false, true};
ghost use Rattle.hg_base.specs.Fault.{HasCause};
ghost use Rattle.hg_docket.specs.Docket.{docket_of};
ghost use Rattle.hg_entry.specs.Table.{Table};
ghost use Rattle.hg_mixed.specs.Held.{table};
ghost use Rattle.hg_save.specs.Asked.{docket_ask};
ghost use Rattle.hg_save.specs.Leads.{IsHeld};
ghost use Rattle.hg_save.specs.Record.{docket_in, shown_in};
ghost use Rattle.hg_session.specs.Call.{counted, saved_by, watched};
ghost use Rattle.hg_session.specs.Change.{IsUnwritten};
ghost use Rattle.hg_session.specs.Kept.{AreNews};
ghost use Rattle.hg_session.specs.SavingNotes.{IsOpenedSince, IsTryOf, SavesHeld, SavesNotes, once_saved, save_fault, unless_full};
ghost use Rattle.hg_session.specs.declared.save_fault.SaveFault.TheVariants as a_fault;
ghost use Rattle.hg_shelf.specs.Asks.{AsksFrontOf, AsksInOrder};
ghost use Rattle.hg_shelf.specs.History.{History, Passes, now};
ghost use Rattle.hg_shelf.specs.Images.{Goes, course};
ghost use Rattle.hg_walk.specs.Applying.{CanApply, IsBlank};

use crate::change_fault::ChangeFault;
use crate::changing::save;
use crate::save_fault::SaveFault;
use hg_append::EncodeFault;
use hg_base::Failed;
use hg_mixed::Mixed;
use hg_save::{Loaded, still};
use hg_shelf::Shelf;
use hg_walk::{Notes, apply};
use std::alloc::Global;

// What publishing came to, where a record that can't be written isn't saved.
fn unless_unfit(done: Result<(), ChangeFault>) -> Result<(), SaveFault>
    ensures { result ≡ unless_full done }
{
    match done {
        Ok(()) => Ok(()),
        Err(ChangeFault::Encode(EncodeFault::OutOfMemory)) => Err(SaveFault::OutOfMemory),
        Err(ChangeFault::Encode(_)) => Ok(()),
        Err(_) => Err(SaveFault::ShelfFailed),
    }
}

// Whether the docket stands as it was loaded.
fn stands<S: Shelf>(shelf: &mut S, loaded: &Loaded) -> Result<bool, SaveFault>
    ensures found { IsTrue (S.history shelf.old).told
        → IfOk result (λ same. IsTrue same ↔ (docket_in (now (S.history shelf.new)).files ≡ loaded.now.docket.items)) }
    ensures shown { IsTrue (S.history shelf.old).told
        → IfOk result (λ same. IsTrue same → shown_in (now (S.history shelf.new)).files ≡ loaded.now.shown.items) }
    ensures passes { Passes (S.history shelf.old) (S.history shelf.new) }
    ensures kept { Goes (course (S.history shelf.old) (S.images shelf.old)) (course (S.history shelf.new) (S.images shelf.new)) }
    ensures asked { IsTrue (S.history shelf.old).told → AsksInOrder (docket_ask ∷ []) (S.history shelf.old) (S.history shelf.new) result }
    ensures cause { HasCause (S.faults shelf.old) (S.faults shelf.new) result (λ e. e ≡ a_fault.ShelfFailed) }
    ensures kind { IfErr result (λ e. e ≡ a_fault.ShelfFailed) }
    ensures locks { S.held shelf.new ≡ S.held shelf.old }
{
    match still(shelf, loaded) {
        Err(_) => Err(SaveFault::ShelfFailed),
        Ok(same) => Ok(same),
    }
}

// Writes the notes into the table and publishes it, where the docket stands as it was loaded. The caller holds the lock.
fn save_held<S: Shelf>(
    alloc: Global,
    shelf: &mut S,
    loaded: &Loaded,
    mixed: &mut Mixed<'_>,
    notes: Notes,
) -> Result<(), SaveFault>
    requires held { (S.history shelf.old).ours ≡ true }
    requires over { mixed.old.docket ≡ docket_of loaded.now.shown.items }
    requires nodes { mixed.old.bytes ≡ loaded.now.nodes.items }
    requires unchanged { mixed.old.changed ≡ false }
    requires can { CanApply notes (table mixed.old) }
    requires some { IsBlank notes → ⊥ }
    // `SavesHeld` in specs/SavingNotes.antt.
    ensures saves { (start : History) (recorded : Table) (since : IsOpenedSince start (S.history shelf.old) loaded.now recorded mixed.old) → AreNews recorded notes
        → SavesHeld
        (IsTryOf start (S.history shelf.old) loaded.now recorded mixed.old since)
        start
        (watched S.history S.faults shelf.old shelf.new)
        (saved_by S.history S.images shelf.old shelf.new)
        recorded
        notes
        (save_fault result) }
    ensures unwritten { IfErr result (λ e. (e ≡ a_fault.ShelfFailed) ⊎ IsUnwritten (S.history shelf.old) (S.history shelf.new)) }
    ensures cause { HasCause (S.faults shelf.old) (S.faults shelf.new) result (λ e. e ≡ a_fault.ShelfFailed) }
    ensures kept { Goes (course (S.history shelf.old) (S.images shelf.old)) (course (S.history shelf.new) (S.images shelf.new)) }
    ensures ours { (S.history shelf.new).ours ≡ (S.history shelf.old).ours }
    ensures asked { IsTrue (S.history shelf.old).told → AsksFrontOf (docket_ask ∷ []) (S.history shelf.old) (S.history shelf.new) }
    ensures lock { IsTrue (S.history shelf.old).told → IsHeld (S.history shelf.old) (S.history shelf.new) }
    ensures uncalled { (S.history shelf.new).locks ≡ (S.history shelf.old).locks }
    ensures locks { S.held shelf.new ≡ S.held shelf.old }
{
    let same = stands(shelf, loaded)?;
    if !same {
        return Ok(());
    }
    apply(alloc, mixed, notes)?;
    unless_unfit(save(alloc, shelf, loaded, mixed))
}

// The first fault of saving and of giving the lock back.
fn first_fault(done: Result<(), SaveFault>, freed: Result<(), Failed>) -> Result<(), SaveFault>
    ensures { result ≡ once_saved done freed }
{
    match done {
        Err(fault) => Err(fault),
        Ok(()) => match freed {
            Err(_) => Err(SaveFault::ShelfFailed),
            Ok(()) => Ok(()),
        },
    }
}

/// Saves what was noted over the record that was loaded: where the lock is had at once and the docket still stands, the table with the notes is published.
///
/// Where nothing was noted nothing is touched. A lock that is held, another docket and a table that can't be written save nothing, and are no fault.
pub(crate) fn save_notes<S: Shelf>(
    alloc: Global,
    shelf: &mut S,
    loaded: &Loaded,
    mixed: &mut Mixed<'_>,
    notes: Notes,
) -> Result<(), SaveFault>
    requires over { mixed.old.docket ≡ docket_of loaded.now.shown.items }
    requires nodes { mixed.old.bytes ≡ loaded.now.nodes.items }
    requires unchanged { mixed.old.changed ≡ false }
    requires can { CanApply notes (table mixed.old) }
    // `SavesNotes` in specs/SavingNotes.antt.
    ensures saves { (start : History) (recorded : Table) (since : IsOpenedSince start (S.history shelf.old) loaded.now recorded mixed.old) → AreNews recorded notes
        → SavesNotes
        (IsTryOf start (S.history shelf.old) loaded.now recorded mixed.old since)
        start
        (watched S.history S.faults shelf.old shelf.new)
        (saved_by S.history S.images shelf.old shelf.new)
        (counted S.held shelf.old shelf.new)
        recorded
        notes
        (save_fault result) }
    ensures blank { IsBlank notes → shelf.new ≡ shelf.old }
    ensures blank_ok { IsBlank notes → result ≡ Ok tt }
    // Where there is no memory nothing was written.
    ensures unwritten { IfErr result (λ e. (e ≡ a_fault.ShelfFailed) ⊎ IsUnwritten (S.history shelf.old) (S.history shelf.new)) }
    // Behind the lock the docket is asked for once, and nothing else.
    ensures asked { IsTrue (S.history shelf.old).told → AsksFrontOf (docket_ask ∷ []) (S.history shelf.old) (S.history shelf.new) }
    ensures cause { HasCause (S.faults shelf.old) (S.faults shelf.new) result (λ e. e ≡ a_fault.ShelfFailed) }
    ensures kept { Goes (course (S.history shelf.old) (S.images shelf.old)) (course (S.history shelf.new) (S.images shelf.new)) }
{
    if notes.is_empty() {
        return Ok(());
    }
    match shelf.lock() {
        Err(_) => Err(SaveFault::ShelfFailed),
        Ok(false) => Ok(()),
        Ok(true) => {
            let done = save_held(alloc, shelf, loaded, mixed, notes);
            let freed = shelf.unlock();
            first_fault(done, freed)
        }
    }
}
