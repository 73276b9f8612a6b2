//! The text of the record: the dirstate is loaded, and all that it records is printed.

ghost use Rattle.std.specs.Prelude.{◌≡◌, ◌∷◌, [], IsTrue, IfOk, MatchOption, None, IfErr, OnOk};
ghost use Rattle.hg_base.specs.Fault.{HasCause};
ghost use Rattle.hg_docket.specs.Docket.{docket_of};
ghost use Rattle.hg_entry.specs.Table.{Table};
ghost use Rattle.hg_image.specs.Reading.{data_reading};
ghost use Rattle.hg_session.specs.Call.{counted, saved_by, watched};
ghost use Rattle.hg_session.specs.Debug.{Prints, ShowsRecord};
ghost use Rattle.hg_session.specs.Look.{OnlyReads};
ghost use Rattle.hg_session.specs.Put.{OnStream};
ghost use Rattle.hg_save.specs.Loads.{Try};
ghost use Rattle.hg_session.specs.Loaded.{AsksRecord};
ghost use Rattle.hg_session.specs.Reading.{IsBytesOf, NodesFind, Reads};
ghost use Rattle.hg_session.specs.declared.print_fault.PrintFault.TheVariants as a_print;
ghost use Rattle.hg_session.specs.declared.read_fault.ReadFault.TheVariants as a_fault;

use crate::ending::{Outcome, failed};
use crate::print_fault::PrintFault;
use crate::read_fault::ReadFault;
use hg_mixed::Mixed;
use hg_report::{Fault, debug_text};
use hg_save::{Loaded, load};
use hg_shelf::Shelf;
use hg_stream::{Sink, put_all};
use std::alloc::Global;

// The text of all that a record has that was loaded.
fn text_in(alloc: Global, loaded: &Loaded) -> Result<Vec<u8>, ReadFault>
    ensures { NodesFind IsBytesOf result (data_reading (docket_of loaded.now.shown.items) loaded.now.nodes.items) }
{
    let image = loaded.open()?;
    let mixed = Mixed::open(image);
    let text = debug_text(alloc, &mixed)?;
    Ok(text)
}

// Loads the dirstate, and answers the text of all that it records.
fn load_text<S: Shelf>(alloc: Global, shelf: &mut S) -> Result<Vec<u8>, ReadFault>
    ensures only { OnlyReads
        (saved_by S.history S.images shelf.old shelf.new)
        (counted S.held shelf.old shelf.new) }
    ensures found { IsTrue (S.history shelf.old).told → ((tried : Try) × Reads IsBytesOf (S.history shelf.old) (S.history shelf.new) (tried ∷ []) result) }
    ensures some { IfOk result (λ text. (table : Table) × IsBytesOf table text) }
    ensures asked { IsTrue (S.history shelf.old).told → AsksRecord (S.history shelf.old) (S.history shelf.new) }
    ensures cause { HasCause (S.faults shelf.old) (S.faults shelf.new) result (λ e. e ≡ a_fault.Failed) }
{
    let loaded = load(alloc, shelf)?;
    text_in(alloc, &loaded)
}

// Prints all that the dirstate records, whatever its parents are.
fn print_record<S: Shelf, O: Sink>(
    alloc: Global,
    shelf: &mut S,
    out: &mut O,
) -> Result<(), PrintFault>
    ensures prints { Prints (watched S.history S.faults shelf.old shelf.new) (watched O.bytes O.faults out.old out.new) result }
    ensures below { IsTrue (S.history shelf.old).told → AsksRecord (S.history shelf.old) (S.history shelf.new) }
    ensures calm_shelf { OnOk result (S.faults shelf.new ≡ S.faults shelf.old) }
    ensures streams { IfErr result (λ e. e ≡ a_print.OutFailed → S.faults shelf.new ≡ S.faults shelf.old) }
    ensures calm_out { OnOk result (O.faults out.new ≡ O.faults out.old) }
    ensures only { OnlyReads
        (saved_by S.history S.images shelf.old shelf.new)
        (counted S.held shelf.old shelf.new) }
{
    let text = load_text(alloc, shelf)?;
    match put_all(out, text.as_slice()) {
        Err(_) => Err(PrintFault::OutFailed),
        Ok(()) => Ok(()),
    }
}

/// Prints the record, or tells why it couldn't.
pub(crate) fn show_record<S: Shelf, O: Sink, E: Sink>(
    alloc: Global,
    shelf: &mut S,
    out: &mut O,
    err: &mut E,
) -> Outcome
    ensures shows { ShowsRecord
        (watched S.history S.faults shelf.old shelf.new)
        (watched O.bytes O.faults out.old out.new)
        (watched E.bytes E.faults err.old err.new)
        result.fault }
    ensures below { IsTrue (S.history shelf.old).told → AsksRecord (S.history shelf.old) (S.history shelf.new) }
    ensures calm_shelf { result.fault ≡ None → S.faults shelf.new ≡ S.faults shelf.old }
    ensures streams { OnStream result.fault (S.faults shelf.new ≡ S.faults shelf.old) }
    ensures calm_out { result.fault ≡ None → O.faults out.new ≡ O.faults out.old }
    ensures calm_err { result.fault ≡ None → E.faults err.new ≡ E.faults err.old }
    ensures only { OnlyReads
        (saved_by S.history S.images shelf.old shelf.new)
        (counted S.held shelf.old shelf.new) }
    ensures status { MatchOption result.fault (result.status ≡ 0) (λ fault. result.status ≡ 255) }
{
    match print_record(alloc, shelf, out) {
        Err(fault) => failed(alloc, Fault::from(fault), err),
        Ok(()) => Outcome {
            status: 0,
            fault: None,
        },
    }
}
