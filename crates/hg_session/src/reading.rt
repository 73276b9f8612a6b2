//! Reading the record: a load, and then its nodes.

ghost use Rattle.std.specs.Prelude.{◌≡◌, ◌∷◌, [], IfErr, IsTrue};
ghost use Rattle.hg_base.specs.Fault.{HasCause};
ghost use Rattle.hg_docket.specs.Docket.{docket_of};
ghost use Rattle.hg_image.specs.Reading.{data_reading};
ghost use Rattle.hg_save.specs.Loads.{Try};
ghost use Rattle.hg_session.specs.Reading.{IsOpened, LoadsOrRefuses, NodesFind};
ghost use Rattle.hg_session.specs.Loaded.{AsksRecord};
ghost use Rattle.hg_session.specs.declared.read_fault.ReadFault.TheVariants as a_read;
ghost use Rattle.hg_shelf.specs.History.{Passes};
ghost use Rattle.hg_shelf.specs.Images.{Goes, course};

use crate::read_fault::ReadFault;
use hg_mixed::Mixed;
use hg_save::{Loaded, load};
use hg_shelf::Shelf;
use std::alloc::Global;

/// Loads the record.
///
/// The faults are looked for in this order: the docket's own, a data file that is gone, the data's own.
pub(crate) fn read<S: Shelf>(alloc: Global, shelf: &mut S) -> Result<Loaded, ReadFault>
    ensures passes { Passes (S.history shelf.old) (S.history shelf.new) }
    ensures found { IsTrue (S.history shelf.old).told
        → ((tried : Try) × LoadsOrRefuses (S.history shelf.old) (S.history shelf.new) (tried ∷ []) result) }
    ensures cause { HasCause (S.faults shelf.old) (S.faults shelf.new) result (λ e. e ≡ a_read.Failed) }
    ensures steady { IfErr result (λ e. (e ≡ a_read.Failed → ⊥) → S.faults shelf.new ≡ S.faults shelf.old) }
    ensures asked { IsTrue (S.history shelf.old).told → AsksRecord (S.history shelf.old) (S.history shelf.new) }
    ensures kept { Goes (course (S.history shelf.old) (S.images shelf.old)) (course (S.history shelf.new) (S.images shelf.new)) }
    ensures locks { S.held shelf.new ≡ S.held shelf.old }
{
    let loaded = load(alloc, shelf)?;
    Ok(loaded)
}

/// The table of a record that was loaded.
pub(crate) fn opened<'a>(loaded: &'a Loaded) -> Result<Mixed<'a>, ReadFault>
    ensures { NodesFind
        (IsOpened loaded.now)
        result
        (data_reading (docket_of loaded.now.shown.items) loaded.now.nodes.items) }
{
    let image = loaded.open()?;
    let mixed = Mixed::open(image);
    Ok(mixed)
}
