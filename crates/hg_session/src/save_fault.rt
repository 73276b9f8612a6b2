//! Why what was noted could not be saved.

use hg_base::OutOfMemory;
use hg_report::Fault;

/// Why what was noted could not be saved.
#[derive(Drop)]
pub enum SaveFault {
    /// There was no memory.
    OutOfMemory,
    /// The files below `.hg` failed while the lock was taken or given back, or while the record was read again or published.
    ShelfFailed,
}

impl From<OutOfMemory> for SaveFault {
    ghost use Rattle.std.specs.Prelude.{◌≡◌};
    ghost use Rattle.hg_session.specs.declared.save_fault.SaveFault.TheVariants as a_fault;

    ghost from_gives = { λ _ e. e ≡ a_fault.OutOfMemory };

    fn from(_: OutOfMemory) -> SaveFault {
        SaveFault::OutOfMemory
    }
}

impl From<SaveFault> for Fault {
    ghost use Rattle.std.specs.Prelude.{◌≡◌};
    ghost use Rattle.hg_session.specs.SavingNotes.{of_save};

    ghost from_gives = { λ f e. e ≡ of_save f };

    fn from(fault: SaveFault) -> Fault {
        match fault {
            SaveFault::OutOfMemory => Fault::OutOfMemory,
            SaveFault::ShelfFailed => Fault::ShelfFailed,
        }
    }
}
