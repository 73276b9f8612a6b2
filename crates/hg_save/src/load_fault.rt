//! Why a record could not be loaded.

use hg_base::OutOfMemory;
use hg_docket::{DocketFault, Idents};
use std::alloc::{AllocError, AllocFailed};

/// Why a record could not be loaded. That its nodes are damaged is found by `Loaded::open`.
#[derive(Drop)]
pub enum LoadFault {
    /// There was no memory.
    OutOfMemory,
    /// `.hg/dirstate` is damaged.
    Docket(DocketFault),
    /// Each docket that was read named a data file that was then absent; these are their identifiers.
    DataGone { ids: Idents },
    /// The files below `.hg` failed, and their count of failures rose.
    Failed,
}

impl From<OutOfMemory> for LoadFault {
    ghost use Rattle.std.specs.Prelude.{◌≡◌};
    ghost use Rattle.hg_save.specs.declared.load_fault.LoadFault.TheVariants as a_fault;

    ghost from_gives = { λ _ e. e ≡ a_fault.OutOfMemory };

    fn from(_: OutOfMemory) -> LoadFault {
        LoadFault::OutOfMemory
    }
}

impl From<AllocError> for LoadFault {
    ghost use Rattle.std.specs.Prelude.{◌≡◌};
    ghost use Rattle.hg_save.specs.declared.load_fault.LoadFault.TheVariants as a_fault;

    ghost from_gives = { λ _ e. e ≡ a_fault.OutOfMemory };

    fn from(_: AllocError) -> LoadFault {
        LoadFault::OutOfMemory
    }
}

impl<T: Drop> From<AllocFailed<T>> for LoadFault {
    ghost use Rattle.std.specs.Prelude.{◌≡◌};
    ghost use Rattle.hg_save.specs.declared.load_fault.LoadFault.TheVariants as a_fault;

    ghost from_gives = { λ _ e. e ≡ a_fault.OutOfMemory };

    fn from(_: AllocFailed<T>) -> LoadFault {
        LoadFault::OutOfMemory
    }
}

impl From<DocketFault> for LoadFault {
    ghost use Rattle.std.specs.Prelude.{◌≡◌};
    ghost use Rattle.hg_save.specs.declared.load_fault.LoadFault.TheVariants as a_fault;

    ghost from_gives = { λ f e. e ≡ a_fault.Docket f };

    fn from(fault: DocketFault) -> LoadFault {
        LoadFault::Docket(fault)
    }
}
