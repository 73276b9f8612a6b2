//! Why the record could not be read.

use hg_base::OutOfMemory;
use hg_docket::{DocketFault, Idents};
use hg_image::NodeFault;
use hg_report::Fault;
use hg_save::LoadFault;
use std::alloc::{AllocError, AllocFailed};

/// Why the record could not be read.
#[derive(Drop)]
pub enum ReadFault {
    /// There was no memory.
    OutOfMemory,
    /// `.hg/dirstate` is damaged.
    Docket(DocketFault),
    /// The data file that `.hg/dirstate` names is damaged.
    Node(NodeFault),
    /// Each docket that was read named a data file that was then absent; these are their identifiers.
    DataGone { ids: Idents },
    /// The files below `.hg` failed, and their count of failures rose.
    Failed,
}

impl From<OutOfMemory> for ReadFault {
    ghost use Rattle.std.specs.Prelude.{◌≡◌};
    ghost use Rattle.hg_session.specs.declared.read_fault.ReadFault.TheVariants as a_fault;

    ghost from_gives = { λ _ e. e ≡ a_fault.OutOfMemory };

    fn from(_: OutOfMemory) -> ReadFault {
        ReadFault::OutOfMemory
    }
}

impl From<AllocError> for ReadFault {
    ghost use Rattle.std.specs.Prelude.{◌≡◌};
    ghost use Rattle.hg_session.specs.declared.read_fault.ReadFault.TheVariants as a_fault;

    ghost from_gives = { λ _ e. e ≡ a_fault.OutOfMemory };

    fn from(_: AllocError) -> ReadFault {
        ReadFault::OutOfMemory
    }
}

impl<T: Drop> From<AllocFailed<T>> for ReadFault {
    ghost use Rattle.std.specs.Prelude.{◌≡◌};
    ghost use Rattle.hg_session.specs.declared.read_fault.ReadFault.TheVariants as a_fault;

    ghost from_gives = { λ _ e. e ≡ a_fault.OutOfMemory };

    fn from(_: AllocFailed<T>) -> ReadFault {
        ReadFault::OutOfMemory
    }
}

impl From<LoadFault> for ReadFault {
    ghost use Rattle.std.specs.Prelude.{◌≡◌};
    ghost use Rattle.hg_session.specs.Reading.{by_load};

    ghost from_gives = { λ f e. e ≡ by_load f };

    fn from(fault: LoadFault) -> ReadFault {
        match fault {
            LoadFault::OutOfMemory => ReadFault::OutOfMemory,
            LoadFault::Docket(fault) => ReadFault::Docket(fault),
            LoadFault::DataGone { ids } => ReadFault::DataGone { ids },
            LoadFault::Failed => ReadFault::Failed,
        }
    }
}

impl From<NodeFault> for ReadFault {
    ghost use Rattle.std.specs.Prelude.{◌≡◌};
    ghost use Rattle.hg_session.specs.declared.read_fault.ReadFault.TheVariants as a_fault;

    ghost from_gives = { λ f e. e ≡ a_fault.Node f };

    fn from(fault: NodeFault) -> ReadFault {
        ReadFault::Node(fault)
    }
}

impl From<ReadFault> for Fault {
    ghost use Rattle.std.specs.Prelude.{◌≡◌};
    ghost use Rattle.hg_session.specs.Load.{of_read};

    ghost from_gives = { λ f e. e ≡ of_read f };

    fn from(fault: ReadFault) -> Fault {
        match fault {
            ReadFault::OutOfMemory => Fault::OutOfMemory,
            ReadFault::Docket(fault) => Fault::Docket(fault),
            ReadFault::Node(fault) => Fault::Node(fault),
            ReadFault::DataGone { ids } => Fault::DataGone { ids },
            ReadFault::Failed => Fault::ShelfFailed,
        }
    }
}
