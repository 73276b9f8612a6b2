//! Why a directory couldn't be listed.

ghost use Rattle.std.specs.Prelude.{◌≡◌};

use hg_base::{Failed, OutOfMemory};
use std::alloc::{AllocError, AllocFailed};

/// Why a listing was not answered: no memory for the names, or a failure of the tree, whose count of failures rose.
#[derive(Clone, Copy, Debug, PartialEq, Eq)]
pub enum TreeFault {
    OutOfMemory,
    Failed,
}

impl From<AllocError> for TreeFault {
    ghost use Rattle.std.specs.Prelude.{◌≡◌};
    ghost use Rattle.hg_tree.specs.declared.fault.TreeFault.TheVariants as a_fault;

    ghost from_gives = { λ _ e. e ≡ a_fault.OutOfMemory };

    fn from(_: AllocError) -> TreeFault {
        TreeFault::OutOfMemory
    }
}

impl<T: Drop> From<AllocFailed<T>> for TreeFault {
    ghost use Rattle.std.specs.Prelude.{◌≡◌};
    ghost use Rattle.hg_tree.specs.declared.fault.TreeFault.TheVariants as a_fault;

    ghost from_gives = { λ _ e. e ≡ a_fault.OutOfMemory };

    fn from(_: AllocFailed<T>) -> TreeFault {
        TreeFault::OutOfMemory
    }
}

impl From<OutOfMemory> for TreeFault {
    ghost use Rattle.std.specs.Prelude.{◌≡◌};
    ghost use Rattle.hg_tree.specs.declared.fault.TreeFault.TheVariants as a_fault;

    ghost from_gives = { λ _ e. e ≡ a_fault.OutOfMemory };

    fn from(_: OutOfMemory) -> TreeFault {
        TreeFault::OutOfMemory
    }
}

impl From<Failed> for TreeFault {
    ghost use Rattle.std.specs.Prelude.{◌≡◌};
    ghost use Rattle.hg_tree.specs.declared.fault.TreeFault.TheVariants as a_fault;

    ghost from_gives = { λ _ e. e ≡ a_fault.Failed };

    fn from(_: Failed) -> TreeFault {
        TreeFault::Failed
    }
}
