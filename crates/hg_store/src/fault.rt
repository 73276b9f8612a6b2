//! Why something could not be stored.

ghost use Rattle.std.specs.Prelude.{◌≡◌};
ghost use Rattle.hg_store.specs.declared.fault.StoreFault.TheVariants as a_fault;

use hg_base::{Failed, Id20, OutOfMemory, Path};
use std::alloc::{AllocError, AllocFailed};

/// Why something could not be stored.
#[derive(Debug, Drop)]
pub enum StoreFault {
    /// There was no memory.
    OutOfMemory,
    /// Neither a file nor a link stands at the path, or none did any more when it was read.
    Gone { path: Path },
    /// The plain store has other bytes under the identifier of the text, or that identifier is the null one.
    StoreClash { id: Id20 },
    /// The manifest would have so many bytes, over 67,108,864; 2^64 - 1 stands for more, too.
    ManifestTooLarge { size: u64 },
    /// The working copy failed, and its count of failures rose.
    TreeFailed,
    /// The files below `.hg` failed, and their count of failures rose.
    ShelfFailed,
}

impl From<Failed> for StoreFault {
    ghost from_gives = { λ _ e. e ≡ a_fault.ShelfFailed };

    fn from(_: Failed) -> StoreFault {
        StoreFault::ShelfFailed
    }
}

impl From<OutOfMemory> for StoreFault {
    ghost from_gives = { λ _ e. e ≡ a_fault.OutOfMemory };

    fn from(_: OutOfMemory) -> StoreFault {
        StoreFault::OutOfMemory
    }
}

impl From<AllocError> for StoreFault {
    ghost from_gives = { λ _ e. e ≡ a_fault.OutOfMemory };

    fn from(_: AllocError) -> StoreFault {
        StoreFault::OutOfMemory
    }
}

impl<T: Drop> From<AllocFailed<T>> for StoreFault {
    ghost from_gives = { λ _ e. e ≡ a_fault.OutOfMemory };

    fn from(_: AllocFailed<T>) -> StoreFault {
        StoreFault::OutOfMemory
    }
}
