//! Why a manifest could not be loaded.

ghost use Rattle.std.specs.Prelude.{◌≡◌};
ghost use Rattle.hg_manifest.specs.declared.fault.ManifestFault.TheVariants as a_fault;

use hg_base::{Id20, OutOfMemory};
use std::alloc::{AllocError, AllocFailed};

/// Why a manifest could not be loaded.
#[derive(Clone, Copy, Debug, PartialEq, Eq)]
pub enum ManifestFault {
    /// There was no memory.
    OutOfMemory,
    /// The files below `.hg` failed, and their count of failures rose.
    Failed,
    /// The manifest's file is absent.
    NoManifest { id: Id20 },
    /// It has so many bytes, over 67,108,864.
    ManifestTooLarge { size: u64 },
    /// The line of that number, from 1, has not the form of one.
    ManifestLine { line: u32 },
    /// The path of that line, from 1, is not greater than that of the line before.
    ManifestOrder { line: u32 },
}

impl From<OutOfMemory> for ManifestFault {
    ghost from_gives = { λ _ e. e ≡ a_fault.OutOfMemory };

    fn from(_: OutOfMemory) -> ManifestFault {
        ManifestFault::OutOfMemory
    }
}

impl From<AllocError> for ManifestFault {
    ghost from_gives = { λ _ e. e ≡ a_fault.OutOfMemory };

    fn from(_: AllocError) -> ManifestFault {
        ManifestFault::OutOfMemory
    }
}

impl<T: Drop> From<AllocFailed<T>> for ManifestFault {
    ghost from_gives = { λ _ e. e ≡ a_fault.OutOfMemory };

    fn from(_: AllocFailed<T>) -> ManifestFault {
        ManifestFault::OutOfMemory
    }
}
