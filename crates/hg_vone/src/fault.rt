//! Why a dirstate of the first version isn't read.

ghost use Rattle.std.specs.Prelude.{◌≡◌};
ghost use Rattle.hg_vone.specs.declared.fault.VoneFault.TheVariants as a_fault;

use hg_base::OutOfMemory;
use std::alloc::{AllocError, AllocFailed};
use thiserror::Error;

/// The first fault of a dirstate of the first version, entry by entry. `at` is the byte place in the file where the entry begins.
#[derive(Clone, Copy, Debug, PartialEq, Eq, Error)]
pub enum VoneFault {
    /// No memory for what is read.
    #[error("out of memory")]
    OutOfMemory,
    /// The two parents (place 0), the numbers of the entry or its name aren't all there: the file was cut off.
    #[error("entry at {at}: short")]
    V1Short { at: u32 },
    /// The state is none of `n`, `a`, `r` and `m`.
    #[error("entry at {at}: state")]
    V1State { at: u32 },
    /// The name or the copy source isn't UTF-8 or isn't a path.
    #[error("entry at {at}: path")]
    V1Path { at: u32 },
    /// An earlier entry is of the same path.
    #[error("entry at {at}: twice")]
    V1Twice { at: u32 },
    /// The file has so many bytes, over 67,108,864. A reading of bytes in memory never answers it: it is for who reads the file.
    #[error("{size} bytes")]
    V1TooLarge { size: u64 },
}

impl From<OutOfMemory> for VoneFault {
    ghost from_gives = { λ _ e. e ≡ a_fault.OutOfMemory };

    fn from(_: OutOfMemory) -> VoneFault {
        VoneFault::OutOfMemory
    }
}

impl From<AllocError> for VoneFault {
    ghost from_gives = { λ _ e. e ≡ a_fault.OutOfMemory };

    fn from(_: AllocError) -> VoneFault {
        VoneFault::OutOfMemory
    }
}

impl<T: Drop> From<AllocFailed<T>> for VoneFault {
    ghost from_gives = { λ _ e. e ≡ a_fault.OutOfMemory };

    fn from(_: AllocFailed<T>) -> VoneFault {
        VoneFault::OutOfMemory
    }
}
