//! Why a table isn't encoded.

ghost use Rattle.std.specs.Prelude.{◌≡◌};
ghost use Rattle.hg_append.specs.declared.fault.EncodeFault.TheVariants as a_fault;

use hg_base::OutOfMemory;
use std::alloc::AllocError;
use thiserror::Error;

/// Why a table isn't encoded.
#[derive(Clone, Copy, Debug, PartialEq, Eq, Error)]
pub enum EncodeFault {
    /// No memory for the bytes.
    #[error("out of memory")]
    OutOfMemory,
    /// The data file would have so many bytes (or more, where it is the greatest number), and has at most 4,294,967,295.
    #[error("data file of {size} bytes")]
    TooLarge { size: u64 },
    /// The identifier of the data file is the greatest, and none follows it.
    #[error("no identifier is left")]
    IdsSpent,
}

impl From<OutOfMemory> for EncodeFault {
    ghost from_gives = { λ _ e. e ≡ a_fault.OutOfMemory };

    fn from(_: OutOfMemory) -> EncodeFault {
        EncodeFault::OutOfMemory
    }
}

impl From<AllocError> for EncodeFault {
    ghost from_gives = { λ _ e. e ≡ a_fault.OutOfMemory };

    fn from(_: AllocError) -> EncodeFault {
        EncodeFault::OutOfMemory
    }
}
