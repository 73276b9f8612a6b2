//! Why a text is refused as a glob.

ghost use Rattle.std.specs.Prelude.{◌≡◌};
ghost use Rattle.hg_glob.specs.declared.fault.GlobFault.TheVariants as a_fault;

use hg_base::OutOfMemory;
use std::alloc::{AllocError, AllocFailed};
use thiserror::Error;

/// Why a text is refused as a glob: its length, or the fault at the least place. Places count bytes of the text.
#[derive(Clone, Copy, Debug, PartialEq, Eq, Error)]
pub enum GlobFault {
    /// No memory for the glob.
    #[error("out of memory")]
    OutOfMemory,
    /// Over 4,095 bytes.
    #[error("glob of {len} bytes")]
    TooLong { len: u64 },
    /// The `{` at this byte has no `}`.
    #[error("unbalanced brace at byte {at}")]
    Unbalanced { at: u32 },
    /// The range of a class whose first character stands at this byte ends before it begins.
    #[error("reversed range at byte {at}")]
    Range { at: u32 },
}

impl From<OutOfMemory> for GlobFault {
    ghost from_gives = { λ _ e. e ≡ a_fault.OutOfMemory };

    fn from(_: OutOfMemory) -> GlobFault {
        GlobFault::OutOfMemory
    }
}

impl From<AllocError> for GlobFault {
    ghost from_gives = { λ _ e. e ≡ a_fault.OutOfMemory };

    fn from(_: AllocError) -> GlobFault {
        GlobFault::OutOfMemory
    }
}

impl<T: Drop> From<AllocFailed<T>> for GlobFault {
    ghost from_gives = { λ _ e. e ≡ a_fault.OutOfMemory };

    fn from(_: AllocFailed<T>) -> GlobFault {
        GlobFault::OutOfMemory
    }
}
