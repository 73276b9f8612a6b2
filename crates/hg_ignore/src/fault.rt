//! Why an ignore text isn't read.

ghost use Rattle.std.specs.Prelude.{◌≡◌};
ghost use Rattle.hg_ignore.specs.declared.fault.IgnoreFault.TheVariants as a_fault;

use hg_base::OutOfMemory;
use std::alloc::{AllocError, AllocFailed};

/// Why an ignore text isn't read. Lines are counted from 1.
#[derive(Debug, Drop, PartialEq, Eq)]
pub enum IgnoreFault {
    /// No memory for the text or what its lines say.
    OutOfMemory,
    /// The tree failed, and its count of failures rose.
    Failed,
    /// Over 1,048,576 bytes.
    IgnoreTooLarge { size: u64 },
    /// At this byte the text isn't UTF-8.
    IgnoreText { at: u32 },
    /// The line's glob is none.
    BadGlob { line: u32 },
    /// The line's regexp is none, or nested too deep.
    BadRegexp { line: u32 },
    /// The line's regexp was refused for its size.
    RegexpTooBig { line: u32 },
    /// The line names another file, which isn't read yet.
    BadInclude { line: u32 },
}

impl From<OutOfMemory> for IgnoreFault {
    ghost from_gives = { λ _ e. e ≡ a_fault.OutOfMemory };

    fn from(_: OutOfMemory) -> IgnoreFault {
        IgnoreFault::OutOfMemory
    }
}

impl From<AllocError> for IgnoreFault {
    ghost from_gives = { λ _ e. e ≡ a_fault.OutOfMemory };

    fn from(_: AllocError) -> IgnoreFault {
        IgnoreFault::OutOfMemory
    }
}

impl<T: Drop> From<AllocFailed<T>> for IgnoreFault {
    ghost from_gives = { λ _ e. e ≡ a_fault.OutOfMemory };

    fn from(_: AllocFailed<T>) -> IgnoreFault {
        IgnoreFault::OutOfMemory
    }
}
