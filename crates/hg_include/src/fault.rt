//! Why the files of an ignore text aren't read.

ghost use Rattle.std.specs.Prelude.{◌≡◌};
ghost use Rattle.hg_include.specs.declared.fault.IncludeFault.TheVariants as a_fault;

use hg_base::{OutOfMemory, Path};
use std::alloc::{AllocError, AllocFailed};

/// What is wrong with a file of ignore patterns. Lines are counted from 1.
#[derive(Clone, Copy, Debug, PartialEq, Eq)]
pub enum Bad {
    /// Over 1,048,576 bytes: the size that was stated, or one byte more than that where so much was read behind a smaller statement.
    TooLarge { size: u64 },
    /// At this byte it isn't UTF-8.
    Text { at: u32 },
    /// The line's glob is none.
    Glob { line: u32 },
    /// The line's regexp is none, or nested too deep.
    Regexp { line: u32 },
    /// The line's regexp was refused for its size.
    RegexpSize { line: u32 },
    /// What the line names is no path, or would be the 257th pair of a file and a base.
    Include { line: u32 },
}

/// Why the files of an ignore text aren't read.
#[derive(Debug, Drop)]
pub enum IncludeFault {
    /// No memory for a text or what its lines say.
    OutOfMemory,
    /// The tree failed, and its count of failures rose.
    Failed,
    /// A file is refused; the first in the order of reading.
    Bad { file: Path, what: Bad },
}

impl From<OutOfMemory> for IncludeFault {
    ghost from_gives = { λ _ e. e ≡ a_fault.OutOfMemory };

    fn from(_: OutOfMemory) -> IncludeFault {
        IncludeFault::OutOfMemory
    }
}

impl From<AllocError> for IncludeFault {
    ghost from_gives = { λ _ e. e ≡ a_fault.OutOfMemory };

    fn from(_: AllocError) -> IncludeFault {
        IncludeFault::OutOfMemory
    }
}

impl<T: Drop> From<AllocFailed<T>> for IncludeFault {
    ghost from_gives = { λ _ e. e ≡ a_fault.OutOfMemory };

    fn from(_: AllocFailed<T>) -> IncludeFault {
        IncludeFault::OutOfMemory
    }
}
