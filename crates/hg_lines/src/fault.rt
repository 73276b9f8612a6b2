//! Why no further line was read.

use hg_base::{Failed, OutOfMemory};
use std::alloc::AllocError;

/// Why no further line was read.
#[derive(Clone, Copy, Debug, PartialEq, Eq)]
pub enum LineFault {
    /// There was no memory.
    OutOfMemory,
    /// The source failed, and its count of failures rose in this call.
    Failed,
    /// The line of that number, from 1, is over 65,536 bytes long.
    Line { n: u32 },
    /// The line of that number, from 1, isn't UTF-8.
    Text { n: u32 },
    /// The script has at least so many bytes, which is one too many.
    TooLarge { size: u64 },
}

impl From<OutOfMemory> for LineFault {
    ghost use Rattle.std.specs.Prelude.{◌≡◌};
    ghost use Rattle.hg_lines.specs.declared.fault.LineFault.TheVariants as a_fault;

    ghost from_gives = { λ _ e. e ≡ a_fault.OutOfMemory };

    fn from(_: OutOfMemory) -> LineFault {
        LineFault::OutOfMemory
    }
}

impl From<AllocError> for LineFault {
    ghost use Rattle.std.specs.Prelude.{◌≡◌};
    ghost use Rattle.hg_lines.specs.declared.fault.LineFault.TheVariants as a_fault;

    ghost from_gives = { λ _ e. e ≡ a_fault.OutOfMemory };

    fn from(_: AllocError) -> LineFault {
        LineFault::OutOfMemory
    }
}

impl From<Failed> for LineFault {
    ghost use Rattle.std.specs.Prelude.{◌≡◌};
    ghost use Rattle.hg_lines.specs.declared.fault.LineFault.TheVariants as a_fault;

    ghost from_gives = { λ _ e. e ≡ a_fault.Failed };

    fn from(_: Failed) -> LineFault {
        LineFault::Failed
    }
}
