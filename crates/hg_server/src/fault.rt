//! Why a server ended before its input did.

use hg_base::OutOfMemory;
use std::alloc::AllocError;

/// Why a server ended before its input did. Requests are counted from 1.
#[derive(Clone, Copy, Debug, PartialEq, Eq)]
pub enum ServeFault {
    /// There was no memory, for a request's bytes or for its run.
    OutOfMemory,
    /// The source failed, and its count of failures rose in this call.
    InFailed,
    /// The sink failed, and its count of failures rose in this call.
    OutFailed,
    /// Request `n` doesn't begin with the line `runcommand`.
    ServerCommand { n: u64 },
    /// The input ends inside request `n`.
    ServerShort { n: u64 },
    /// Request `n` says that its words have `size` bytes, which is over 1,048,576.
    ServerTooLarge { n: u64, size: u32 },
    /// The words of request `n` aren't UTF-8.
    ServerText { n: u64 },
    /// There is more behind request 4,294,967,296.
    ServerLimit,
}

impl From<OutOfMemory> for ServeFault {
    ghost use Rattle.std.specs.Prelude.{◌≡◌};
    ghost use Rattle.hg_server.specs.declared.fault.ServeFault.TheVariants as a_fault;

    ghost from_gives = { λ _ e. e ≡ a_fault.OutOfMemory };

    fn from(_: OutOfMemory) -> ServeFault {
        ServeFault::OutOfMemory
    }
}

impl From<AllocError> for ServeFault {
    ghost use Rattle.std.specs.Prelude.{◌≡◌};
    ghost use Rattle.hg_server.specs.declared.fault.ServeFault.TheVariants as a_fault;

    ghost from_gives = { λ _ e. e ≡ a_fault.OutOfMemory };

    fn from(_: AllocError) -> ServeFault {
        ServeFault::OutOfMemory
    }
}
