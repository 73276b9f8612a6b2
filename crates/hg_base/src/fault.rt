//! What a call answers where memory is short or a device failed.

ghost use Rattle.std.specs.Prelude.{◌≡◌, ◌+◌, ◌-◌, ◌^◌, min};

use std::alloc::{AllocError, AllocFailed};

/// No memory could be had. Nothing else is said by it; the call that answers it left its arguments as they were.
#[derive(Clone, Copy, Debug, PartialEq, Eq)]
pub struct OutOfMemory;

/// A device failed, and its count of failures rose in this call.
#[derive(Clone, Copy, Debug, PartialEq, Eq)]
pub struct Failed;

impl From<AllocError> for OutOfMemory {
    fn from(_: AllocError) -> OutOfMemory {
        OutOfMemory
    }
}

impl<T: Drop> From<AllocFailed<T>> for OutOfMemory {
    fn from(_: AllocFailed<T>) -> OutOfMemory {
        OutOfMemory
    }
}

/// The count after one more failure; it stands still at its end.
pub fn risen(count: u64) -> u64
    ensures { result ≡ min (count + 1) (2 ^ 64 - 1) }
{
    count.saturating_add(1)
}
