//! Why words are no command.

use hg_base::OutOfMemory;
use std::alloc::{AllocError, AllocFailed};

/// Why words are no command.
#[derive(Clone, Copy, Debug, PartialEq, Eq)]
pub enum WordsFault {
    /// There was no memory.
    OutOfMemory,
    /// There are no words.
    NoCommand,
    /// The first word names no command.
    UnknownCommand,
    /// The command has no such flag, takes more words or fewer, or no such number.
    Usage,
    /// The word of this place, from 1 and without the flags, isn't 40 hexadecimal digits.
    BadNode { word: u32 },
}

impl From<OutOfMemory> for WordsFault {
    ghost use Rattle.std.specs.Prelude.{◌≡◌};
    ghost use Rattle.hg_words.specs.declared.fault.WordsFault.TheVariants as a_fault;

    ghost from_gives = { λ _ e. e ≡ a_fault.OutOfMemory };

    fn from(_: OutOfMemory) -> WordsFault {
        WordsFault::OutOfMemory
    }
}

impl From<AllocError> for WordsFault {
    ghost use Rattle.std.specs.Prelude.{◌≡◌};
    ghost use Rattle.hg_words.specs.declared.fault.WordsFault.TheVariants as a_fault;

    ghost from_gives = { λ _ e. e ≡ a_fault.OutOfMemory };

    fn from(_: AllocError) -> WordsFault {
        WordsFault::OutOfMemory
    }
}

impl<T: Drop> From<AllocFailed<T>> for WordsFault {
    ghost use Rattle.std.specs.Prelude.{◌≡◌};
    ghost use Rattle.hg_words.specs.declared.fault.WordsFault.TheVariants as a_fault;

    ghost from_gives = { λ _ e. e ≡ a_fault.OutOfMemory };

    fn from(_: AllocFailed<T>) -> WordsFault {
        WordsFault::OutOfMemory
    }
}
