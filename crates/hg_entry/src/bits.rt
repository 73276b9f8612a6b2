//! The flags of a node by their names in internals.dirstate-v2, each as the number of its bit, and the tests of them.

ghost use Rattle.std.specs.Prelude.{◌≡◌, ◌<◌};
ghost use Rattle.hg_entry.specs.Entry as entry;
ghost use Rattle.hg_entry.specs.Flags as named;

pub const WDIR_TRACKED: u32 = 0;

pub const P1_TRACKED: u32 = 1;

pub const P2_INFO: u32 = 2;

pub const MODE_EXEC_PERM: u32 = 3;

pub const MODE_IS_SYMLINK: u32 = 4;

pub const HAS_FALLBACK_EXEC: u32 = 5;

pub const EXPECTED_STATE_IS_MODIFIED: u32 = 9;

pub const HAS_MODE_AND_SIZE: u32 = 10;

pub const HAS_MTIME: u32 = 11;

pub const MTIME_SECOND_AMBIGUOUS: u32 = 12;

pub const DIRECTORY: u32 = 13;

pub const ALL_UNKNOWN_RECORDED: u32 = 14;

/// Whether the bit of this number is set.
pub fn has(flags: u16, bit: u32) -> bool
    requires { bit < 16 }
    ensures { result ≡ named.has flags bit }
{
    (flags >> bit) % 2 == 1
}

/// Whether one of the three flags is set that make an entry: tracked, in the first parent, marked for the second.
pub fn has_entry(flags: u16) -> bool
    ensures { result ≡ entry.has_entry flags }
{
    has(flags, WDIR_TRACKED) || has(flags, P1_TRACKED) || has(flags, P2_INFO)
}
