//! The types: an entry, its fields in the file, what it says of the file, and a row of the flat map.

ghost use Rattle.std.specs.Prelude.{◌<◌, not, ◌||◌, IsTrue, is_some, is_none};

use hg_base::{PathRef, Stamp};

/// What is recorded of one file.
#[derive(Clone, Copy, Debug, PartialEq, Eq)]
pub struct Entry {
    /// The file is tracked (the flag `WDIR_TRACKED`).
    pub w: bool,
    /// The first parent has the file (`P1_TRACKED`).
    pub p1: bool,
    /// A merge took something from the second parent (`P2_INFO`).
    pub p2: bool,
    /// The file was executable when its size was recorded (`MODE_EXEC_PERM`).
    pub exec: bool,
    /// It was a symbolic link (`MODE_IS_SYMLINK`).
    pub link: bool,
    /// The low 31 bits of its size in bytes, where known (`HAS_MODE_AND_SIZE`).
    pub size: Option<u32>,
    /// The modification time at which it was clean, where known (`HAS_MTIME`).
    pub stamp: Option<Stamp>,
    /// The file is known to differ from the parent's (`EXPECTED_STATE_IS_MODIFIED`).
    pub modified: bool,
    /// The four bits `HAS_FALLBACK_EXEC` to `FALLBACK_SYMLINK`, the first lowest. They are carried and never consulted.
    pub fallback: u8,
    pub ghost is_entry: { IsTrue (w || p1 || p2) },
    pub ghost mode_with_size: { IsTrue (is_some size || not (exec || link)) },
    pub ghost time_of_clean: { IsTrue (not modified || is_none stamp) },
    pub ghost four_bits: { fallback < 16 },
}

/// What an entry says of its file.
#[derive(Clone, Copy, Debug, PartialEq, Eq)]
pub enum State {
    /// Tracked, and in no parent.
    Added,
    /// Not tracked any more.
    Removed,
    /// Tracked, and in both parents.
    Merged,
    /// Tracked, and in one parent.
    Normal,
}

/// The numbers of a node that an entry or a cached directory is read from.
#[derive(Clone, Copy, Debug, PartialEq, Eq)]
pub struct Fields {
    /// The flags, sixteen bits.
    pub flags: u16,
    /// The size, in bytes.
    pub size: u32,
    /// The time, in seconds since 1970-01-01 UTC.
    pub seconds: u32,
    /// Its nanoseconds.
    pub nanos: u32,
}

/// One row of the flat map: an entry and its copy source.
#[derive(Clone, Copy, Debug)]
pub struct Item<'a> {
    pub entry: Entry,
    pub source: Option<PathRef<'a>>,
}
