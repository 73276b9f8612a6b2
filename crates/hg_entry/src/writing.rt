//! Entries and cached directories, written as the fields of a node.

ghost use Rattle.std.specs.Prelude.{◌≡◌, ◌≤◌, ◌<◌, ◌^◌, Some};
ghost use Rattle.std.specs.Option.{option_map};
ghost use Rattle.hg_entry.specs.Flags.{flag};
ghost use Rattle.hg_entry.specs.Entry.{cache_of, cache_view, entry_of, stamp_view, view};
ghost use Rattle.hg_entry.specs.Written.{or_zero, seconds_of, nanos_of, is_ambiguous, flags_of, fields_of, cache_flags, cache_fields};

use crate::bits as bit;
use crate::entry::{Entry, Fields};
use hg_base::Stamp;

impl Entry {
    /// The fields of a node with this entry; what is absent is written as zero.
    pub fn write(&self) -> Fields
        ensures fields { result ≡ fields_of (view self.now) }
        // Read again, they are the same entry.
        ensures back { entry_of result ≡ Some (view self.now) }
    {
        self.fields()
    }

    fn fields(&self) -> Fields
        ensures { result ≡ fields_of (view self.now) }
    {
        Fields {
            flags: self.flags(),
            size: self.size.unwrap_or(0),
            seconds: seconds(self.stamp),
            nanos: nanos(self.stamp),
        }
    }

    fn flags(&self) -> u16
        ensures { result ≡ flags_of (view self.now) }
    {
        flag(self.w, bit::WDIR_TRACKED)
            + flag(self.p1, bit::P1_TRACKED)
            + flag(self.p2, bit::P2_INFO)
            + flag(self.exec, bit::MODE_EXEC_PERM)
            + flag(self.link, bit::MODE_IS_SYMLINK)
            + self.fallback as u16 * (1 << bit::HAS_FALLBACK_EXEC)
            + flag(self.modified, bit::EXPECTED_STATE_IS_MODIFIED)
            + flag(self.size.is_some(), bit::HAS_MODE_AND_SIZE)
            + flag(self.stamp.is_some(), bit::HAS_MTIME)
            + flag(is_ambiguous(self.stamp), bit::MTIME_SECOND_AMBIGUOUS)
    }
}

/// The fields of a node without entry, with or without the time of a cached directory.
pub fn dir_fields(s: Option<Stamp>) -> Fields
    ensures fields { result ≡ cache_fields (option_map cache_view s) }
    // Read again, they are the same time.
    ensures back { cache_of result ≡ option_map cache_view s }
{
    Fields {
        flags: dir_flags(s),
        size: 0,
        seconds: seconds(s),
        nanos: nanos(s),
    }
}

fn dir_flags(s: Option<Stamp>) -> u16
    ensures { result ≡ cache_flags (option_map cache_view s) }
{
    match s {
        None => 0,
        Some(s) => {
            let recorded = flag(true, bit::HAS_MTIME)
                + flag(s.ambiguous, bit::MTIME_SECOND_AMBIGUOUS);
            recorded + flag(true, bit::DIRECTORY) + flag(true, bit::ALL_UNKNOWN_RECORDED)
        }
    }
}

// What a flag adds, where it is set.
fn flag(set: bool, bit: u32) -> u16
    requires { bit < 16 }
    ensures value { result ≡ flag set bit }
    ensures bound { result ≤ 2 ^ bit }
{
    if set { 1 << bit } else { 0 }
}

fn seconds(s: Option<Stamp>) -> u32
    ensures { result ≡ seconds_of (option_map stamp_view s) }
{
    match s {
        None => 0,
        Some(s) => s.seconds,
    }
}

fn nanos(s: Option<Stamp>) -> u32
    ensures { result ≡ nanos_of (option_map stamp_view s) }
{
    match s {
        None => 0,
        Some(s) => s.nanos,
    }
}

fn is_ambiguous(s: Option<Stamp>) -> bool
    ensures { result ≡ is_ambiguous (option_map stamp_view s) }
{
    match s {
        None => false,
        Some(s) => s.ambiguous,
    }
}
