//! Entries and cached directories, read from the fields of a node.

ghost use Rattle.std.specs.Prelude.{◌≡◌, not, ◌&&◌, ◌||◌, if◌then◌else◌, IsTrue, ◌/◌, ◌%◌, ◌^◌};
ghost use Rattle.std.specs.Option.{option_map};
ghost use Rattle.hg_entry.specs.Entry.{cache_of, cache_view, entry_of, is_timely, stamp_view, time_of, view};
ghost use Rattle.hg_entry.specs.Flags.{has, has_mtime};

use crate::bits as bit;
use crate::bits::{has, has_entry};
use crate::entry::{Entry, Fields};
use hg_base::Stamp;

impl Entry {
    /// The entry of a node, `None` where it has none. A mode counts only beside a size, a time only where no change is expected.
    pub fn read(f: Fields) -> Option<Entry>
        requires { IsTrue (is_timely f) }
        ensures { option_map view result ≡ entry_of f }
    {
        if !has_entry(f.flags) {
            return None;
        }
        let modified = has(f.flags, bit::EXPECTED_STATE_IS_MODIFIED);
        let known = has(f.flags, bit::HAS_MODE_AND_SIZE);
        Some(Entry {
            w: has(f.flags, bit::WDIR_TRACKED),
            p1: has(f.flags, bit::P1_TRACKED),
            p2: has(f.flags, bit::P2_INFO),
            exec: both(known, has(f.flags, bit::MODE_EXEC_PERM)),
            link: both(known, has(f.flags, bit::MODE_IS_SYMLINK)),
            size: known_size(f, known),
            stamp: clean_time(f, modified),
            modified,
            fallback: ((f.flags >> bit::HAS_FALLBACK_EXEC) % 16) as u8,
        })
    }
}

/// The time at which all children of a directory were seen, `None` where none is recorded or the node has an entry.
pub fn dir_stamp(f: Fields) -> Option<Stamp>
    requires { IsTrue (is_timely f) }
    ensures { option_map cache_view result ≡ cache_of f }
{
    if has_entry(f.flags) {
        return None;
    }
    if !has(f.flags, bit::HAS_MTIME) {
        return None;
    }
    if !has(f.flags, bit::DIRECTORY) {
        return None;
    }
    if !has(f.flags, bit::ALL_UNKNOWN_RECORDED) {
        return None;
    }
    Some(recorded_time(f))
}

fn both(a: bool, b: bool) -> bool
    ensures { result ≡ (a && b) }
{
    a && b
}

// The size, where it is known.
fn known_size(f: Fields, known: bool) -> Option<u32>
    ensures { result ≡ (if known then Some f.size else None) }
{
    if known { Some(f.size) } else { None }
}

// The time, where one is recorded and no change is expected.
fn clean_time(f: Fields, modified: bool) -> Option<Stamp>
    requires { IsTrue (is_timely f) }
    ensures { option_map stamp_view result ≡ (if has f.flags has_mtime && not modified then Some (time_of f) else None) }
{
    if modified {
        return None;
    }
    if !has(f.flags, bit::HAS_MTIME) {
        return None;
    }
    Some(recorded_time(f))
}

// The time that the fields record.
fn recorded_time(f: Fields) -> Stamp
    requires timely { IsTrue (is_timely f) }
    requires recorded { IsTrue (has f.flags has_mtime) }
    ensures { stamp_view result ≡ time_of f }
{
    Stamp {
        seconds: f.seconds,
        nanos: f.nanos,
        ambiguous: has(f.flags, bit::MTIME_SECOND_AMBIGUOUS),
    }
}
