//! The numbers that are written for a node, without an encoding where those that it has are the same.

ghost use Rattle.std.specs.Prelude.{◌≡◌, true, option_map};
ghost use Rattle.hg_entry.specs.Entry.{cache_of, entry_of, is_timely, cache_view, view};
ghost use Rattle.hg_nodes.specs.Written as written;
ghost use Rattle.hg_nodes.specs.Written.{AreTheirs, AreWritten, fields_for, is_as_written};

use hg_base::Stamp;
use hg_entry::bits::{has, has_entry};
use hg_entry::{Entry, Fields, bits as bit, dir_fields, dir_stamp};

// Whether a size is recorded, or nothing that counts beside one alone.
#[inline(always)]
fn is_sized(f: Fields) -> bool
    ensures { result ≡ written.is_sized f }
{
    if has(f.flags, bit::HAS_MODE_AND_SIZE) {
        return true;
    }
    f.size == 0 && !has(f.flags, bit::MODE_EXEC_PERM) && !has(f.flags, bit::MODE_IS_SYMLINK)
}

// Whether a time is recorded and no change is expected, or nothing of a time is recorded.
#[inline(always)]
fn is_timed(f: Fields) -> bool
    ensures { result ≡ written.is_timed f }
{
    if has(f.flags, bit::HAS_MTIME) {
        return !has(f.flags, bit::EXPECTED_STATE_IS_MODIFIED);
    }
    f.seconds == 0 && f.nanos == 0 && !has(f.flags, bit::MTIME_SECOND_AMBIGUOUS)
}

// Whether numbers are those that their entry is written as.
#[inline(always)]
fn is_as_written(f: Fields) -> bool
    ensures is { result ≡ is_as_written f }
    ensures theirs { result ≡ true → AreTheirs f }
{
    if f.flags >= 1 << bit::DIRECTORY {
        return false;
    }
    if !has_entry(f.flags) {
        return false;
    }
    if !is_sized(f) {
        return false;
    }
    is_timed(f)
}

/// The numbers that are written for an entry, or for a node without one.
#[inline(never)]
pub fn written_for(entry: Option<Entry>, cache: Option<Stamp>) -> Fields
    ensures { AreWritten (option_map view entry) (option_map cache_view cache) result }
{
    match entry {
        None => dir_fields(cache),
        Some(entry) => entry.write(),
    }
}

// The numbers that are written for what others say.
#[inline(never)]
fn written_anew(f: Fields) -> Fields
    requires { is_timely f ≡ true }
    ensures { AreWritten (entry_of f) (cache_of f) result }
{
    written_for(Entry::read(f), dir_stamp(f))
}

/// The numbers that are written for a node which has these; mostly they are the same.
#[inline(always)]
pub fn fields_of_node(f: Fields) -> Fields
    requires { is_timely f ≡ true }
    ensures { AreWritten (entry_of f) (cache_of f) result }
{
    if is_as_written(f) {
        return f;
    }
    // (each number by itself, so that those of the first way aren't laid out in memory beside these)
    let Fields {
        flags,
        size,
        seconds,
        nanos,
    } = written_anew(f);
    Fields {
        flags,
        size,
        seconds,
        nanos,
    }
}
