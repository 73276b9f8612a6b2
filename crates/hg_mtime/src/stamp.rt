//! Which times may be recorded, and when a recorded one is shown again.

ghost use Rattle.std.specs.Prelude.{◌≡◌, ◌&&◌, ◌==◌, pos, nat_lt};
ghost use Rattle.std.specs.Option.{option_map};
ghost use Rattle.std.specs.Ordering.{int_eq};
ghost use Rattle.hg_entry.specs.Entry.{stamp_view};
ghost use Rattle.hg_mtime.specs.Stamps as stamps;

use hg_base::{Stamp, Time};

/// What may be recorded of a time that was seen behind a boundary of the same clock (internals.dirstate-v2, `HAS_MTIME`): the seconds since
/// 1970-01-01 UTC, in 31 bits, and the nanoseconds. Nothing, where the time isn't before the boundary, where 31 bits don't hold its
/// seconds, and where it is in the boundary's second without nanoseconds, as file systems show it that keep none. It is ambiguous
/// (`MTIME_SECOND_AMBIGUOUS`) where it is in that second.
pub fn stamp_of(time: Time, boundary: Time) -> Option<Stamp>
    ensures { option_map stamp_view result ≡ stamps.stamp_of time boundary }
{
    if !is_before(time, boundary) {
        return None;
    }
    if is_coarse(time, boundary) {
        return None;
    }
    dated(time, is_same_second(time, boundary))
}

/// Whether a time is the recorded one. An ambiguous record without nanoseconds matches none: Mercurial writes no such record, and what it says
/// can't be told from a later change in its second. Where only one of the two has no nanoseconds, Mercurial takes equal seconds for a
/// match; here they are none, and the bytes are read.
pub fn matches(stamp: Stamp, time: Time) -> bool
    ensures { result ≡ stamps.matches (stamp_view stamp) time }
{
    is_at(time, stamp) && !is_loose(stamp)
}

fn is_same_second(a: Time, b: Time) -> bool
    ensures { result ≡ stamps.is_same_second a b }
{
    a.seconds == b.seconds
}

fn is_before(a: Time, b: Time) -> bool
    ensures { result ≡ stamps.is_before a b }
{
    a.seconds < b.seconds || is_before_within(a, b)
}

// A time of the same second is earlier.
fn is_before_within(a: Time, b: Time) -> bool
    ensures { result ≡ (stamps.is_same_second a b && nat_lt a.nanos b.nanos) }
{
    is_same_second(a, b) && a.nanos < b.nanos
}

fn is_coarse(time: Time, boundary: Time) -> bool
    ensures { result ≡ stamps.is_coarse time boundary }
{
    is_same_second(time, boundary) && time.nanos == 0
}

// The record of a time, where 31 bits hold its seconds.
fn dated(time: Time, ambiguous: bool) -> Option<Stamp>
    ensures { option_map stamp_view result ≡ stamps.dated time.seconds time.nanos ambiguous }
{
    let Ok(seconds) = u32::try_from(time.seconds) else {
        return None;
    };
    if seconds >= 0x8000_0000 {
        return None;
    }
    Some(Stamp {
        seconds,
        nanos: time.nanos,
        ambiguous,
    })
}

fn is_at(time: Time, stamp: Stamp) -> bool
    ensures { result ≡ (int_eq time.seconds (pos stamp.seconds) && time.nanos == stamp.nanos) }
{
    time.seconds == i64::from(stamp.seconds) && time.nanos == stamp.nanos
}

fn is_loose(stamp: Stamp) -> bool
    ensures { result ≡ (stamp.ambiguous && stamp.nanos == 0) }
{
    stamp.ambiguous && stamp.nanos == 0
}
