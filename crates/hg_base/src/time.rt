//! Times of the working copy, and the stamps that the dirstate keeps of them.

ghost use Rattle.std.specs.Prelude.{◌<◌, ◌^◌};

/// A moment: seconds since 1970-01-01 UTC, and nanoseconds into that second.
#[derive(Clone, Copy, Debug, PartialEq, Eq)]
pub struct Time {
    pub seconds: i64,
    pub nanos: u32,
    pub ghost in_second: { nanos < 10 ^ 9 },
}

/// A recorded modification time (internals.dirstate-v2, the flags `HAS_MTIME` and `MTIME_SECOND_AMBIGUOUS`): 31 bits of seconds
/// since 1970-01-01 UTC, nanoseconds, and whether the second had not ended when it was recorded.
#[derive(Clone, Copy, Debug, PartialEq, Eq)]
pub struct Stamp {
    pub seconds: u32,
    pub nanos: u32,
    pub ambiguous: bool,
    pub ghost in_range: { seconds < 2 ^ 31 },
    pub ghost in_second: { nanos < 10 ^ 9 },
}
