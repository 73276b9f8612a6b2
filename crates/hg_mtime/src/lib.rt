//! Times of the working copy against those that the dirstate records: which time may be recorded, and when a recorded one says that a
//! file is unchanged (Mercurial help page internals.dirstate-v2, the flags `HAS_MTIME` and `MTIME_SECOND_AMBIGUOUS`).
//!
//! A clock moves in steps, and many file systems keep whole seconds alone. A file that was read, and changed behind it within the same
//! step, shows the same time with other bytes. So a time is recorded only where it is before a *boundary*: a time of the same clock,
//! asked before the file was looked at. What changes later then has another time. Where boundary and time are in one second the record
//! is *ambiguous*: the second was not over.
//!
//! ```text
//! let seen = Time { seconds: 5000, nanos: 9 };
//! let boundary = Time { seconds: 5000, nanos: 10 };
//! stamp_of(seen, boundary);       // Some(Stamp { seconds: 5000, nanos: 9, ambiguous: true })
//! stamp_of(boundary, boundary);   // None: it is not in the past
//! matches(stamp, seen);           // true
//! vouches(&entry, false, &stat);  // size, mode and time are the recorded ones
//! ```
//!
//! No call takes memory.
#![tactic(auto)]

mod laws;
mod stamp;
mod vouch;

pub use laws::{matches_tell, noted_vouches, stamps_tell, vouching_tells};
pub use stamp::{matches, stamp_of};
pub use vouch::vouches;
