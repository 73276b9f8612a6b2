//! What the program does before and beside `run`: texts of its own, where a command may begin, and further lines behind those of a command.
//!
//! `place` reads the words once, and makes the file words of a command paths from the root. `begun_at` tells where a command is started, and `guard` says by the
//! requirements of the repository (`.hg/requires`) whether it may begin. `carry` runs the command, or ends it where it may not begin, with a line `abort: ...`
//! and one that says what next. `end` prints, behind the line of a fault, why a device failed, which word is no flag, or what to do, and
//! answers what the program ends with.
//!
//! ```text
//! own_text(alloc, &words)?;                            // Some("hgtrack 0.1.0\n") of `--version` alone; the help of `add` of `add --help`
//! place(alloc, Some("src"), words)?;                   // of `add main.c`: `add -- src/main.c`
//! guard(Some("dirstate-v2\nlargefiles\n"), None, &placed);  // Err(Refused { why: Unsupported, what: "largefiles" })
//! guard(Some("store\n"), None, &placed);               // Err(Refused { why: OldDirstate, what: "dirstate-v2" })
//! ```
#![tactic(auto)]

mod advice;
mod carrying;
mod flags;
mod further;
mod guarding;
mod laws;
mod marks;
mod own;
mod pages;
mod pieces;
mod placing;
mod reading;
mod refusing;
mod requirement;
mod start;

pub use advice::Reasons;
pub use carrying::{Ran, carry, end};
pub use guarding::{Refused, Why, guard};
pub use laws::begins_or_not;
pub use own::{own_text, print};
pub use placing::{Placed, place, unreached, unread, unreadable};
pub use reading::{Requires, Unreadable};
pub use start::{Here, begun_at};
