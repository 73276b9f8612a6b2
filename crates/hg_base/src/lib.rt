//! The ground of the dirstate tracker: paths, times, kinds of things, identifiers of commits, owned bytes and texts.
//!
//! A path is one or more components joined by `/`, as Mercurial names files: relative to the root of the working copy, in UTF-8,
//! with no component that is empty, `.` or `..`, and never below `.hg`. `PathRef` borrows the text of a path and `Path` owns it;
//! both exist only for texts that are paths, so nothing above this crate tests one again.
//!
//! ```text
//! let path = PathRef::read("src/main.c")?;
//! path.base();    // "main.c"
//! path.parent();  // Some(PathRef("src"))
//! PathRef::read("a//b");  // Err(PathFault::Component { at: 2 })
//! Path::join(alloc, path.parent(), "lib.c")?;  // src/lib.c
//! ```
//!
//! `is_component` tests one name, `valid_name` reads one from bytes, `is_below` and `child_name` where a path stands; what these words mean, and what a path is, stands
//! in `specs/PathText.antt`, and why a text is none in `specs/PathRefusal.antt`. Lemmas on them for the crates above are in `proofs/`:
//! `Below`, `Children`, `Components`, `Compared`, `Paths`, and `Faults` for counts of failures.
//!
//! `put` writes the parts of a format one behind another, and `read_past` reads what lies past a place of bytes in memory. Devices (the working copy, `.hg`, input and output) count their failures;
//! what "a count rose" means stands here once, in `specs/Fault.antt`, and what a read of a part of a file answers in `specs/Reads.antt`. `Calls` counts those of a device in memory, which fails at the calls that it was told to.
#![tactic(auto)]

mod bytes;
mod calls;
mod component;
mod fault;
mod id;
mod names;
mod order;
mod owned;
mod path;
mod rules;
mod stat;
mod time;
mod words;

pub use bytes::{put, read_past};
pub use calls::Calls;
pub use component::valid_name;
pub use fault::{Failed, OutOfMemory, risen};
pub use id::Id20;
pub use names::makes_path;
pub use owned::{Blob, Text};
pub use path::{Path, PathFault, PathRef};
pub use rules::{child_name, is_below, is_component};
pub use stat::{Got, Kind, Stat};
pub use time::{Stamp, Time};
pub use words::Words;
