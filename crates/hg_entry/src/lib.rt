//! Entries of the dirstate: what is recorded of a file, as plain values, and the changes that commands make to them.
//!
//! The fields are those of a node of dirstate-v2 (Mercurial help page internals.dirstate-v2, "The data file format"): sixteen flags,
//! a size and a time. A node has an entry where one of the flags `WDIR_TRACKED`, `P1_TRACKED` and `P2_INFO` is set; a node without
//! entry may record the time at which all children of its directory were seen.
//!
//! `Entry` is one entry, `Fields` its numbers in the file, `State` what it says of the file. `specs/Table.antt` says what a whole
//! dirstate is: the table of all that is recorded, and the flat map that `status` depends on.
//!
//! ```text
//! let fields = Fields { flags: 3, size: 0, seconds: 0, nanos: 0 };
//! Entry::read(fields);           // Some(Entry { w: true, p1: true, .. })
//! entry.state();                 // State::Normal
//! entry.set_untracked();         // true: the first parent still has the file
//! ```
#![tactic(auto)]

pub mod bits;
mod entry;
mod reading;
mod steps;
mod writing;

pub use entry::{Entry, Fields, Item, State};
pub use reading::dir_stamp;
pub use writing::dir_fields;
