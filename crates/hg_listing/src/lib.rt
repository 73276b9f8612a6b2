//! What a status lists: its rows with their letters, which letters are asked for, and why it could not be listed.
//!
//! A status tells of each path whether it is tracked and what became of it since the first parent (help topic `status`). The rows stand in groups, `M A R ! ? I C`,
//! and in each by the bytes of their paths. Which rows a listing has is defined in `specs/Full.antt`: every path with its letter, by looking at every
//! tracked path and at everything that stands in the working copy. The crates that make a listing and those that print it stand on this one.
//!
//! ```text
//! let mut rows = Rows::new(alloc);
//! rows.push(Row { letter: Letter::M, path, source: None })?;
//! ```
#![tactic(auto)]

mod fault;
mod order;
mod row;

pub use fault::StatusFault;
pub use hg_compare::Letter;
pub use row::{Row, Rows, Wanted};
