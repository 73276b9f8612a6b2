//! One command: what it does in which order, and what of it is told.
//!
//! `status` loads the record, lists the working copy and prints, and saves last the times that it noted of clean files, without a fault where another
//! process holds the lock. `debugdirstate` loads and prints. A command that changes the record, `add`,
//! `forget`, `remove`, `copy` or `debugsetparents`, takes the lock, loads, does what its words say, publishes what they changed, gives the lock
//! back, and tells the refused words last. The first fault is the one that is answered, and after a fault the lock is given back too.
//!
//! ```text
//! let outcome = command(alloc, &command, &mut tree, &mut shelf, &mut regexps, &mut out, &mut err);
//! ```
//!
//! All that is promised of a command stands in the contract of `command`; that the text of which it speaks is one, in those of `one_text` and
//! `one_record`.
#![tactic(auto)]

mod acting;
mod change_fault;
mod changing;
mod choosing;
mod copying;
mod debug;
mod ending;
mod flags;
mod good;
mod locking;
mod looking;
mod print_fault;
mod printed;
mod read_fault;
mod reading;
mod removing;
mod reparenting;
mod save_fault;
mod saving_notes;

pub use choosing::command;
pub use ending::{Outcome, failed};
pub use good::{good_is_kept, good_is_made};
pub use printed::{one_record, one_text};
