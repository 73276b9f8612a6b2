//! The exact texts that a user sees: the lines of a status, of its warnings, of a refused word, and the line of a fault.
//!
//! A status prints a line for each row (help topic `status`): the letter, a space, the path. `-n` leaves letter and space out, `-0`
//! ends each name by NUL, `-C` puts the copy source of an added or modified file on a line of its own. A fault prints `abort: `, its
//! text and a line's end on the error stream; the one that met the error stream itself prints nothing. A warning says which line of
//! `.hgignore` names a syntax that isn't known. A word that a command refused has a line with the command, the word, and why.
//! Two statuses over a working copy that was made in memory are told by the numbers of their rows.
//!
//! ```text
//! status_text(alloc, &rows, Style { plain: false, nul: false, copies: false })?;  // "A a\n! b\n? c\n"
//! fault_text(alloc, &Fault::NotBuilt)?;                                           // "abort: not built yet\n"
//! refusal_text(alloc, "add", "d", &Refusal::Special)?;                            // "add d: not a file\n"
//! ```
#![tactic(auto)]

mod debug;
mod fault;
mod fault_line;
mod load;
mod refusal_line;
mod status;
mod warnings;

pub use debug::{debug_text, one_debug_text};
pub use fault::Fault;
pub use fault_line::fault_text;
pub use load::{Counts, load_text};
pub use refusal_line::refusal_text;
pub use status::{Style, status_text};
pub use warnings::warnings_text;
