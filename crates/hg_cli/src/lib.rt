//! The program's top call.
//!
//! `run` takes the words of a command, the working copy, the files below `.hg`, what compiles regexps and the standard streams; it answers
//! with the fault, where there was one, and the status that the program ends with. The words are read by `hg_words`, whole, and the command
//! is carried out by `hg_session`. These are built: `status` (help topic `status`), over any dirstate (help topic
//! `internals.dirstate-v2`), what the plain store has of its first parent and the ignore patterns of `.hgignore`; `debugdirstate`, which
//! prints what a dirstate records; `add`, `forget`, `remove`, `copy` and `debugsetparents`, which change it; `debugscript`, a command a line;
//! `debugload`, which runs two statuses over a large working copy in memory. All that is promised of the program stands in the contract of `run`;
//! that it keeps what a crash may leave over every list of calls, scripts included, in that of `each_call_is_safe`.
//!
//! ```text
//! let outcome = run(alloc, &words, &mut tree, &mut shelf, &mut Builds::new(), &mut input, &mut out, &mut err);
//! ExitCode::from(outcome.status)
//! ```
#![tactic(auto)]

mod carrying;
mod laws;
mod lines;
mod load;
mod reading;
mod script;
mod top;

pub use laws::{each_call_is_good, each_call_is_safe, each_run_is_safe, each_status_is_full};
pub use top::run;
