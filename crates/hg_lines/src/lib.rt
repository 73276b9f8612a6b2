//! Lines, as they are read from a source, and their words.
//!
//! `Lines` reads a text piece by piece and hands out its lines in order, each as owned text without its line feed, which the last line
//! may lack. What the lines of a text are, and at which fault a script ends, stands in `specs/Script.antt`. A text may be of any length
//! as far as memory goes: at most a line and a piece of 65,536 bytes are held.
//!
//! ```text
//! let mut lines = Lines::new(alloc)?;
//! while let Some(line) = lines.next(&mut input)? {
//!     let words = words_of(alloc, line.as_str())?;  // "add a  b" has the words "add", "a", "" and "b"
//! }
//! ```
#![tactic(auto)]

mod fault;
mod lines;
mod piece;
mod words;

pub use fault::LineFault;
pub use lines::Lines;
pub use words::words_of;
