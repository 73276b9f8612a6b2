//! Tables of worked cases, as the crates of tests have them: a table is one text, a case one of its lines.
//!
//! A line has what is done and what is answered, `remove one; size one; size two => Ok(()) Ok(None) Ok(Some(2))`. What is done is played by a `Play` of
//! its own; the words below read it. A line that is answered otherwise is told, and so is one that is no case.
//!
//! | in a word | what it is |
//! |---|---|
//! | `\n`, `\0`, `\t`, `\r`, `\s`, `\\` | a line feed, a NUL, a tab, a carriage return, a space, a backslash |
//! | `\xff` | the byte 0xff |
//! | `\e` | nothing, so that a word may be empty |
//!
//! ```text
//! agree::<Shelves>(rt.alloc(), "place one ab; ", "size one => Ok(Some(2))")?;
//! ```
#![tactic(auto)]

mod table;
mod words;

pub use table::{Play, agree, none, note};
pub use words::{bytes, hex, number, print, text, word};
