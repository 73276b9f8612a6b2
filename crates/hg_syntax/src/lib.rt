//! A line of an ignore text (Mercurial's `hg help hgignore` and `hg help patterns`): its comment, the white space at its end, and the word in front
//! of its first colon.
//!
//! | in a line | what it says |
//! |---|---|
//! | `#` | begins a comment, unless an odd number of backslashes stands before it; `\#` is `#` |
//! | white space at the end | goes: space, tab, carriage return, vertical tab, form feed |
//! | `syntax: NAME` | the syntax of the lines that follow: `regexp` or `re`, `glob`, `rootglob` |
//! | `re:`, `regexp:`, `relre:`, `glob:`, `relglob:`, `rootglob:` | the line's own syntax |
//! | `include:`, `subinclude:` | another file |
//!
//! ```text
//! let text = text_of(alloc, "*.o  # objects")?;      // "*.o"
//! cut("glob:*.o", ':');                              // Some(("glob", "*.o"))
//! form_of("glob");                                   // Form::Own(Syntax::Glob)
//! ```
//!
//! `specs/Text.antt` says what a line is without its comment, `specs/Syntax.antt` which words name what.
#![tactic(auto)]

mod syntax;
mod text;

pub use syntax::{Form, Syntax, form_of, syntax_named};
pub use text::{cut, text_of, trimmed};
