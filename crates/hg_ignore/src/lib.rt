//! The ignore text of a working copy, `.hgignore` at its root (Mercurial's `hg help hgignore` and `hg help patterns`), in this
//! project's profile.
//!
//! | in a line | what it says |
//! |---|---|
//! | `#` | begins a comment, unless an odd number of backslashes stands before it; `\#` is `#` |
//! | white space at the end | goes: space, tab, carriage return, vertical tab, form feed; an empty line says nothing |
//! | `syntax: NAME` | the syntax of the lines that follow: `regexp` or `re`, as the first lines have it, `glob`, `rootglob`; of another name one is warned, and it changes nothing |
//! | `re:`, `regexp:`, `relre:`, `glob:`, `relglob:`, `rootglob:` | the line's own syntax |
//! | `include:`, `subinclude:` | another file, which isn't read yet: the line is refused |
//! | a glob | matches a path that ends with a text in it, at the front or behind a slash; a rootglob at the front alone |
//! | a regexp | matches a path in which it is found, anywhere, as the crate `regex` searches |
//!
//! A glob is normalized as a path first: without empty components and `.`, and without a slash at its end. A path is ignored where a
//! line matches it or a directory above it.
//!
//! ```text
//! let ignore = Ignore::read(alloc, &mut tree, &mut Builds::new())?;
//! ignore.ignored(alloc, PathRef::read("build/out")?)?;    // of one path
//! let mut matcher = ignore.matcher(alloc)?;
//! matcher.matches(PathRef::read("build")?);               // of many, without memory: the path itself
//! ignore.hash();                                          // what a docket keeps of it
//! ```
//!
//! `Ignore` is the state: contracts see the files that were read, with their texts. `Regexps` is what compiles regexps and counts
//! those that are too big; `Builds` does so by `regex`. What a line says is defined in `specs/Line.antt`, what is
//! ignored and hashed in `specs/State.antt`, which lines are refused in `specs/Taking.antt`, and what is read when in `specs/Source.antt`.
//! What a layer above may say of all this stands in `specs/Patterns.antt`.
#![tactic(auto)]

mod distinct;
mod fault;
mod ignore;
mod laws;
mod matcher;
mod normal;
mod reading;
mod regexps;
mod searching;
mod sets;
mod source;
mod warnings;

pub use fault::IgnoreFault;
pub use ignore::Ignore;
pub use laws::{apart_before, ignored_below, ignored_with_directory, still_read};
pub use matcher::Matcher;
pub use regexps::{Builds, RegexpFault, Regexps};
pub use warnings::{Warning, Warnings};
