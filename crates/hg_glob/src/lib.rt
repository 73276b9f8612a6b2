//! Globs as an ignore text has them (Mercurial's `hg help patterns` and `hg help hgignore`), in this project's profile, over Unicode characters.
//!
//! | part | stands for |
//! |---|---|
//! | `*` | any text without a slash |
//! | `**/` | nothing, or any text that ends in a slash |
//! | `**` elsewhere | any text |
//! | `?` | any one character, a slash too |
//! | `[..]`, `[!..]` | one character that is listed, or isn't; `x-y` is a range; the first character is a member whatever it is |
//! | `[` without its `]` | itself |
//! | `{a,b}` | one of the choices, which may be empty and have braces of their own |
//! | `,` or `}` outside braces | itself |
//! | `\x` | x; a `\` at the end is itself |
//!
//! Stars are read from the left, two at a time: `***/` is `**`, `*`, `/`. A class goes to its `]` before braces are looked at.
//!
//! ```text
//! let glob = Glob::read(alloc, "*.{c,h}")?;
//! glob.matches("a.c");              // true
//! glob.matches("src/a.c");          // false: the star doesn't cross the slash
//! glob.matches_end("src/a.c", false);      // true: directories may stand in front
//! glob.matches_part("src/a.c/x", false);   // true: a directory above the path matches
//! Glob::read(alloc, "{a");          // Err(GlobFault::Unbalanced { at: 0 })
//! ```
//!
//! `Glob` is the type that is asked; contracts see its text. A `Subject` is a text that was read once, for many globs. `Globs` are many
//! globs that are asked together; contracts see them as a list. What a glob is and which texts stand in it is said in
//! `specs/Pattern.antt`, which text spells which glob, by a rule for each line of the table, in `specs/Syntax.antt`, how a text is read
//! in `specs/Part.antt`, why a text is none in `specs/Refusal.antt`, and where a glob line stands in a path in `specs/Line.antt`, of many
//! in `specs/Many.antt`. That what is read is what the rules say, and all that they say, are laws.
//!
//! A text is read from its end, with one mark for each part: whether the end that was read is accepted from that part on. A character
//! more in front gives the next row of marks in one pass over the parts, in place; the mark of the first part answers for every
//! beginning of a match, so one reading answers for a whole path.
//!
//! A path of at most 63 characters is short: its ends fit the bits of one word, and the parts are passed over once, from the last to
//! the first, with one such word for all ends. This gives the same marks part by part, where the rows give them end by end.
//!
//! `Globs` are many lines that are asked of one path. They stand in an order in which those are neighbours that end alike; the words
//! of a line's last parts are kept, and the next line goes on from those that it has in common with it. Where no end of the path is
//! accepted from some last parts on, every line with these parts is passed over by its count alone. Of a long path its last
//! characters are looked at so, and a line that these leave possible is asked by itself. The parts of all lines lie in one row, in the
//! order in which they are asked.
#![tactic(auto)]

mod column;
mod edge;
mod fault;
mod fork;
mod glob;
mod globs;
mod laws;
mod mark;
mod matching;
mod ordering;
mod part;
mod part_row;
mod reach;
mod refusal;
mod short;
mod spell;
mod subject;
mod sweep;
mod trail;
mod turn;
mod words;

pub use fault::GlobFault;
pub use glob::Glob;
pub use globs::{GlobLine, Globs};
pub use laws::{is_spelled, one_glob, refused_for_length};
pub use subject::Subject;
