//! The files that an ignore text is made of: `.hgignore` at the root of a working copy and those that its lines name (Mercurial's
//! `hg help hgignore` and `hg help patterns`), in this project's profile.
//!
//! | in a line | what it says |
//! |---|---|
//! | `include:NAME` | the file of that path from the root is read here; the base stays |
//! | `subinclude:NAME` | the file of that path from the directory of this file is read here; its patterns speak of paths below that file's directory alone, its base |
//! | `syntax: NAME` | one is warned of a name that isn't known |
//!
//! The name is all that stands behind the colon, without a comment and the white space at the line's end. A file is read where its line stands, before the
//! lines that follow. A pair of a file and a base is read once; a file that isn't there is warned of, each time that it is named. At most 256 pairs are read,
//! each of a regular file of at most 1,048,576 bytes of UTF-8.
//!
//! ```text
//! let pieces = read_pieces(alloc, &mut tree)?;
//! pieces.at(0).file;              // .hgignore, where there is anything at all
//! pieces.at(1).base;              // the directory of which the second piece speaks, if not of all
//! pieces.warnings().at(0).line;   // a line to be warned of
//! ```
//!
//! `specs/Line.antt` says what lines name, `specs/Name.antt` which file that is, `specs/Look.antt` what a file gives, `specs/Reading.antt` how one is read
//! after the other, and `specs/Asking.antt` what a tree is asked for it, and when.
#![tactic(auto)]

mod fault;
mod laws;
mod line;
mod look;
mod name;
mod opening;
mod piece;
mod pieces;
mod reading;
mod warnings;

pub use fault::{Bad, IncludeFault};
pub use laws::some_way_agrees;
pub use piece::Piece;
pub use pieces::Pieces;
pub use reading::read_pieces;
pub use warnings::{Warning, Warnings};
