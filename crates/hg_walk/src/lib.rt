//! Trusted times: which recorded times of files and directories say what a look would show, and what keeps them so.
//!
//! A record keeps the time with which a file was seen to be that of the first parent, and the time with which all names in a directory were seen
//! (Mercurial help page internals.dirstate-v2, `HAS_MTIME` and `ALL_UNKNOWN_RECORDED`). A status that finds the same time again doesn't read the
//! file, nor list the directory. That is right where times are *honest* (`hg_tree`): a time that had passed when it was shown, and is shown again, is
//! of the same thing.
//!
//! | word | what it says | where |
//! |---|---|---|
//! | seen | a moment showed the path with that time, below its clock, and the path was so | `specs/Seeing.antt` |
//! | trusted | each recorded time that could be taken for a look was seen with what it stands for | `specs/Trust.antt` |
//! | right | where a time is taken for a look, it says what the look would have shown | `specs/Right.antt` |
//! | earned | what a walk notes was seen by it | `specs/Notes.antt` |
//! | found | the letter that a path has by its entry or by a comparison, and the time that is noted of it | `specs/Finding.antt` |
//!
//! `walk` is a status over the record itself: it lists what `plain_status` of `hg_flat` does, reads no file whose entry vouches for it, and notes the
//! times of clean files that it read. Trust is a premise on the history at the start of a call, honesty on that at its end. `find` is its step for one
//! path: it reads no file whose entry vouches for what a look shows; where it compares, it notes the time. `Notes` is the record of what a walk notes, and
//! `apply` writes it into a table. The other functions are laws: each has an empty body, and its clause is the law.
//!
//! ```text
//! let walked = walk(alloc, &mixed, &mut tree, &mut shelf, &mut Builds::new(), wanted)?;
//! apply(alloc, &mut mixed, walked.notes)?;  // behind this a second walk reads none of the files again
//! find(alloc, &mut tree, &mut shelf, path, &entry, false, &stat, boundary, &mut parent)?;  // Found { letter: C, stamp: None }: its entry vouches
//! ```
#![tactic(auto)]

mod applying;
mod clean;
mod edits;
mod finding;
mod keeper;
mod laws;
mod mark;
mod notes;
mod noting;
mod telling;
mod tracked;
mod walked;
mod walking;

pub use applying::apply;
pub use clean::Clean;
pub use edits::{caches_are_kept, times_are_kept};
pub use finding::{Found, find};
pub use laws::{
    good_with_notes, listed_is_seen, noted_is_earned, notes_are_trusted, notes_grow,
    right_in_parts, timeless_are_right, trust_stays, trusted_are_right, worked_case,
};
pub use notes::Notes;
pub use noting::ListedDir;
pub use walked::Walked;
pub use walking::walk;
