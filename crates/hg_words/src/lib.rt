//! The words of a command line: the command that they tell, and its file words from where a user stands.
//!
//! `read` takes the words after the program's name, and answers the command that the table of commands gives to them (`specs/Command.antt`), or why
//! it gives none:
//!
//! | command | words |
//! |---|---|
//! | `status` | flags `-m --modified`, `-a --added`, `-r --removed`, `-d --deleted`, `-c --clean`, `-u --unknown`, `-i --ignored`, `-A --all`, `-n --no-status`, `-0 --print0`, `-C --copies` |
//! | `add`, `forget` | one file or more |
//! | `remove` | flag `-A --after`; one file or more |
//! | `copy` | a source and a target |
//! | `debugsetparents` | one node or two |
//! | `debugdirstate`, `debugscript` | none |
//! | `debugload` | a number from 1 to 2,000 |
//!
//! A word `--` ends the flags; before it `--NAME`, or a dash and letters that are each a flag, may stand anywhere and repeat. `-` alone is no flag.
//!
//! A user stands in a folder of the working copy, and tells files from there, as for Mercurial; the commands take paths from the root.
//! `from_folder` makes the one of the other, by the word's text alone, `located` does so with a whole command, and `spelled` makes words of it again:
//!
//! | word | what it tells in the folder `a/b` |
//! |---|---|
//! | `c`, `./c`, `././c` | `a/b/c` |
//! | `../c`, `.././c` | `a/c` |
//! | `../../c` | `c` |
//! | `../../../c` | nothing: it leads out of the root |
//! | nothing, `/c` | nothing |
//!
//! A word that tells nothing stays as it is, and is no path: nothing is made up and nothing dropped. `.`, `..` and `x/../c` become texts that are no
//! paths either, since each would end in `.` or `..` or have it inside. Links aren't followed.
//!
//! ```text
//! read(alloc, &words)?;                // of `remove -A c d`: Command::Remove { after: true, files: c d }
//! located(alloc, "a/b", command)?;     // Command::Remove { after: true, files: a/b/c a/b/d }
//! spelled(alloc, &command)?;           // remove --after -- a/b/c a/b/d
//! ```
#![tactic(auto)]

mod fault;
mod flags;
mod folder;
mod forms;
mod given;
mod help;
mod laws;
mod reading;
mod spelling;

pub use fault::WordsFault;
pub use flags::StatusFlags;
pub use folder::from_folder;
pub use given::Command;
pub use help::{HelpRow, help_rows};
pub use laws::{
    help_names_all, help_tells_built, located_keeps, located_without_files, path_at_root,
    path_below, path_in_folder, path_leads, spelled_reads,
};
pub use reading::read;
pub use spelling::{located, spelled};
