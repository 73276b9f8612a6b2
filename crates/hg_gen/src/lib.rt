//! A large working copy, made in memory from a number: of so many directories, each with sixteen names of which most are clean files.
//!
//! `make` gives the working copy and the files below `.hg` that record it. By the rest of a file's number by sixteen:
//!
//! | rest | in the parent | recorded | on the disk |
//! |---|---|---|---|
//! | 3 | yes | tracked, in the parent | with another first byte |
//! | 5 | yes | tracked, in the parent | nothing |
//! | 7 | yes | tracked, in the parent | executable |
//! | 9 | no | no | a file |
//! | 11 | no | tracked | a file |
//! | 13 | yes | in the parent | nothing |
//! | else | yes | tracked, in the parent | a file |
//!
//! ```text
//! let mut made = make(alloc, 50)?;   // 50 directories with 700 files
//! ```
//!
//! `specs/Copy.antt` says which things stand where, `specs/Recorded.antt` what is recorded of them, `specs/Manifest.antt`
//! what the parent has.
#![tactic(auto)]

mod lot;
mod making;
mod names;
mod parent;
mod recording;
mod storing;
mod working_copy;

pub use making::{Made, make};
