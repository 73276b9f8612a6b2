//! Storing in the plain store: what stands at a path, and the manifest of a commit, as files below `.hg` that are named by the SHA-1 of their bytes and never
//! change (docs/FORMAT_MANIFEST.md). It is this project's own store.
//!
//! `store_file` stores the bytes of a file, or the target of a link, and answers the row that a manifest has of it; `store_manifest` stores the lines of such
//! rows and answers their identifier. Both go the same way, so that a crash at any moment leaves each plain file as it was, or exactly as it is to be:
//!
//! | step | what |
//! |---|---|
//! | 1 | `plain/new` is removed, and the bytes are written there in pieces of 65,536, an empty text by one empty write; then it is made sure |
//! | 2 | where no plain file of the identifier is there, `plain/new` takes its name; else both are compared, and `plain/new` is removed |
//! | 3 | all names are made sure, since a file that stands may be left by a rename that isn't |
//!
//! Other bytes under the identifier are a clash: `plain/new` is removed, and nothing else changes. The caller holds the lock of `.hg`.
//!
//! ```text
//! let mut room = Room::new(alloc)?;
//! let row = store_file(alloc, &mut tree, &mut shelf, path, &mut room)?;
//! rows.push(NewRow { path: Path::of(alloc, path)?, row })?;      // paths ascending
//! let id = store_manifest(alloc, &mut shelf, &rows, &mut room)?;
//! ```
//!
//! `specs/Storing.antt` says what storing leaves of the files below `.hg`, `specs/Standing.antt` when a text clashes, `specs/Taking.antt` what is taken of a
//! path, and `specs/Rows.antt` which text a manifest is.
#![tactic(auto)]

mod comparing;
mod fault;
mod file;
mod laws;
mod manifest;
mod names;
mod rows;
mod settling;
mod standing;
mod taking;
mod text;
mod writing;

pub use fault::StoreFault;
pub use file::store_file;
pub use laws::what_is_written_is_read;
pub use manifest::store_manifest;
pub use rows::{NewRow, NewRows};
