//! Manifests: the files of a commit, as the plain store keeps them in `.hg/plain/m-HEX` (docs/FORMAT_MANIFEST.md).
//!
//! A manifest is a list of lines `path NUL id flag LF`, ascending by the bytes of their paths. `Manifest::load` reads one from a
//! `Shelf`, or tells its first fault; `get` finds what is said of a path, and `len` and `at` list all paths in order. After the load
//! nothing takes memory: the text is kept once, and of each line where it begins and how long its path is, 8 bytes.
//!
//! ```text
//! let manifest = Manifest::load(alloc, &mut shelf, &parent)?;
//! manifest.get(PathRef::read("src/main.c")?);  // Some(FileRow { id, exec: false, link: false })
//! manifest.at(0);                              // the least path, and its file
//! ```
//!
//! What a text says, or its first fault, is `manifest_of` in `specs/Rows.antt`, over the lines of `specs/Line.antt`; what a load
//! answers where others change `.hg` meanwhile stands in `specs/Load.antt`.
#![tactic(auto)]

mod fault;
mod line;
mod load;
mod manifest;
mod place;
mod row;

pub use fault::ManifestFault;
pub use manifest::Manifest;
pub use row::FileRow;
