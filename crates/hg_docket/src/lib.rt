//! The docket of dirstate-v2: the file `.hg/dirstate`, which says which commits are checked out and where the records lie.
//!
//! The format is that of the Mercurial help page internals.dirstate-v2, "The docket file format". A docket names a data file
//! `.hg/dirstate.ID` and how many of its bytes are used; the records of the tracked files stand there. All numbers are big-endian.
//!
//! | bytes | what |
//! |---|---|
//! | 0..12 | `dirstate-v2` and LF |
//! | 12..32 and 44..64 | the two parents, each with 12 bytes of padding behind it |
//! | 76..96 | start and count of the root list, nodes with an entry, nodes with a copy source, unreachable bytes |
//! | 96..100 | unused |
//! | 100..120 | hash of the ignore patterns |
//! | 120..125 | used size of the data file, and in one byte the length of the identifier |
//! | 125.. | the identifier; what stands behind it is ignored |
//!
//! `Docket` borrows from the bytes that were read, `Ident` owns an identifier, `DataName` is the name of a data file.
//!
//! ```text
//! let docket = Docket::read(bytes)?;              // Err(DocketFault::Short { len: 124, needed: 125 })
//! let ident = Ident::read(docket.id);             // Some(..) for what a docket holds
//! DataName::of(&ident).as_str();                  // "dirstate.0000000000000000"
//! ```
#![tactic(auto)]

mod data_name;
mod docket;
mod fault;
mod ident;
mod idents;
mod name;
mod number;
mod writing;

pub use data_name::DataName;
pub use docket::Docket;
pub use fault::DocketFault;
pub use ident::Ident;
pub use idents::Idents;
