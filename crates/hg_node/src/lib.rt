//! Nodes of the data file of dirstate-v2: records of 44 bytes, read and written.
//!
//! The format is that of the Mercurial help page internals.dirstate-v2, "The data file format". A node says where its full path and
//! its copy source stand in the data file, where the records of its child nodes begin, how many entries are below it, and what is
//! recorded of its entry or of its cached directory. All numbers are big-endian; starts are byte places in the data file.
//!
//! | bytes | field of `Rec` | bytes | field of `Rec` |
//! |---|---|---|---|
//! | 0..4 | `path_start` | 22..26 | `entries_below` |
//! | 4..6 | `path_len` | 26..30 | `tracked_below` |
//! | 6..8 | `base_at` | 30..32 | `flags` |
//! | 8..12 | `copy_start` | 32..36 | `size` |
//! | 12..14 | `copy_len` | 36..40 | `seconds` |
//! | 14..18 | `kids_start` | 40..44 | `nanos` |
//! | 18..22 | `kids_count` | | |
//!
//! ```text
//! let rec = Rec::read(&bytes);                       // any 44 bytes are a record
//! within(rec.path_start, rec.path_len as u64, used); // whether its path lies in the used bytes
//! rec.write();                                       // the same 44 bytes
//! ```
#![tactic(auto)]

mod record;

pub use record::{Rec, within};
