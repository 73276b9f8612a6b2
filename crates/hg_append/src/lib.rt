//! A table in memory, encoded as what Mercurial's dirstate-v2 keeps on disk: a docket and a data file (help internals.dirstate-v2).
//!
//! There are two ways. `Way::Rewrite` lays out all nodes of a `Mixed` as a new data file under the next identifier. `Way::Append` writes behind the used bytes of
//! the data file that the table was opened from, and keeps its identifier: lists of nodes at and below which nothing changed stay where they lie, texts that
//! are there are named again, and the rest is put behind. Of each list of nodes come, node by node, the list of its children, its path and its copy
//! source, and behind the last node the records of the list. What `encode` writes reads back as the same table, and each count is the one from scratch.
//!
//! `plan` says which way is better: an append where the counts of the image are right and less than half of its used bytes would be left without anything
//! that leads to them, which `left_behind` counts. `end_of` adds up where a data file ends, which has at most 4,294,967,295 bytes.
//!
//! ```text
//! match encode(alloc, &table, plan(&table)) {
//!     Ok(encoded) => ..,                               // write encoded.bytes at encoded.place, and then encoded.docket
//!     Err(EncodeFault::TooLarge { size }) => ..,       // the data file would have so many bytes
//!     Err(EncodeFault::IdsSpent) => ..,                // the identifier was the greatest
//!     Err(EncodeFault::OutOfMemory) => ..,
//! }
//! ```
//!
//! `specs/Tree.antt` says what the tree of a table is, `specs/Layout.antt` how it is laid out with what is kept (`specs/Keeps.antt`), `specs/Encoded.antt` what is written
//! anew, `specs/Appended.antt` what is appended, and `specs/Loss.antt` what that leaves behind.
#![tactic(auto)]

mod appending;
mod encoding;
mod ends;
mod fault;
mod kept;
mod laws;
mod lists;
mod loss;
mod rewriting;
mod sums;
mod way;

pub use encoding::{Encoded, encode};
pub use ends::end_of;
pub use fault::EncodeFault;
pub use laws::{
    all_lost, few_entries, lent_lists_stay, one_tree, plain_size, reads_back, waste_is_told,
};
pub use loss::{Loss, left_behind, plan};
pub use way::Way;
