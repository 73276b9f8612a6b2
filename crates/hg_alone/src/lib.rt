//! Devices in memory that nobody but their caller changes.
//!
//! `AloneTree` is a working copy and `AloneShelf` the files below `.hg`, each over one in memory for which no change of others is due. The moments
//! of the working copy begin behind the last change that another made; the files were changed by the caller alone. So each step of theirs is the
//! caller's, and a call that only asks leaves them as they were: what is promised where nobody else makes a step is promised of calls of these.
//!
//! ```text
//! let mut tree = AloneTree::of(tree);
//! let mut shelf = AloneShelf::new(alloc)?;
//! shelf.put("requires", b"dirstate-v2\n")?;
//! ```
#![tactic(auto)]

mod shelf;
mod tree;

pub use shelf::AloneShelf;
pub use tree::AloneTree;
