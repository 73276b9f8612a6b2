//! The devices of the real system: the working copy and the files below `.hg` in the file system, and the root that both stand below.
//!
//! `open_streams` sees to it that no file takes the place of a standard stream. `enter_root` changes to the root of the working copy that the current folder is in, and tells the path of this folder from there. `RealTree`
//! and `RealShelf` are the working copy and `.hg` below a root. The tree stands in the folder that it looks at, so the current folder is another one afterwards.
//! No contract can say what a disk holds: the adapters tell no history, count each failure, and keep the name and the reason of the first one.
//!
//! ```text
//! open_streams(&rt, &rt.stdin(), &rt.stdout(), &rt.stderr())?;
//! let start = enter_root(&rt)?;
//! let root = Root::current(&rt);
//! let mut tree = RealTree::new(&rt, &root);
//! let mut shelf = RealShelf::new(&rt, &root);
//! ```
#![tactic(auto)]

mod ancestors;
mod below;
mod contents;
mod disk;
mod entries;
mod failure;
mod holder;
mod left_lock;
mod lock_file;
mod look;
mod met;
mod opened;
mod place;
mod probe;
mod putting;
mod real_shelf;
mod real_tree;
mod root;
mod spot;
mod streams;
mod vacant;
mod way;
mod writing;

pub use holder::ProcessId;
pub use real_shelf::RealShelf;
pub use real_tree::RealTree;
pub use root::{Root, Start, enter_root};
pub use streams::open_streams;
