//! The working copy as a device: what stands at which path, and how one looks at it.
//!
//! `Tree` is the trait: `stat` looks at one path and follows no link, `list` names what stands in a directory. `MemTree` is the
//! tree in memory that tests place things into.
//!
//! A tree has a *history*: its moments so far, each a clock and a map from path to thing, who made each step from one moment to
//! the next, and which directories it was asked to list. Others may add moments at any call, and each call answers from the last
//! moment at its end. A tree may also tell nothing of its history, as one over real files does; what is promised of every tree
//! (names that fit into paths, a failure only where the count of failures rose) holds of that one too.
//!
//! ```text
//! let mut tree = MemTree::new(alloc, clock)?;
//! tree.place(PathRef::read("src/main.c")?, Thing::File { exec: false, bytes }, mtime)?;
//! tree.stat(PathRef::read("src")?)?;  // Some(Stat { kind: Kind::Dir, .. })
//! tree.list(alloc, None)?;            // Some([src])
//! ```
//!
//! What the words of the contracts mean stands in `specs/`: `Moment.antt` for one moment, `History.antt` for many, `Still.antt` for what
//! stays as it is while others change something else. Lemmas for the crates above are in `proofs/`: `Histories`, `Spans`,
//! `Stillness`, and of faces and times `Faces` and `Telling`.
#![tactic(auto)]

mod acting;
mod asked;
mod coming;
mod device;
mod fault;
mod honest;
mod listing;
mod memory;
mod name;
mod own;
mod thing;
mod things;
mod touched;

pub use asked::{Asked, Change, Due, Outside, Own};
pub use device::Tree;
pub use fault::TreeFault;
pub use honest::{faces_are_listed, faces_stay, faces_tell, honest_past, stays_past};
pub use memory::MemTree;
pub use name::Name;
pub use thing::{Placed, Thing};
pub use touched::steps_touch;
