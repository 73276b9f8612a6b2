//! The data file of dirstate-v2, opened in place: its nodes are checked once and read where they lie.
//!
//! The format is that of the Mercurial help page internals.dirstate-v2, "The data file format". The docket says where the list of the
//! root's nodes begins; each node is a record of 44 bytes that names its full path, its copy source and the list of its children.
//! `Image::open` walks all of it and answers the first fault: a list beyond the used bytes, then for each node, before its children,
//!
//! | fault | where |
//! |---|---|
//! | `Text` | the full path lies outside the used bytes or isn't UTF-8 |
//! | `Name` | the path breaks a rule of paths, other than that of depth |
//! | `Deep` | the path has over 2,048 components |
//! | `Base` | the base name isn't said to begin where the last component does |
//! | `Parent` | the path doesn't stand right in the directory whose child it is |
//! | `Order` | the name isn't greater than the one before |
//! | `Copy` | a copy source is named that lies outside the used bytes, isn't UTF-8 or isn't a path |
//! | `Times` | a time is recorded that is out of range |
//!
//! Not looked at: padding, bits without a meaning, bytes behind the used ones, and whether texts share bytes. Wrong counts are no fault:
//! `Image::counted` tells whether there are any.
//!
//! `Image` is what `open` found sound, `List` a list of nodes in it, `NodeRef` one node. All are `Copy`, lend from the bytes, take no
//! memory, and their calls can't fail. `specs/Walk.antt` says what the faults are, `specs/Rows.antt` what a sound file holds.
//!
//! ```text
//! let image = Image::open(&docket, bytes)?;       // Err(NodeFault::DataShort { have: 44, used: 45 })
//! for i in 0..image.root().len() {
//!     let node = image.root().get(i);
//!     node.path();                                // a PathRef into the bytes
//!     node.children();                            // the list below it
//! }
//! ```
#![tactic(auto)]

mod below;
mod counts;
mod fault;
mod finding;
mod image;
mod list;
mod list_check;
mod node;
mod node_check;
mod opened;
mod parts;

pub use fault::NodeFault;
pub use finding::node_in;
pub use opened::{Image, List, NodeRef};
