//! The nodes of a table in memory: by path an entry with its copy source, or a directory with the time at which it was seen whole.
//!
//! `Memory` has the parents, the hash of the ignore patterns, the nodes and the times. Nothing of it takes memory before the first node is put, and each
//! call that may take some is handed an allocator. An edit says what it makes of the table, and answers whether anything differs.
//!
//! ```text
//! let mut memory = Memory::new(p1, p2, hash);
//! memory.set(alloc, PathRef::read("src/main.c")?, entry)?;   // Ok(true), with a node at `src`
//! memory.set(alloc, PathRef::read("src/main.c")?, entry)?;   // Ok(false)
//! let mut children = memory.children(None);
//! children.next();                                           // the child `src`, which has_kids
//! ```
//!
//! `specs/Edits.antt` and `specs/Drop.antt` say what edits do, `specs/Memory.antt` what contracts see of it, `specs/Clash.antt` which path keeps another from
//! being tracked.
#![tactic(auto)]

mod adding;
mod cached;
mod clash;
mod edits;
mod fault;
mod kids;
mod laws;
mod lists;
mod memory;
mod node;
mod nodes;
mod own_child;
mod own_children;
mod planting;
mod pruning;
mod same;
mod setting;
mod times;
mod written;

pub use adding::Recorded;
pub use cached::Cached;
pub use fault::SetFault;
pub use laws::one_drop;
pub use memory::Memory;
pub use own_child::OwnChild;
pub use own_children::{OwnChildren, text_of};
pub use same::{same_cache, same_entry, same_source};
pub use written::fields_of_node;
