//! The record of a dirstate as a table that can be changed, entry by entry, over the nodes of `hg_nodes` in memory.
//!
//! `Mixed::open` takes what an image records: the parents, the hash of the ignore patterns, and by path the entries, their copy sources,
//! the nodes and the times of cached directories. Nothing of it is copied then. An edit takes the lists of the directories above its path into
//! memory, and the rest stays where it lies in the image; one that changes nothing takes nothing. Only edits are handed an allocator: whatever asks a table
//! takes no memory. Each edit says what it makes of the whole table, so all that it doesn't name stays.
//!
//! | edit | what it makes of the table |
//! |---|---|
//! | `set` | the path has the entry; it and all directories above it are nodes; it is no cached directory |
//! | `copy_from` | the path's entry has this copy source, or none |
//! | `drop_entry` | the path has neither entry nor source; nodes left with neither entry nor children go, each with its parent's cache |
//! | `note_dir`, `forget_dir` | the directory has this cache, or none |
//! | `drop_caches` | no directory has a cache |
//! | `set_ids`, `set_hash` | these are the parents, this is the hash |
//!
//! Of two tracked paths none stands below the other (Mercurial tracks files, and no file is a directory): `set` refuses an entry that would make
//! an untracked path tracked beside one above or below it, and names the least such path. Each refused edit leaves all as it was.
//!
//! `gather` lists all nodes, ascending by the bytes of their paths (a walk meets `a/b` before `a.c`).
//!
//! What a table still lends from its image is told by `is_lent`, `lent` and the places of a `Child`: the lists of children at and below which no edit
//! has changed anything, and the texts that have stayed. A text is lent as long as its node, or its copy source, is the one that the image had. An edit
//! that changes something ends the lending of the lists of all directories above its path, and of no others.
//!
//! ```text
//! let mut table = Mixed::open(image);
//! table.set(alloc, PathRef::read("src/main.c")?, entry)?;   // Err(SetFault::Clash { other }) where `src` is tracked
//! let mut children = table.children(None);
//! children.next();                                   // the child `src`, which has_kids
//! ```
//!
//! `specs/Edits.antt` and `specs/Drop.antt` say what edits do, `specs/Held.antt` what contracts see of a table, and `specs/Parted.antt` how it is
//! parted between the image and memory.
#![tactic(auto)]

mod below;
mod cached;
mod child;
mod child_fields;
mod children;
mod edits;
mod gathered;
mod image_list;
mod lent;
mod line;
mod mixed;
mod near;
mod opening;
mod own;
mod taking;
mod walk;

pub use below::Below;
pub use child::Child;
pub use children::Children;
pub use gathered::gather;
pub use line::Line;
pub use mixed::Mixed;
pub use walk::Walk;
