//! The files below `.hg`, as a tracker reads and writes them: their names, their bytes, what others do to them meanwhile, and what a
//! crash may leave of them.
//!
//! A `Shelf` answers the size of a file and the bytes at a place of it, writes, makes sure what was written, renames and removes, and
//! holds a lock. Others may change the files at any call, so contracts speak of a history: the moments so far, each a map from name
//! to bytes, and who made the step from each moment to the next; and of images, the maps that a crash may leave at each moment. A
//! call answers from the last moment at its exit. A shelf over a real disk tells no moments; `MemShelf` holds its files in memory
//! and tells them all.
//!
//! ```text
//! let mut shelf = MemShelf::new(alloc)?;
//! shelf.place("dirstate", b"dirstate-v2\n")?;
//! shelf.size("dirstate");              // Ok(Some(12))
//! shelf.size("branch");                // Ok(None)
//! shelf.read_at("dirstate", 9, buf);   // Ok(Got::Bytes(3)), and buf begins with "v2\n"
//! shelf.write_at("data", 0, b"abc");   // Ok(()), and a crash may leave the file absent
//! shelf.sync("data");                  // Ok(()), and a crash leaves it as it is
//! shelf.rename("data", "dirstate");    // Ok(()), and a crash leaves it done or not done
//! shelf.sync_names();                  // Ok(()), and a crash leaves it done
//! ```
#![tactic(auto)]

mod asked;
mod crash;
mod due;
mod files;
mod log;
mod memory;
mod noting;
mod outside;
mod shelf;
mod steps;

pub use asked::{Asked, LockAnswer, LockCall};
pub use memory::MemShelf;
pub use outside::{Change, Due, Outside, Step};
pub use shelf::Shelf;
