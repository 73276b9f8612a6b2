//! The letters of `hg status`, which of them a tracked path has, and the comparison of a path with the first parent.
//!
//! The conditions stand in `specs/Tracked.antt`, after the help topic `status`: what is recorded of a path, what the first parent has
//! of it, and what stands there now decide its letter.
//!
//! ```text
//! let mut room = Room::new(alloc)?;
//! same(&mut tree, &mut shelf, path, &row, &stat, &mut room);  // Ok(Looked::Same { settled: true })
//! ```
//!
//! `same` compares what stands at a path with a row of a manifest, whose contents are the file `plain/f-HEX` below `.hg`. What it saw, each at a moment
//! of the call, stands in `specs/Seen.antt`, and what it answers in `specs/Same.antt`.
#![tactic(auto)]

mod alike;
mod comparing;
mod contents;
mod fault;
mod letter;
mod looked;
mod piece;
mod room;

pub use comparing::same;
pub use fault::CompareFault;
pub use letter::Letter;
pub use looked::Looked;
pub use room::Room;
