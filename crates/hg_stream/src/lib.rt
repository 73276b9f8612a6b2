//! The streams of a command: where bytes are read from, and where they are written to.
//!
//! A `Source` gives bytes and a `Sink` takes them, in pieces as short as they please. Contracts speak of the bytes that a source has
//! left and of those that were put into a sink, where the stream tells them; one over the outside tells nothing. Each stream counts
//! its failures, and a call fails only where that count rose.
//!
//! ```text
//! let mut out = MemSink::new(alloc, 3);  // at most 3 bytes at each call
//! put_all(&mut out, b"M src/main.c\n")?;
//! out.bytes();                           // "M src/main.c\n"
//! ```
#![tactic(auto)]

mod filling;
mod memory;
mod outside;
mod sink;
mod source;

pub use filling::fill;
pub use memory::{MemSink, MemSource};
pub use outside::{ReaderSource, WriterSink};
pub use sink::{Sink, put_all};
pub use source::Source;
