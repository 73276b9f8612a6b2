//! The command server: requests that are read from a source, run by a runner, and answered into a sink.
//!
//! The protocol is that of Mercurial's command server (help page and wiki page CommandServer), as far as `docs/FORMAT_SERVER.md` says: `serve` puts a
//! hello and then answers each `runcommand` in its order, until the input ends or a request is refused. Who runs the words is a `Runner`; what `serve`
//! says of its runs is a chain of steps of that runner, one a request (`specs/Serving.antt`).
//!
//! ```text
//! input:  runcommand\n 00000006 status
//! output: o 00000028 capabilities: runcommand\nencoding: UTF-8
//!         o 00000004 A a\n
//!         r 00000004 00000000
//!
//! let served = serve(alloc, &mut input, &mut out, &mut runner)?;  // 1
//! ```
#![tactic(auto)]

mod fault;
mod judging;
mod laws;
mod messages;
mod part;
mod requests;
mod runner;
mod server;
mod words;

pub use fault::ServeFault;
pub use laws::{one_reading, what_is_written_is_read};
pub use runner::Runner;
pub use server::serve;
