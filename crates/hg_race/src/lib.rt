//! Readers and writers of the record in several processes, as a machine: what may come in between two calls of one process, and why no change
//! is lost by it.
//!
//! Two files below `.hg` hold the record (Mercurial help page internals.dirstate-v2): the docket, which names a data file and how much of it is
//! used, and that data file. A writer holds a lock; readers take none. So a reader may read a docket whose data file is gone a moment later, and
//! a writer may die between any two calls.
//!
//! A `World` is such a folder with all that its actors, numbered from 0, know of it and all that was ever published. An `Event` is one call of one
//! actor, or its death. In the machine a file is a list of rows, each a path with its entry or with none, and its map is what they give one after the
//! other; a docket is an identifier and a number of rows, or it names no file. `Edits` are such rows.
//!
//! | event | needs | does |
//! |---|---|---|
//! | `ReadDocket` | | reads the docket; a load of the same one counts from then on as made under the lock that its actor holds |
//! | `ReadData` | a docket that was read, and neither loaded nor used up by a `Swap` since | loads the used rows of its file, or misses it where that is gone |
//! | `Lock` | a free lock | takes it; nothing that was read before counts as read under it |
//! | `Append` | the lock, a load under it whose docket names a file, nothing written that isn't published | puts the change behind the used rows of that file, and drops what stood there |
//! | `NewFile` | the lock, a load under it, nothing written that isn't published, an identifier below 2^64 | writes what was loaded, after the change, into the file of the next identifier |
//! | `Swap` | something written | publishes it: the docket names it; the load and the docket that was read are used up |
//! | `Drop` | a new file was published in place of another, and not dropped yet | removes that other |
//! | `Unlock` | the lock | frees it; the load, what was written and what is to be dropped end with it |
//! | `Die` | | the same, where the lock was held, and the actor does nothing any more |
//!
//! An event of an actor that isn't there, or has died, may not come.
//!
//! ```text
//! let mut change = Edits::new(alloc);
//! change.push(Edit { path, entry: Some(entry) })?;
//! let world = run(alloc, 2, &[
//!     Event::Lock { who: 0 }, Event::ReadDocket { who: 0 }, Event::ReadData { who: 0 },
//!     Event::NewFile { who: 0, change }, Event::Swap { who: 0 }, Event::Unlock { who: 0 },
//! ])?;
//! world.published();                               // 2: the empty map with which all begins, and this one
//! world.enabled(&Event::ReadData { who: 1 });      // false: it has read no docket
//! run(alloc, 2, &[Event::Swap { who: 1 }]);        // Err(RaceFault::NotEnabled { at: 0 })
//! ```
//!
//! `specs/Enabled.antt` has the table's needs and `specs/Steps.antt` what each event makes; `specs/Safe.antt` what then always holds, which the law
//! `machine_is_safe` promises over every list of events, and `specs/Publishes.antt` what an actor under the lock publishes (`change_is_published`). Where
//! a file is written anew the order of its rows is free.
#![tactic(auto)]

mod actor;
mod copies;
mod edits;
mod event;
mod laws;
mod parts;
mod schedule;
mod steps;
mod world;

pub use edits::{Edit, Edits};
pub use event::Event;
pub use laws::{change_is_published, machine_is_safe, one_answer};
pub use schedule::{RaceFault, run};
pub use world::World;
