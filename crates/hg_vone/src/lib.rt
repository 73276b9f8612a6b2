//! A dirstate of the first version, read: the file `.hg/dirstate` as Mercurial wrote it before dirstate-v2.
//!
//! The format is that of the Mercurial wiki page DirState, as far as `docs/FORMAT_V1.md` says: two parents, then an entry for each file, in any order.
//! `is_vone` tells by the first bytes whether a dirstate is of it, and `read_vone` shows what it says as a docket and a data file of the second version, in
//! memory, so that whatever reads dirstate-v2 reads it too. `specs/Items.antt` says what a file says, or its first fault; `specs/Table.antt` the table of that.
//!
//! Only records are laid out, since the texts lie in the file already (`layout.rt`). What was laid out is opened and looked at, node by node and entry by
//! entry, before it is given out (`agreeing.rt`): so what is promised of it rests on what was seen, and not on how it was laid out.
//!
//! ```text
//! is_vone(b"dirstate-v2\n..");                    // false
//! let shown = read_vone(alloc, bytes)?;           // Err(VoneFault::V1State { at: 40 })
//! let docket = Docket::read(&shown.docket)?;      // with the identifier `v1`
//! let image = Image::open(&docket, &shown.nodes)?;
//! ```
#![tactic(auto)]

mod agreeing;
mod fault;
mod format;
mod item;
mod items;
mod layout;
mod shown;

pub use fault::VoneFault;
pub use format::is_vone;
pub use shown::{Shown, read_vone};
