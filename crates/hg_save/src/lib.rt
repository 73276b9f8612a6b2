//! The record in the files below `.hg`: what they record, a record loaded from them, and a table published over the record that was loaded, so that a crash at
//! any moment leaves the dirstate as it was before or as it is after.
//!
//! `load` reads the docket, and then the data file that it names. `still` tells whether the docket stands as it was loaded, so that what was made of the
//! loaded table may be published.
//!
//! `publish_table` asks `hg_append::plan` for the better way, encodes the table by it, and publishes what was encoded. The caller holds the lock.
//!
//! | way | what is written, each made sure before the next |
//! |---|---|
//! | anew | the data file, under a name that nothing names yet; a docket beside the one that stands, which takes its place by a rename; then the old data file goes |
//! | behind | bytes behind the used ones of the data file that stands; a docket beside the one that stands, which takes its place by a rename; nothing is removed |
//!
//! A data file that is shorter than its docket says may read as anything between a write and its sync. So for an append what a crash may leave at the start has
//! to be solid: each docket that names the identifier has all the bytes that it uses. Both ways leave it solid again, whatever they answer.
//!
//! ```text
//! let loaded = load(alloc, &mut shelf)?;
//! let image = Image::open(&docket, &loaded.nodes)?;
//! ..                                                       // the table of the image is changed
//! publish_table(alloc, &mut shelf, &loaded, &table)?;      // Err(PublishFault::Failed): the dirstate is as before or as after
//! ```
//!
//! `specs/Record.antt` says what the files below `.hg` record, `specs/Saved.antt` what is published and what that leaves of the files, `specs/Behind.antt` what is
//! kept of the bytes that dockets use, and `specs/Over.antt` what is asked of the dirstate at the start of a publication and what one leaves by either way.
#![tactic(auto)]

mod laws;
mod load_fault;
mod loaded;
mod loading;
mod publish_fault;
mod publishing;
mod saving;
mod standing;
mod steps;

pub use laws::{data_kept, encoded_behind, encoded_over, nodes_stay, one_moment};
pub use load_fault::LoadFault;
pub use loaded::Loaded;
pub use loading::load;
pub use publish_fault::PublishFault;
pub use publishing::publish_table;
pub use saving::publish;
pub use standing::still;
