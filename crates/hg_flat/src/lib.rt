//! The record of a dirstate as one map from path to entry, and the plain status over it.
//!
//! A status tells of each path whether it is tracked and what became of it since the first parent (help topic `status`): `M` modified, `A` added, `R`
//! removed, `!` tracked but missing, `C` clean, `?` not tracked, `I` not tracked and ignored. The plain status looks at every tracked path and at everything
//! that stands in the working copy, but for what is in an ignored directory where `I` isn't wanted, and compares all bytes with the first parent's, as the plain
//! store below `.hg` has them; it trusts no recorded time. `Flat` is the map, read from an `Image` by `Flat::read`; `plain_status` gives the rows, and its
//! contract says that they are the full listing. `visit` lists what else stands in a directory, over any `Entries`, and `list_others` all that does, and puts the
//! rows of a status in order.
//!
//! ```text
//! let flat = Flat::read(alloc, &image)?;
//! let listed = plain_status(alloc, &flat, &flat.first_parent(), &mut tree, &mut shelf, &mut Builds::new(), wanted)?;
//! listed.rows.at(0);  // letter `M`, path `src/main.c`, no source
//! ```
//!
//! What the first parent has of a path, and which paths are compared, stands in `specs/Parent.antt`; what the ignore patterns have to do with it in
//! `specs/Patterns.antt`; what a fault of either comes from in `specs/Met.antt`; what is asked below `.hg` in `specs/Stored.antt`.
#![tactic(auto)]

mod coming;
mod comparing;
mod entries;
mod flat;
mod full;
mod kept;
mod letter;
mod listed;
mod listing;
mod others;
mod parent;
mod patterns;
mod reading;
mod span;
mod status;
mod untracked;

pub use coming::{files_may_come, store_of_end};
pub use comparing::{compared_letter, letter_of};
pub use entries::Entries;
pub use flat::Flat;
pub use full::one_listing;
pub use hg_compare::Letter;
pub use hg_listing::{Row, Rows, StatusFault, Wanted};
pub use kept::FlatRow;
pub use letter::{letter_by_marks, put_wanted, wants, wants_bytes, wants_tracked};
pub use listed::Listed;
pub use listing::visit;
pub use others::list_others;
pub use parent::Parent;
pub use patterns::{needs_patterns, read_patterns, warnings_of};
pub use span::Span;
pub use status::plain_status;
