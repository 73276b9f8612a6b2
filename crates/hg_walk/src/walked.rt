//! What a walk answers.

use crate::notes::Notes;
use hg_ignore::Warnings;
use hg_listing::Rows;

/// The rows of a status, what its reader is warned of, and what the walk noted of times.
#[derive(Drop)]
pub struct Walked {
    pub rows: Rows,
    pub warnings: Warnings,
    pub notes: Notes,
}
