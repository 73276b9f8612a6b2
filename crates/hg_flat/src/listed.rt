//! What a status lists.

use hg_ignore::Warnings;
use hg_listing::Rows;

/// The rows of a status, and what its reader is warned of: a line for each syntax of `.hgignore` that isn't known.
#[derive(Debug, Drop)]
pub struct Listed {
    pub rows: Rows,
    pub warnings: Warnings,
}
