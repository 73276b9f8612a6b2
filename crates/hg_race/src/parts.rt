//! What the world is made of beside its actors: what a docket names, and what was published.

use crate::edits::Edits;

/// What a docket says that names a file: the identifier of that file, and how many of its rows are used.
#[derive(Clone, Copy, Debug, PartialEq, Eq)]
pub struct Naming {
    pub id: u64,
    pub used: usize,
}

/// A docket that was published, with the change that it came with and the rows of its file that it uses.
#[derive(Debug, Drop)]
pub struct Publication {
    pub docket: Option<Naming>,
    pub change: Edits,
    pub rows: Edits,
}
