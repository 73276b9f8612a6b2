//! Why a path could not be compared.

use hg_base::Id20;

/// Why a path could not be compared with a row of the first parent.
#[derive(Clone, Copy, Debug, PartialEq, Eq)]
pub enum CompareFault {
    /// The file of the row's contents is absent.
    NoContents { id: Id20 },
    /// The working copy failed, and its count of failures rose.
    TreeFailed,
    /// The files below `.hg` failed, and their count of failures rose.
    ShelfFailed,
}
