//! What a manifest says of a path.

use hg_base::Id20;

/// A file of a commit: the identifier of its contents, and whether it is executable or a link.
#[derive(Clone, Copy, Debug, PartialEq, Eq)]
pub struct FileRow {
    pub id: Id20,
    pub exec: bool,
    pub link: bool,
}
