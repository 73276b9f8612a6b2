//! What a walk notes of a listed directory.

use hg_base::{Path, Stamp};

/// A directory that was listed, with the time that is recorded.
#[derive(Debug, Drop)]
pub struct ListedDir {
    pub dir: Path,
    pub stamp: Stamp,
}
