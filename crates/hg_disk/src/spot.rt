//! Which folder it is, whatever its name.

use std::fs::Metadata;
use std::os::unix::fs::MetadataExt;

/// The device and the number of a folder's inode. As long as the folder isn't taken away no other one has them.
#[derive(Clone, Copy, Debug, PartialEq, Eq)]
pub(crate) struct Spot {
    pub(crate) dev: u64,
    pub(crate) ino: u64,
}

/// A step down: how long the path was before it, and the folder that was seen there.
#[derive(Clone, Copy, Debug, PartialEq, Eq)]
pub(crate) struct Step {
    pub(crate) before: usize,
    pub(crate) spot: Spot,
}

pub(crate) fn spot_of(metadata: &Metadata) -> Spot {
    Spot {
        dev: metadata.dev(),
        ino: metadata.ino(),
    }
}
