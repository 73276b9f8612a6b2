//! What a walk notes of a clean path.

use hg_base::{Path, Stamp, Stat};

/// A path that was compared and is clean, what the look before showed of it, and the time to be recorded.
#[derive(Debug, Drop)]
pub struct Clean {
    pub path: Path,
    pub stat: Stat,
    pub stamp: Stamp,
}
