//! A file that was read.

use hg_base::{Path, Text};

/// A file of ignore patterns that was read, with its text of at most 1,048,576 bytes; where there is a base its patterns speak of what follows the base
/// and a slash in a path, and of no other paths.
#[derive(Debug, Drop)]
pub struct Piece {
    pub file: Path,
    pub base: Option<Path>,
    pub text: Text,
}
