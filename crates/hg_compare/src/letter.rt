//! The letters, in the order in which a listing groups them.

/// The state of a path, as the help topic `status` names it.
#[derive(Clone, Copy, Debug, PartialEq, Eq)]
pub enum Letter {
    /// Modified.
    M,
    /// Added.
    A,
    /// Removed.
    R,
    /// Missing: tracked, and deleted by a command that isn't Mercurial's. Printed as `!`.
    Gone,
    /// Not tracked. Printed as `?`.
    Unknown,
    /// Ignored.
    I,
    /// Clean.
    C,
}
