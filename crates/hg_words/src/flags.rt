//! The flags of a status.

/// What a status was asked for: which letters, and how they are printed.
#[derive(Clone, Copy, Debug, PartialEq, Eq)]
pub struct StatusFlags {
    pub modified: bool,
    pub added: bool,
    pub removed: bool,
    pub deleted: bool,
    pub clean: bool,
    pub unknown: bool,
    pub ignored: bool,
    pub all: bool,
    pub no_status: bool,
    pub print0: bool,
    pub copies: bool,
}
