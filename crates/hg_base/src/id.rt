//! Identifiers of commits.

/// The 20 bytes that name a commit; all zero is the null parent.
#[derive(Clone, Copy, Debug, PartialEq, Eq)]
pub struct Id20(pub [u8; 20]);
