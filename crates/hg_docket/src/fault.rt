//! Why bytes are no docket.

use thiserror::Error;

/// The first fault that a reading meets. Places are byte places in the docket.
#[derive(Clone, Copy, Debug, PartialEq, Eq, Error)]
pub enum DocketFault {
    /// This byte differs from that of `dirstate-v2` and LF: another format, or none.
    #[error("marker differs at byte {at}")]
    Marker { at: u8 },
    /// The bytes end early: so many are there, and so many are needed at least.
    #[error("{len} bytes where {needed} are needed")]
    Short { len: u32, needed: u32 },
    /// This byte of the identifier is no ASCII letter, digit, `-` or `_`.
    #[error("identifier byte {at}")]
    Identifier { at: u32 },
    /// No data file is named, though so many of its bytes are said to be used.
    #[error("no identifier for {used} bytes")]
    NoIdentifier { used: u32 },
}
