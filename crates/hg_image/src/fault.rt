//! Why a data file isn't that of its docket.

use thiserror::Error;

/// The first fault that a walk of the data file meets. Numbers are bytes and byte places of the data file; `node` is where the record stands.
#[derive(Clone, Copy, Debug, PartialEq, Eq, Error)]
pub enum NodeFault {
    /// So many bytes are there, and so many are said to be used.
    #[error("{have} bytes where {used} are used")]
    DataShort { have: u64, used: u32 },
    /// A list of so many nodes at this place goes beyond the used bytes.
    #[error("list at {start} of {count} nodes")]
    List { start: u32, count: u32 },
    /// The full path lies outside the used bytes, or isn't UTF-8.
    #[error("node {node}: text")]
    Text { node: u32 },
    /// The full path breaks a rule of paths, other than the limit of depth.
    #[error("node {node}: name")]
    Name { node: u32 },
    /// The full path has over 2,048 components.
    #[error("node {node}: depth")]
    Deep { node: u32 },
    /// The base name isn't said to begin where the last component does.
    #[error("node {node}: base")]
    Base { node: u32 },
    /// The path doesn't stand right in the directory whose child the node is.
    #[error("node {node}: parent")]
    Parent { node: u32 },
    /// The name isn't greater than that of the node before.
    #[error("node {node}: order")]
    Order { node: u32 },
    /// The copy source lies outside the used bytes, isn't UTF-8 or isn't a path.
    #[error("node {node}: copy")]
    Copy { node: u32 },
    /// A time is recorded that has 10^9 nanoseconds or more, or 2^31 seconds or more.
    #[error("node {node}: time")]
    Times { node: u32 },
}
