//! How a table is written.

/// How a table is written.
#[derive(Clone, Copy, Debug, PartialEq, Eq)]
pub enum Way {
    /// Behind what the data file has, of which the table keeps what it can.
    Append,
    /// As a new data file.
    Rewrite,
}
