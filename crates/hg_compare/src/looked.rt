//! What a comparison answers.

/// How a path compares with a row of the first parent.
#[derive(Clone, Copy, Debug, PartialEq, Eq)]
pub enum Looked {
    /// Kind, executable bit and all bytes are the row's. It is settled where a look behind the reading shows what the first look showed.
    Same { settled: bool },
    /// Kind, executable bit, size or bytes are others.
    Differs,
    /// Neither a file nor a link stands there any more.
    Gone,
}
