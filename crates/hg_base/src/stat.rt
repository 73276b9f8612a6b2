//! What a look at the working copy answers.

use crate::time::Time;

/// The kind of a thing in the working copy. Fifos, sockets and devices are `Other`.
#[derive(Clone, Copy, Debug, PartialEq, Eq)]
pub enum Kind {
    File,
    Link,
    Dir,
    Other,
}

/// What a stat shows of a thing, links not followed.
///
/// `exec` is the owner's bit and false unless the kind is `File`. `size` is in bytes: a link's is its target's length, that of a
/// `Dir` or an `Other` is 0. The time of an `Other` is 0.0.
#[derive(Clone, Copy, Debug, PartialEq, Eq)]
pub struct Stat {
    pub kind: Kind,
    pub exec: bool,
    pub size: u64,
    pub mtime: Time,
}

/// What a read at a place answers: nothing stands there, or so many bytes were put into the buffer.
#[derive(Clone, Copy, Debug, PartialEq, Eq)]
pub enum Got {
    Absent,
    Bytes(usize),
}
