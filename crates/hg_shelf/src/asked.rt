//! What a shelf was asked, and what the calls of its lock came to.

use hg_base::Text;

/// A call that asks for the size of a file, or for bytes of it: so many from a place on, in bytes from its start.
#[derive(Debug, Drop)]
pub enum Asked {
    Size { name: Text },
    Read { name: Text, place: u64, length: u64 },
}

/// What a call of the lock came to: it was taken, refused or given back, or taking it or giving it back failed.
#[derive(Clone, Copy, Debug, PartialEq, Eq)]
pub enum LockAnswer {
    Taken,
    Refused,
    GivenBack,
    NotTaken,
    NotGivenBack,
}

/// A call of the lock, and the number of the last moment at its end.
#[derive(Clone, Copy, Debug)]
pub struct LockCall {
    pub answer: LockAnswer,
    pub moment: u64,
}
