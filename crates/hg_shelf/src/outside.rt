// What is done to the files of a shelf in memory, by its caller and by others.

use hg_base::{Blob, Text};

/// A change that another makes.
#[derive(Debug, Drop)]
pub enum Outside {
    /// A file is put, with all its bytes, in place of one of that name; a crash leaves it.
    Place { name: Text, bytes: Blob },
    /// A file is taken away, and doesn't come back by a crash.
    Remove { name: Text },
}

/// A change that another is to make just before a call, which are counted from 0.
#[derive(Debug, Drop)]
pub struct Due {
    pub call: u64,
    pub change: Outside,
}

/// What a change does: the first two are of others, the rest of the caller's calls.
#[derive(Debug, Drop)]
pub enum Step {
    Placed { name: Text, bytes: Blob },
    Taken { name: Text },
    Wrote { name: Text, place: u64, bytes: Blob },
    Synced { name: Text },
    Renamed { from: Text, to: Text },
    SyncedNames,
    Removed { name: Text },
}

/// A change that was made: by or just before the call of which number, by the caller of the shelf or by another, and whether the
/// caller held the lock meanwhile.
#[derive(Debug, Drop)]
pub struct Change {
    pub call: u64,
    pub by_us: bool,
    pub under_lock: bool,
    pub what: Step,
}
