//! What a tree was asked, and what is done to it.

use crate::thing::Thing;
use hg_base::{Blob, Path, Time};

/// A call that reads a file or lists a directory; no `dir` is the root.
#[derive(Debug, Drop)]
pub enum Asked {
    Read { path: Path },
    List { dir: Option<Path> },
}

/// What another does to a working copy: a thing is placed, or what stands at a path is taken away; or its clock is set.
#[derive(Debug, Drop)]
pub enum Outside {
    Place {
        path: Path,
        thing: Thing,
        mtime: Time,
    },
    Take {
        path: Path,
    },
    Clock {
        to: Time,
    },
}

/// What the caller of the tree does to it: a file or link is taken away or made anew, or a file gets more bytes.
#[derive(Debug, Drop)]
pub enum Own {
    Unlink { path: Path },
    Make { path: Path, thing: Thing },
    Extend { path: Path, more: Blob },
}

/// A change that was made, by another or by the caller of the tree.
#[derive(Debug, Drop)]
pub enum Change {
    ByOthers { what: Outside },
    ByUs { what: Own },
}

/// A change that another is to make just before a call, which are counted from 0.
#[derive(Debug, Drop)]
pub struct Due {
    pub call: u64,
    pub change: Outside,
}
