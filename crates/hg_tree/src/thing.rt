//! The things that stand in a working copy.

ghost use Rattle.std.specs.Prelude.{◌≡◌, IfOk, option_map};
ghost use Rattle.hg_tree.specs.Moment.{IsPlain, bytes_of, is_dir_thing, stat_of};

use hg_base::{Blob, Kind, OutOfMemory, Stat, Time};
use std::alloc::Global;

/// A thing: a regular file with the owner's executable bit, a symbolic link, a directory, or something else as a fifo.
#[derive(Debug, Drop)]
pub enum Thing {
    File { exec: bool, bytes: Blob },
    Link { target: Blob },
    Dir,
    Other,
}

/// A thing with the time of its last modification.
#[derive(Debug, Drop)]
pub struct Placed {
    pub thing: Thing,
    pub mtime: Time,
}

impl Thing {
    pub fn is_dir(&self) -> bool
        ensures { result ≡ is_dir_thing self.now }
    {
        matches!(self, Thing::Dir)
    }

    // A copy of the thing.
    pub(crate) fn copy(&self, alloc: Global) -> Result<Thing, OutOfMemory>
        ensures { IfOk result (λ thing. thing ≡ self.now) }
    {
        match self {
            Thing::File { exec, bytes } => {
                let bytes = Blob::of(alloc, bytes.as_bytes())?;
                Ok(Thing::File { exec: *exec, bytes })
            }
            Thing::Link { target } => {
                let target = Blob::of(alloc, target.as_bytes())?;
                Ok(Thing::Link { target })
            }
            Thing::Dir => Ok(Thing::Dir),
            Thing::Other => Ok(Thing::Other),
        }
    }
}

// What can be read of the thing.
pub(crate) fn bytes_of(thing: &Thing) -> Option<&[u8]>
    ensures { option_map (λ bytes. bytes.now) result ≡ bytes_of thing.now }
{
    match thing {
        Thing::File { bytes, .. } => Some(bytes.as_bytes()),
        Thing::Link { target } => Some(target.as_bytes()),
        Thing::Dir | Thing::Other => None,
    }
}

// What a stat shows of the thing.
pub fn stat_of(placed: &Placed) -> Stat
    ensures shown { result ≡ stat_of placed.now.thing placed.now.mtime }
    ensures fit { IsPlain result }
{
    match &placed.thing {
        Thing::File { exec, bytes } => Stat {
            kind: Kind::File,
            exec: *exec,
            size: bytes.as_bytes().len() as u64,
            mtime: placed.mtime,
        },
        Thing::Link { target } => Stat {
            kind: Kind::Link,
            exec: false,
            size: target.as_bytes().len() as u64,
            mtime: placed.mtime,
        },
        Thing::Dir => Stat {
            kind: Kind::Dir,
            exec: false,
            size: 0,
            mtime: placed.mtime,
        },
        Thing::Other => Stat {
            kind: Kind::Other,
            exec: false,
            size: 0,
            mtime: Time {
                seconds: 0,
                nanos: 0,
            },
        },
    }
}
