//! What the system's answer about a path says of the thing that stands there.

ghost use Rattle.std.specs.Prelude.{◌≡◌, IfSome};
ghost use Rattle.hg_tree.specs.Moment.{IsPlain};
ghost use Rattle.hg_base.specs.declared.stat.Kind.TheVariants as a_kind;

use crate::failure::Reason;
use hg_base::{Kind, Stat, Time};
use std::fs::Metadata;
use std::os::unix::fs::MetadataExt;

/// The failure of a file whose nanoseconds make a second.
pub(crate) const NO_TIME: Reason = Reason::Words("a time of more than a second of nanoseconds");

// What metadata show, unless their time is none.
pub(crate) fn stat_of(metadata: &Metadata) -> Option<Stat>
    ensures { IfSome result IsPlain }
{
    let (kind, exec, size) = match kind_of(metadata) {
        Kind::File => (Kind::File, metadata.mode() & 0o100 != 0, metadata.len()),
        Kind::Link => (Kind::Link, false, metadata.len()),
        Kind::Dir => (Kind::Dir, false, 0),
        Kind::Other => return Some(other()),
    };
    let mtime = time_of(metadata)?;
    Some(Stat {
        kind,
        exec,
        size,
        mtime,
    })
}

fn kind_of(metadata: &Metadata) -> Kind {
    if metadata.is_file() {
        return Kind::File;
    }
    if metadata.is_dir() {
        return Kind::Dir;
    }
    if metadata.is_symlink() {
        return Kind::Link;
    }
    Kind::Other
}

// What a fifo, a socket or a device shows.
fn other() -> Stat
    ensures plain { IsPlain result }
    ensures kind { result.kind ≡ a_kind.Other }
{
    Stat {
        kind: Kind::Other,
        exec: false,
        size: 0,
        mtime: Time {
            seconds: 0,
            nanos: 0,
        },
    }
}

/// The time of the last modification, where its nanoseconds make no second.
pub(crate) fn time_of(metadata: &Metadata) -> Option<Time> {
    match u32::try_from(metadata.mtime_nsec()) {
        Ok(nanos) if nanos < 1_000_000_000 => Some(Time {
            seconds: metadata.mtime(),
            nanos,
        }),
        _ => None,
    }
}
