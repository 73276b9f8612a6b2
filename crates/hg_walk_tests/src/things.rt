// Things that are placed in a working copy and taken away, at times as a file system gives them: what changes has the time of the clock, and so has the
// directory that it stands in.
ghost use Rattle.std.specs.Prelude.{IfOk, IsTrue};
ghost use Rattle.hg_tree.specs.Moment.{is_short_thing};

use crate::places::DIRS;
use hg_base::{Blob, Failed, Got, Kind, PathRef, Stat, Time, is_below};
use hg_tree::{MemTree, Thing, Tree};
use std::alloc::Global;
use std::test::Fail;
use std::vec::Vec;

/// What stands at a path, but for its bytes.
#[derive(Clone, Copy, Debug)]
pub(crate) enum What {
    File { exec: bool },
    Link,
    Dir,
    Other,
}

/// A file or link with its bytes and its time.
#[derive(Drop)]
pub(crate) struct Standing {
    pub what: What,
    pub bytes: Vec<u8>,
    pub mtime: Time,
}

fn file(alloc: Global, exec: bool, bytes: &[u8]) -> Result<Thing, Fail>
    ensures { IfOk result (λ thing. IsTrue (is_short_thing thing)) }
{
    let bytes = Blob::of(alloc, bytes)?;
    Ok(Thing::File { exec, bytes })
}

fn link(alloc: Global, target: &[u8]) -> Result<Thing, Fail>
    ensures { IfOk result (λ thing. IsTrue (is_short_thing thing)) }
{
    if target.len() > 4_095 {
        return Err("a long target".into());
    }
    let target = Blob::of(alloc, target)?;
    Ok(Thing::Link { target })
}

fn thing(alloc: Global, what: What, bytes: &[u8]) -> Result<Thing, Fail>
    ensures { IfOk result (λ thing. IsTrue (is_short_thing thing)) }
{
    match what {
        What::File { exec } => file(alloc, exec, bytes),
        What::Link => link(alloc, bytes),
        What::Dir => Ok(Thing::Dir),
        What::Other => Ok(Thing::Other),
    }
}

fn look(tree: &mut MemTree, path: &str) -> Result<Option<Stat>, Fail> {
    Ok(tree.stat(PathRef::read(path)?)?)
}

fn read(tree: &mut MemTree, path: PathRef<'_>, buf: &mut [u8]) -> Result<Got, Failed> {
    tree.read(path, 0, buf)
}

fn bytes_at(alloc: Global, tree: &mut MemTree, path: &str) -> Result<Vec<u8>, Fail> {
    let mut buf = [0; 64];
    match read(tree, PathRef::read(path)?, &mut buf)? {
        Got::Absent => Ok(Vec::new(alloc)),
        Got::Bytes(n) => Ok(Vec::from_slice(alloc, buf.get(..n).unwrap_or(&[]))?),
    }
}

// A file or link, by what a look shows of it.
fn kind_of(stat: &Stat) -> Option<What> {
    match stat.kind {
        Kind::File => Some(What::File { exec: stat.exec }),
        Kind::Link => Some(What::Link),
        Kind::Dir | Kind::Other => None,
    }
}

/// The file or link at a path, where one stands there.
pub(crate) fn file_at(
    alloc: Global,
    tree: &mut MemTree,
    path: &str,
) -> Result<Option<Standing>, Fail> {
    let Some(stat) = look(tree, path)? else {
        return Ok(None);
    };
    let Some(what) = kind_of(&stat) else {
        return Ok(None);
    };
    Ok(Some(Standing {
        what,
        bytes: bytes_at(alloc, tree, path)?,
        mtime: stat.mtime,
    }))
}

fn is_dir(tree: &mut MemTree, path: &str) -> Result<bool, Fail> {
    match look(tree, path)? {
        None => Ok(false),
        Some(stat) => Ok(stat.kind == Kind::Dir),
    }
}

// The directory of a path is changed: it has that time, and so have those above it where it isn't there.
fn enter(tree: &mut MemTree, path: &str, time: Time) -> Result<(), Fail> {
    let Some((parent, _)) = path.rsplit_once('/') else {
        return Ok(());
    };
    let there = is_dir(tree, parent)?;
    for dir in DIRS {
        if *dir == parent || (!there && is_below(*dir, parent)) {
            tree.place(PathRef::read(*dir)?, Thing::Dir, time)?;
        }
    }
    Ok(())
}

/// Puts a thing at a path, while the clock stands at `now`.
pub(crate) fn put(
    alloc: Global,
    tree: &mut MemTree,
    path: &str,
    what: What,
    bytes: &[u8],
    mtime: Time,
    now: Time,
) -> Result<(), Fail> {
    enter(tree, path, now)?;
    tree.place(PathRef::read(path)?, thing(alloc, what, bytes)?, mtime)?;
    Ok(())
}

/// Takes away what stands at a path.
pub(crate) fn take(tree: &mut MemTree, path: &str, now: Time) -> Result<(), Fail> {
    if look(tree, path)?.is_none() {
        return Ok(());
    }
    enter(tree, path, now)?;
    tree.take(PathRef::read(path)?)?;
    Ok(())
}
