//! What the caller of the tree in memory does to what stands now.

ghost use Rattle.std.specs.Prelude.{◌≡◌, ℕ, List, true, false, OnOk, OnErr, IfOk, is_some, Some};
ghost use Rattle.std.specs.BTreeMap.{get_by_text};
ghost use Rattle.hg_tree.specs.Moment.{IsRooted, is_short_thing};
ghost use Rattle.hg_tree.specs.Own.{IsBarred, IsClear, after_extended, after_made, after_unlink, extended, extended_thing, put_thing};
ghost use Rattle.hg_tree.specs.Own as own;
ghost use Rattle.hg_tree.specs.Parents.{AreHeldAbove};

use crate::thing::{Placed, Thing};
use crate::things::{put, restore};
use hg_base::{Blob, Kind, OutOfMemory, PathRef, Time};
use std::alloc::Global;
use std::collections::BTreeMap;

/// Whether each directory above the path that is there is one.
pub fn is_clear(things: &BTreeMap<String, Placed>, path: PathRef<'_>) -> bool
    requires { IsRooted (get_by_text things.now) }
    ensures clear { result ≡ true → IsClear path.entry.text.now (get_by_text things.now) }
    ensures barred { result ≡ false → IsBarred path.entry.text.now (get_by_text things.now) }
{
    let Some(dir) = path.parent() else {
        return true;
    };
    match things.get(dir.text) {
        Some(placed) => placed.thing.is_dir(),
        None => is_clear(things, dir),
    }
}

/// Whether the thing may take the place of what stands at the path, or the bytes go behind it.
pub fn is_puttable_at(
    things: &BTreeMap<String, Placed>,
    path: &str,
    kind: Kind,
    exec: bool,
    place: u64,
    bytes: &[u8],
) -> bool
    ensures { result ≡ own.is_puttable_at kind exec place bytes.now (get_by_text things.now path.now) }
{
    if place == 0 {
        return is_loose(things, path) && is_short(kind, exec, bytes);
    }
    has_length(things, path, place)
}

// Whether nothing stands there, or what another thing may take the place of.
fn is_loose(things: &BTreeMap<String, Placed>, path: &str) -> bool
    ensures { result ≡ own.is_loose (get_by_text things.now path.now) }
{
    match things.get(path) {
        Some(placed) => matches!(placed.thing, Thing::File { .. } | Thing::Link { .. }),
        None => true,
    }
}

// Whether a file of that length stands there.
fn has_length(things: &BTreeMap<String, Placed>, path: &str, length: u64) -> bool
    ensures { result ≡ own.has_length length (get_by_text things.now path.now) }
{
    match things.get(path) {
        Some(
            Placed {
                thing: Thing::File { bytes, .. },
                ..
            },
        ) => bytes.as_bytes().len() as u64 == length,
        _ => false,
    }
}

// Whether a working copy can hold the thing: a link's target isn't too long.
fn is_short(kind: Kind, exec: bool, bytes: &[u8]) -> bool
    ensures { result ≡ is_short_thing (put_thing kind exec bytes.now) }
{
    match kind {
        Kind::Link => bytes.len() <= 4095,
        Kind::File | Kind::Dir | Kind::Other => true,
    }
}

/// What is put as that kind.
pub fn thing_of(alloc: Global, kind: Kind, exec: bool, bytes: &[u8]) -> Result<Thing, OutOfMemory>
    ensures { IfOk result (λ thing. thing ≡ put_thing kind exec bytes.now) }
{
    match kind {
        Kind::File => {
            let bytes = Blob::of(alloc, bytes)?;
            Ok(Thing::File { exec, bytes })
        }
        Kind::Link => {
            let target = Blob::of(alloc, bytes)?;
            Ok(Thing::Link { target })
        }
        Kind::Dir => Ok(Thing::Dir),
        Kind::Other => Ok(Thing::Other),
    }
}

// A file with more bytes behind its own.
fn longer(alloc: Global, thing: &Thing, more: &[u8]) -> Result<Thing, OutOfMemory>
    ensures { IfOk result (λ longer. longer ≡ extended_thing more.now thing.now) }
{
    match thing {
        Thing::File { exec, bytes } => {
            let mut all = Vec::from_slice(alloc, bytes.as_bytes())?;
            all.extend_from_slice(more)?;
            let bytes = Blob::of(alloc, all.as_slice())?;
            Ok(Thing::File { exec: *exec, bytes })
        }
        other => other.copy(alloc),
    }
}

/// Makes a thing anew at the path, or leaves all as it was. Up to the first directory that is there, those above it have its time.
pub fn make(
    alloc: Global,
    things: &mut BTreeMap<String, Placed>,
    path: PathRef<'_>,
    placed: Placed,
) -> Result<(), OutOfMemory>
    requires { AreHeldAbove path.text.now (get_by_text things.old) }
    ensures ok { OnOk
        result
        ((at : List ℕ)
        → get_by_text things.new at ≡ after_made path.entry.text.now placed.thing placed.mtime (get_by_text things.old) at) }
    ensures err { OnErr result ((at : List ℕ) → get_by_text things.new at ≡ get_by_text things.old at) }
{
    let mtime = placed.mtime;
    let was = put(alloc, things, path.text, placed)?;
    if was.is_some() {
        return Ok(());
    }
    let Some(dir) = path.parent() else {
        return Ok(());
    };
    let parent = Placed {
        thing: Thing::Dir,
        mtime,
    };
    match make(alloc, things, dir, parent) {
        Ok(()) => Ok(()),
        Err(fault) => {
            restore(things, path.text, was);
            Err(fault)
        }
    }
}

/// Puts more bytes behind a file, or leaves all as it was.
pub fn extend(
    alloc: Global,
    things: &mut BTreeMap<String, Placed>,
    path: &str,
    more: &[u8],
    time: Time,
) -> Result<(), OutOfMemory>
    ensures ok { OnOk result ((at : List ℕ) → get_by_text things.new at ≡ after_extended path.now more.now time (get_by_text things.old) at) }
    ensures err { OnErr result ((at : List ℕ) → get_by_text things.new at ≡ get_by_text things.old at) }
{
    let thing = match things.get(path) {
        Some(placed) => longer(alloc, &placed.thing, more)?,
        None => return Ok(()),
    };
    restore(things, path, Some(Placed { thing, mtime: time }));
    Ok(())
}

/// Takes a thing away; the directory that it stood in has that time.
pub fn unlink(things: &mut BTreeMap<String, Placed>, path: PathRef<'_>, time: Time)
    requires rooted { IsRooted (get_by_text things.old) }
    requires there { is_some (get_by_text things.old path.text.now) ≡ true }
    ensures { (at : List ℕ) → get_by_text things.new at ≡ after_unlink path.entry.text.now time (get_by_text things.old) at }
{
    restore(things, path.text, None);
    let Some(dir) = path.parent() else {
        return;
    };
    let parent = Placed {
        thing: Thing::Dir,
        mtime: time,
    };
    restore(things, dir.text, Some(parent));
}
