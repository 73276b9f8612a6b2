//! What the dirstate records of the copy.

ghost use Rattle.std.specs.Prelude.{◌≡◌, ◌<◌, ◌≤◌, ◌+◌, ◌*◌, IfOk, OnOk, option_map};
ghost use Rattle.hg_entry.specs.Entry.{view};
ghost use Rattle.hg_gen.specs.Copy.{path_of};
ghost use Rattle.hg_gen.specs.Recorded as recorded;
ghost use Rattle.hg_gen.specs.Recorded.{AreEntries, IsEmpty, IsRecorded, KeepsHead};
ghost use Rattle.hg_nodes.specs.Edits.{IsSame, after_set};
ghost use Rattle.hg_mixed.specs.Held.{table};

use crate::lot::{is_in_parent, is_tracked};
use crate::names::{WIDTH, path_of};
use hg_append::{Encoded, Way, encode};
use hg_base::{Id20, OutOfMemory};
use hg_docket::Docket;
use hg_entry::Entry;
use hg_image::Image;
use hg_mixed::Mixed;
use std::alloc::Global;

// The first parent; there is no second one.
const PARENT: Id20 = Id20([0x11; 20]);

const NONE: Id20 = Id20([0; 20]);

// The entry of a file, where it has one.
fn entry_of(file: u32) -> Option<Entry>
    ensures { option_map view result ≡ recorded.entry_of file }
{
    let w = is_tracked(file);
    let p1 = is_in_parent(file);
    if !w && !p1 {
        return None;
    }
    Some(Entry {
        w,
        p1,
        p2: false,
        exec: false,
        link: false,
        size: None,
        stamp: None,
        modified: false,
        fallback: 0,
    })
}

// Sets the entry of a file.
fn set_entry(
    alloc: Global,
    mixed: &mut Mixed<'_>,
    file: u32,
    entry: Entry,
) -> Result<(), OutOfMemory>
    requires { file < 32000 }
    ensures table { OnOk result (IsSame (table mixed.new) (after_set (path_of file) (view entry) (table mixed.old))) }
    ensures head { OnOk result (KeepsHead mixed.old mixed.new) }
{
    let path = path_of(alloc, file)?;
    match mixed.set(alloc, path.as_ref(), entry) {
        Ok(()) => Ok(()),
        Err(_) => Err(OutOfMemory),
    }
}

// Sets the entry of a file, where it has one, behind those of lower numbers.
fn record_file(alloc: Global, mixed: &mut Mixed<'_>, file: u32) -> Result<(), OutOfMemory>
    requires { file < 32000 }
    ensures entries { OnOk result (AreEntries file (table mixed.old) → AreEntries (file + 1) (table mixed.new)) }
    ensures head { OnOk result (KeepsHead mixed.old mixed.new) }
{
    match entry_of(file) {
        None => Ok(()),
        Some(entry) => set_entry(alloc, mixed, file, entry),
    }
}

// Sets the entries of all files.
fn fill(alloc: Global, mixed: &mut Mixed<'_>, dirs: u32) -> Result<(), OutOfMemory>
    requires { dirs ≤ 2000 }
    ensures entries { OnOk result (AreEntries 0 (table mixed.old) → AreEntries (16 * dirs) (table mixed.new)) }
    ensures head { OnOk result (KeepsHead mixed.old mixed.new) }
{
    for file in 0..WIDTH * dirs {
        record_file(alloc, mixed, file)?;
    }
    Ok(())
}

// Records all files of so many directories over an empty image.
fn record_over(alloc: Global, image: Image<'_>, dirs: u32) -> Result<Encoded, OutOfMemory>
    requires few { dirs ≤ 2000 }
    requires empty { IsEmpty image }
    ensures { IfOk result (IsRecorded dirs) }
{
    let mut mixed = Mixed::open(image);
    mixed.set_ids(PARENT, NONE);
    fill(alloc, &mut mixed, dirs)?;
    match encode(alloc, &mixed, Way::Rewrite) {
        Ok(encoded) => Ok(encoded),
        Err(_) => Err(OutOfMemory),
    }
}

/// The docket and the data file of the copy of so many directories.
pub(crate) fn record(alloc: Global, dirs: u32) -> Result<Encoded, OutOfMemory>
    requires { dirs ≤ 2000 }
    ensures { IfOk result (IsRecorded dirs) }
{
    match Docket::read(&[]) {
        Err(_) => unreachable!(),
        Ok(docket) => match Image::open(&docket, &[]) {
            Err(_) => unreachable!(),
            Ok(image) => record_over(alloc, image, dirs),
        },
    }
}
