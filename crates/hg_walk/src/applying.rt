//! Notes are written into a table.

ghost use Rattle.std.specs.Prelude.{◌≡◌, Some, None, IsTrue, OnOk, map, option_map};
ghost use Rattle.hg_entry.specs.Entry.{cache_view, stamp_view, view};
ghost use Rattle.hg_entry.specs.Steps.{is_file};
ghost use Rattle.hg_mixed.specs.Edits.{ArePlacedAsBefore, IsOfSameImage};
ghost use Rattle.hg_nodes.specs.Edits.{IsFormed, IsSame, after_cache};
ghost use Rattle.hg_mixed.specs.Held.{table};
ghost use Rattle.hg_walk.specs.Applying.{CanApply, IsBare, LendsNotes, MarksNotes, clean_note, dir_note};
ghost use Rattle.hg_walk.specs.Notes.{applied, with_hash};
ghost use Rattle.hg_walk.specs.Writing.{AreAllBare, AreAllCacheable, AreAllFiles, IsEdit, IsHashed, WritesClean, WritesGone, WritesSeen, after_clean, with_entry};

use crate::clean::Clean;
use crate::notes::Notes;
use crate::noting::ListedDir;
use hg_base::{OutOfMemory, Path, PathRef};
use hg_entry::Entry;
use hg_mixed::Mixed;
use hg_nodes::SetFault;
use std::alloc::Global;

// The entry of a path, where it has one.
fn entry_at(mixed: &Mixed<'_>, path: PathRef<'_>) -> Option<Entry>
    ensures entry { option_map view result ≡ (table mixed.now).entries path.entry.text.now }
    ensures formed { IsFormed (table mixed.now) }
{
    match mixed.get(path) {
        None => None,
        Some(item) => Some(item.entry),
    }
}

// An entry takes the place of another, which is tracked where it is: so it clashes with nothing.
fn set_over(
    alloc: Global,
    mixed: &mut Mixed<'_>,
    path: PathRef<'_>,
    was: Entry,
    entry: Entry,
) -> Result<(), OutOfMemory>
    requires formed { IsFormed (table mixed.old) }
    requires was { (table mixed.old).entries path.text.now ≡ Some (view was) }
    requires tracked { entry.w ≡ was.w }
    ensures edit { OnOk result (IsEdit path.entry.text.now (with_entry path.entry.text.now (view entry) (table mixed.old)) mixed.old mixed.new) }
    ensures image { IsOfSameImage mixed.old mixed.new }
{
    match mixed.set(alloc, path, entry) {
        Ok(()) => Ok(()),
        Err(SetFault::OutOfMemory) => Err(OutOfMemory),
        Err(SetFault::Clash { .. }) => unreachable!(),
    }
}

// What was seen of a clean path is written into its entry, where it has one.
fn put_clean(alloc: Global, mixed: &mut Mixed<'_>, note: &Clean) -> Result<(), OutOfMemory>
    requires { IsTrue (is_file note.now.stat.kind) }
    ensures edit { OnOk result (IsEdit note.now.path (after_clean (clean_note note.now) (table mixed.old)) mixed.old mixed.new) }
    ensures image { IsOfSameImage mixed.old mixed.new }
{
    match entry_at(mixed, note.path.as_ref()) {
        None => Ok(()),
        Some(was) => {
            let mut entry = was;
            entry.note_clean(&note.stat, note.stamp);
            set_over(alloc, mixed, note.path.as_ref(), was, entry)
        }
    }
}

// Each clean path, the last first: of two notes of one path the first stands. A note goes once it is written, so that the table has its room.
fn put_all_clean(
    alloc: Global,
    mixed: &mut Mixed<'_>,
    mut notes: Vec<Clean>,
) -> Result<(), OutOfMemory>
    requires { AreAllFiles (map clean_note notes.items) }
    ensures written { OnOk result (WritesClean (map clean_note notes.items) mixed.old mixed.new) }
    ensures image { IsOfSameImage mixed.old mixed.new }
{
    while let Some(note) = notes.pop() {
        put_clean(alloc, mixed, &note)?;
    }
    Ok(())
}

// A directory isn't cached any more.
fn forget(alloc: Global, mixed: &mut Mixed<'_>, dir: &Path) -> Result<(), OutOfMemory>
    requires { IsBare (table mixed.old) dir.now }
    ensures edit { OnOk result (IsEdit dir.now (after_cache dir.now None (table mixed.old)) mixed.old mixed.new) }
    ensures image { IsOfSameImage mixed.old mixed.new }
{
    mixed.forget_dir(alloc, dir.as_ref())
}

// So are some.
fn forget_all(alloc: Global, mixed: &mut Mixed<'_>, mut gone: Vec<Path>) -> Result<(), OutOfMemory>
    requires { AreAllBare (table mixed.old) gone.items }
    ensures written { OnOk result (WritesGone gone.items mixed.old mixed.new) }
    ensures image { IsOfSameImage mixed.old mixed.new }
{
    while let Some(dir) = gone.pop() {
        forget(alloc, mixed, &dir)?;
    }
    Ok(())
}

// A directory is cached with the time that was noted.
fn put_seen(alloc: Global, mixed: &mut Mixed<'_>, note: &ListedDir) -> Result<(), OutOfMemory>
    requires { IsBare (table mixed.old) note.now.dir }
    ensures edit { OnOk result (IsEdit note.now.dir (after_cache note.now.dir (Some (cache_view note.now.stamp)) (table mixed.old)) mixed.old mixed.new) }
    ensures image { IsOfSameImage mixed.old mixed.new }
{
    mixed.note_dir(alloc, note.dir.as_ref(), note.stamp)
}

// So are some, the last first.
fn put_all_seen(
    alloc: Global,
    mixed: &mut Mixed<'_>,
    mut notes: Vec<ListedDir>,
) -> Result<(), OutOfMemory>
    requires { AreAllCacheable (table mixed.old) (map dir_note notes.items) }
    ensures written { OnOk result (WritesSeen (map dir_note notes.items) mixed.old mixed.new) }
    ensures image { IsOfSameImage mixed.old mixed.new }
{
    while let Some(note) = notes.pop() {
        put_seen(alloc, mixed, &note)?;
    }
    Ok(())
}

// The hash is written, where another was noted.
fn put_hash(mixed: &mut Mixed<'_>, hash: Option<[u8; 20]>)
    ensures { IsHashed (with_hash hash (table mixed.old).hash) mixed.old mixed.new }
{
    match hash {
        None => (),
        Some(hash) => mixed.set_hash(hash),
    }
}

/// Writes what a walk noted into the table that it walked over. Where memory is wanting, some of it may be written.
pub fn apply(alloc: Global, mixed: &mut Mixed<'_>, notes: Notes) -> Result<(), OutOfMemory>
    requires { CanApply notes (table mixed.old) }
    ensures table { OnOk result (IsSame (table mixed.new) (applied notes (table mixed.old))) }
    ensures changed { OnOk result (MarksNotes notes mixed.old mixed.new) }
    ensures lent { OnOk result (LendsNotes notes mixed.old mixed.new) }
    ensures places { OnOk result (ArePlacedAsBefore mixed.old mixed.new) }
    ensures image { IsOfSameImage mixed.old mixed.new }
{
    let (clean, gone, seen, hash) = notes.into_lists();
    put_all_clean(alloc, mixed, clean)?;
    forget_all(alloc, mixed, gone)?;
    put_all_seen(alloc, mixed, seen)?;
    put_hash(mixed, hash);
    Ok(())
}
