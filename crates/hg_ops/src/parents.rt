//! `debugsetparents`: the working copy has other parents.

ghost use Rattle.std.specs.Prelude.{◌≡◌, true, false, not, ◌&&◌, Some, None, OnOk, ◌||◌, MatchBool, List, ℕ, Bool, is_some};
ghost use Rattle.std.specs.Map.{keys_of};
ghost use Rattle.hg_entry.specs.Entry.{view};
ghost use Rattle.hg_manifest.specs.Plain.{is_null};
ghost use Rattle.hg_mixed.specs.Edits.{IsOfSameImage};
ghost use Rattle.hg_nodes.specs.Edits.{IsFormed, IsSame, Marks};
ghost use Rattle.hg_mixed.specs.Held.{Held, table};
ghost use Rattle.hg_ops.specs.Parents.{HasParents, LendsParents, PlacesParents, entry_by};
ghost use Rattle.hg_ops.specs.Dropping.{AreDropping, Drops};
ghost use Rattle.hg_ops.specs.Setting.{AreSetting, ClearsSource, SetsTo, Settles, is_among};

use crate::entries::entry_at;
use crate::paths::paths_with_entry;
use crate::wanted::{entry_by, is_null, is_same};
use hg_base::{Id20, OutOfMemory, Path, PathRef};
use hg_entry::Entry;
use hg_manifest::Manifest;
use hg_mixed::Mixed;
use std::alloc::Global;

// Whether a path has this entry.
fn has_entry(mixed: &Mixed<'_>, path: PathRef<'_>, entry: Entry) -> bool
    ensures { MatchBool result ((table mixed.now).entries path.entry.text.now ≡ Some (view entry)) ((table mixed.now).entries path.entry.text.now ≡ Some (view entry) → ⊥) }
{
    match entry_at(mixed, path) {
        None => false,
        Some(was) => is_same(was, entry),
    }
}

// Whether a path has a copy source.
fn has_source(mixed: &Mixed<'_>, path: PathRef<'_>) -> bool
    ensures { MatchBool result ((table mixed.now).sources path.entry.text.now ≡ None → ⊥) ((table mixed.now).sources path.entry.text.now ≡ None) }
{
    match mixed.get(path) {
        None => false,
        Some(item) => item.source.is_some(),
    }
}

// A path gets an entry, which is tracked only where the path's own was: so it clashes with nothing.
fn set_to(
    alloc: Global,
    mixed: &mut Mixed<'_>,
    path: PathRef<'_>,
    entry: Entry,
) -> Result<(), OutOfMemory>
    ensures set { OnOk result (SetsTo path.entry.text.now (view entry) mixed.old mixed.new) }
    ensures image { IsOfSameImage mixed.old mixed.new }
{
    if has_entry(mixed, path, entry) {
        return Ok(());
    }
    match mixed.set(alloc, path, entry) {
        Ok(()) => Ok(()),
        Err(_) => Err(OutOfMemory),
    }
}

// A path has no copy source any more.
fn clear_source(alloc: Global, mixed: &mut Mixed<'_>, path: PathRef<'_>) -> Result<(), OutOfMemory>
    requires { is_some ((table mixed.old).entries path.text.now) ≡ true }
    ensures cleared { OnOk result (ClearsSource path.entry.text.now mixed.old mixed.new) }
    ensures image { IsOfSameImage mixed.old mixed.new }
{
    if !has_source(mixed, path) {
        return Ok(());
    }
    mixed.copy_from(alloc, path, None)
}

// A path gets an entry, and has no copy source.
fn set_bare(
    alloc: Global,
    mixed: &mut Mixed<'_>,
    path: PathRef<'_>,
    entry: Entry,
) -> Result<(), OutOfMemory>
    ensures settled { OnOk result (Settles path.entry.text.now (Some (view entry)) mixed.old mixed.new) }
    ensures image { IsOfSameImage mixed.old mixed.new }
{
    set_to(alloc, mixed, path, entry)?;
    clear_source(alloc, mixed, path)
}

// A path that stays gets the entry that the parents want, and has no copy source.
fn settle(
    alloc: Global,
    mixed: &mut Mixed<'_>,
    merged: bool,
    m1: &Manifest,
    m2: &Manifest,
    path: PathRef<'_>,
) -> Result<(), OutOfMemory>
    ensures settled { OnOk result (Settles path.entry.text.now (entry_by merged m1.now m2.now path.entry.text.now ((table mixed.old).entries path.entry.text.now)) mixed.old mixed.new) }
    ensures image { IsOfSameImage mixed.old mixed.new }
{
    match entry_by(merged, m1, m2, path, entry_at(mixed, path)) {
        None => Ok(()),
        Some(entry) => set_bare(alloc, mixed, path, entry),
    }
}

// Each path of a manifest that stays gets the entry that the parents want.
fn settle_rows(
    alloc: Global,
    mixed: &mut Mixed<'_>,
    merged: bool,
    m1: &Manifest,
    m2: &Manifest,
    rows: &Manifest,
) -> Result<(), OutOfMemory>
    ensures set { OnOk
        result
        ((old : Held) (done : List ℕ → Bool)
        → AreSetting (entry_by merged m1.now m2.now) old mixed.old done
        → AreSetting (entry_by merged m1.now m2.now) old mixed.new (λ at. done at || is_among (keys_of rows.now) at)) }
    ensures image { IsOfSameImage mixed.old mixed.new }
{
    for i in 0..rows.len() {
        settle(alloc, mixed, merged, m1, m2, rows.at(i).0)?;
    }
    Ok(())
}

// The same of some paths.
fn settle_paths(
    alloc: Global,
    mixed: &mut Mixed<'_>,
    merged: bool,
    m1: &Manifest,
    m2: &Manifest,
    paths: &[Path],
) -> Result<(), OutOfMemory>
    ensures set { OnOk
        result
        ((old : Held) (done : List ℕ → Bool)
        → AreSetting (entry_by merged m1.now m2.now) old mixed.old done
        → AreSetting (entry_by merged m1.now m2.now) old mixed.new (λ at. done at || is_among paths.now at)) }
    ensures formed { OnOk result (IsFormed (table mixed.new)) }
    ensures image { IsOfSameImage mixed.old mixed.new }
{
    for i in 0..paths.len() {
        settle(alloc, mixed, merged, m1, m2, paths[i].as_ref())?;
    }
    let _ = mixed.parents();
    Ok(())
}

// The entry of a path goes where the parents want none.
fn drop_lost(
    alloc: Global,
    mixed: &mut Mixed<'_>,
    merged: bool,
    m1: &Manifest,
    m2: &Manifest,
    path: PathRef<'_>,
) -> Result<(), OutOfMemory>
    ensures dropped { OnOk result (Drops path.entry.text.now (entry_by merged m1.now m2.now path.entry.text.now ((table mixed.old).entries path.entry.text.now)) mixed.old mixed.new) }
    ensures image { IsOfSameImage mixed.old mixed.new }
{
    let was = entry_at(mixed, path);
    if was.is_none() | entry_by(merged, m1, m2, path, was).is_some() {
        return Ok(());
    }
    mixed.drop_entry(alloc, path)
}

// So do those of some paths.
fn drop_paths(
    alloc: Global,
    mixed: &mut Mixed<'_>,
    merged: bool,
    m1: &Manifest,
    m2: &Manifest,
    paths: &[Path],
) -> Result<(), OutOfMemory>
    ensures dropped { OnOk result (AreDropping (entry_by merged m1.now m2.now) mixed.old mixed.new (is_among paths.now)) }
    ensures image { IsOfSameImage mixed.old mixed.new }
{
    for i in 0..paths.len() {
        drop_lost(alloc, mixed, merged, m1, m2, paths[i].as_ref())?;
    }
    Ok(())
}

/// Writes the parents of the working copy, and of each path whether the first has it and whether the second has another file there, by their
/// manifests. A tracked path stays tracked; nothing is known of its file any more, nor where it was copied from.
///
/// All that stays is set before anything is dropped, so that no directory goes in between.
pub fn set_parents(
    alloc: Global,
    mixed: &mut Mixed<'_>,
    p1: Id20,
    p2: Id20,
    m1: &Manifest,
    m2: &Manifest,
) -> Result<(), OutOfMemory>
    ensures parents { OnOk result (HasParents p1.0 p2.0 m1.now m2.now (table mixed.old) (table mixed.new)) }
    ensures changed { OnOk result (Marks (IsSame (table mixed.new) (table mixed.old)) mixed.old.changed mixed.new.changed) }
    ensures lent { OnOk result (LendsParents mixed.old mixed.new) }
    ensures places { OnOk result (PlacesParents mixed.old mixed.new) }
    ensures image { IsOfSameImage mixed.old mixed.new }
{
    let merged = !is_null(&p2);
    let paths = paths_with_entry(alloc, mixed)?;
    settle_rows(alloc, mixed, merged, m1, m2, m1)?;
    settle_rows(alloc, mixed, merged, m1, m2, m2)?;
    settle_paths(alloc, mixed, merged, m1, m2, paths.as_slice())?;
    drop_paths(alloc, mixed, merged, m1, m2, paths.as_slice())?;
    mixed.set_ids(p1, p2);
    let _ = mixed.parents();
    Ok(())
}
