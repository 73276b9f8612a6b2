//! `forget`: a path isn't tracked any more.

ghost use Rattle.std.specs.Prelude.{◌≡◌, None, Some, false, true, IfErr, IfOk, IfSome, OnErr, OnOk};
ghost use Rattle.hg_entry.specs.Entry.{view};
ghost use Rattle.hg_mixed.specs.Edits.{ArePlacedAsBefore, IsOfSameImage, IsUnchanged, Lends, PlacesCopy};
ghost use Rattle.hg_nodes.specs.Edits.{IsSame, Marks, after_set, after_copy};
ghost use Rattle.hg_mixed.specs.Held.{table};
ghost use Rattle.hg_ops.specs.Cause.{LeavesAll};
ghost use Rattle.hg_ops.specs.Step.{IsForget, IsUntracked};
ghost use Rattle.hg_ops.specs.Untracked.{PlacesForgotten, PlacesUntracked};
ghost use Rattle.hg_ops.specs.declared.refusal.OpFault.TheVariants as a_fault;

use crate::entries::entry_at;
use crate::refusal::{OpFault, Refusal};
use hg_base::PathRef;
use hg_entry::Entry;
use hg_mixed::Mixed;
use hg_nodes::SetFault;
use std::alloc::Global;

/// A path isn't tracked any more, and has no copy source. Where a parent has it an entry is left that says so.
///
/// The working copy isn't asked, and needs no file there.
pub fn forget(alloc: Global, mixed: &mut Mixed<'_>, word: &str) -> Result<Option<Refusal>, OpFault>
    ensures stepped { IfOk result (λ refused. IsForget word.now (table mixed.old) refused (table mixed.new)) }
    ensures unchanged { IfOk result (λ refused. IfSome refused (λ r. IsUnchanged mixed.old mixed.new)) }
    ensures changed { OnOk result (Marks (IsSame (table mixed.new) (table mixed.old)) mixed.old.changed mixed.new.changed) }
    ensures lent { OnOk result (Lends word.now (IsSame (table mixed.new) (table mixed.old)) mixed.old mixed.new) }
    ensures places { IfOk result (λ refused. PlacesForgotten word.now refused mixed.old mixed.new) }
    ensures image { IsOfSameImage mixed.old mixed.new }
    ensures err { OnErr result (LeavesAll word.now (table mixed.old) (table mixed.new)) }
    ensures cause { IfErr result (λ fault. fault ≡ a_fault.OutOfMemory) }
{
    match PathRef::read(word) {
        Err(_) => Ok(Some(Refusal::BadPath)),
        Ok(path) => forget_path(alloc, mixed, path),
    }
}

// The same of a word that is a path.
fn forget_path(
    alloc: Global,
    mixed: &mut Mixed<'_>,
    path: PathRef<'_>,
) -> Result<Option<Refusal>, OpFault>
    ensures stepped { IfOk result (λ refused. IsForget path.entry.text.now (table mixed.old) refused (table mixed.new)) }
    ensures unchanged { IfOk result (λ refused. IfSome refused (λ r. IsUnchanged mixed.old mixed.new)) }
    ensures changed { OnOk result (Marks (IsSame (table mixed.new) (table mixed.old)) mixed.old.changed mixed.new.changed) }
    ensures lent { OnOk result (Lends path.entry.text.now (IsSame (table mixed.new) (table mixed.old)) mixed.old mixed.new) }
    ensures places { IfOk result (λ refused. PlacesForgotten path.entry.text.now refused mixed.old mixed.new) }
    ensures image { IsOfSameImage mixed.old mixed.new }
    ensures err { OnErr result (LeavesAll path.entry.text.now (table mixed.old) (table mixed.new)) }
    ensures cause { IfErr result (λ fault. fault ≡ a_fault.OutOfMemory) }
{
    match entry_at(mixed, path) {
        None => Ok(Some(Refusal::NotTracked)),
        Some(entry) => {
            if !entry.w {
                return Ok(Some(Refusal::NotTracked));
            }
            match untrack(alloc, mixed, path, entry) {
                Err(fault) => Err(fault),
                Ok(()) => Ok(None),
            }
        }
    }
}

// A tracked path isn't tracked any more.
pub(crate) fn untrack(
    alloc: Global,
    mixed: &mut Mixed<'_>,
    path: PathRef<'_>,
    entry: Entry,
) -> Result<(), OpFault>
    requires entry { (table mixed.old).entries path.text.now ≡ Some (view entry) }
    requires tracked { entry.w ≡ true }
    ensures untracked { OnOk result (IsUntracked path.entry.text.now (Some (view entry)) (table mixed.old) (table mixed.new)) }
    ensures changed { OnOk result (Marks (IsSame (table mixed.new) (table mixed.old)) mixed.old.changed mixed.new.changed) }
    ensures lent { OnOk result (Lends path.entry.text.now (IsSame (table mixed.new) (table mixed.old)) mixed.old mixed.new) }
    ensures places { OnOk result (PlacesUntracked path.entry.text.now (Some (view entry)) mixed.old mixed.new) }
    ensures image { IsOfSameImage mixed.old mixed.new }
    ensures err { OnErr result (LeavesAll path.entry.text.now (table mixed.old) (table mixed.new)) }
    ensures cause { IfErr result (λ fault. fault ≡ a_fault.OutOfMemory) }
{
    let mut left = entry;
    if left.set_untracked() {
        return leave(alloc, mixed, path, entry, left);
    }
    match mixed.drop_entry(alloc, path) {
        Err(_) => Err(OpFault::OutOfMemory),
        Ok(()) => Ok(()),
    }
}

// What is left of the entry of a path that a parent has.
fn leave(
    alloc: Global,
    mixed: &mut Mixed<'_>,
    path: PathRef<'_>,
    was: Entry,
    left: Entry,
) -> Result<(), OpFault>
    requires entry { (table mixed.old).entries path.text.now ≡ Some (view was) }
    requires tracked { was.w ≡ true }
    requires untracked { left.w ≡ false }
    ensures table { OnOk result (IsSame (table mixed.new) (after_set path.entry.text.now (view left) (after_copy path.entry.text.now None (table mixed.old)))) }
    ensures changed { OnOk result (Marks (IsSame (table mixed.new) (table mixed.old)) mixed.old.changed mixed.new.changed) }
    ensures lent { OnOk result (Lends path.entry.text.now (IsSame (table mixed.new) (table mixed.old)) mixed.old mixed.new) }
    ensures places { OnOk result (PlacesCopy path.entry.text.now ((table mixed.old).sources path.entry.text.now ≡ None) mixed.old mixed.new) }
    ensures image { IsOfSameImage mixed.old mixed.new }
    ensures err { OnErr result (LeavesAll path.entry.text.now (table mixed.old) (table mixed.new)) }
    ensures cause { IfErr result (λ fault. fault ≡ a_fault.OutOfMemory) }
{
    match mixed.copy_from(alloc, path, None) {
        Err(_) => Err(OpFault::OutOfMemory),
        Ok(()) => set_left(alloc, mixed, path, left),
    }
}

// Sets an entry that isn't tracked.
fn set_left(
    alloc: Global,
    mixed: &mut Mixed<'_>,
    path: PathRef<'_>,
    left: Entry,
) -> Result<(), OpFault>
    requires { left.w ≡ false }
    ensures table { OnOk result (IsSame (table mixed.new) (after_set path.entry.text.now (view left) (table mixed.old))) }
    ensures changed { OnOk result (Marks (IsSame (table mixed.new) (table mixed.old)) mixed.old.changed mixed.new.changed) }
    ensures lent { OnOk result (Lends path.entry.text.now (IsSame (table mixed.new) (table mixed.old)) mixed.old mixed.new) }
    ensures places { OnOk result (ArePlacedAsBefore mixed.old mixed.new) }
    ensures image { IsOfSameImage mixed.old mixed.new }
    ensures err { OnErr result (IsUnchanged mixed.old mixed.new) }
    ensures cause { IfErr result (λ fault. fault ≡ a_fault.OutOfMemory) }
{
    match mixed.set(alloc, path, left) {
        Ok(()) => Ok(()),
        Err(SetFault::OutOfMemory) => Err(OpFault::OutOfMemory),
        // (what isn't tracked clashes with nothing)
        Err(SetFault::Clash { .. }) => Err(OpFault::OutOfMemory),
    }
}
