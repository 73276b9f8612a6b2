//! `remove`: a file is taken away, and its path isn't tracked any more.

ghost use Rattle.std.specs.Prelude.{◌≡◌, ◌∷◌, ◌⊎◌, [], true, false, None, Some, Ok, is_some, IfErr, IfOk, IfSome, IsTrue, OnErr, OnOk};
ghost use Rattle.hg_entry.specs.Entry.{view};
ghost use Rattle.hg_mixed.specs.Edits.{IsOfSameImage, IsUnchanged, Lends};
ghost use Rattle.hg_nodes.specs.Edits.{IsSame, Marks};
ghost use Rattle.hg_mixed.specs.Held.{table};
ghost use Rattle.hg_ops.specs.Cause.{HasOpCause, LeavesAll};
ghost use Rattle.hg_ops.specs.Finding.{TakesFound, refusal_of};
ghost use Rattle.hg_ops.specs.Parent.{AsksStore, HasStoreCause, KeepsParent, Span, upto};
ghost use Rattle.hg_ops.specs.Remove.{MetRemoving, NeedsRow, ReadsWord, Removes, StopsRemoving, Takes, early_refusal, entry_refusal, may_take, needs_row};
ghost use Rattle.hg_ops.specs.Step.{IsForgotten};
ghost use Rattle.hg_ops.specs.Untracked.{PlacesForgotten};
ghost use Rattle.hg_ops.specs.declared.finding.Found.TheVariants as a_find;
ghost use Rattle.hg_ops.specs.declared.refusal.OpFault.TheVariants as a_fault;
ghost use Rattle.hg_shelf.specs.History as shelves;
ghost use Rattle.hg_shelf.specs.Images as images;
ghost use Rattle.hg_tree.specs.History as trees;
ghost use Rattle.hg_tree.specs.Moment.{bytes_at};
ghost use Rattle.hg_tree.specs.Own.{MayUnlink};
ghost use Rattle.hg_tree.specs.Touched.{ChangesOnly};

use crate::entries::entry_at;
use crate::finding::{Found, find};
use crate::forgetting::untrack;
use crate::parent::Parent;
use crate::refusal::{OpFault, Refusal};
use hg_base::PathRef;
use hg_entry::Entry;
use hg_mixed::Mixed;
use hg_shelf::Shelf;
use hg_tree::Tree;
use std::alloc::Global;

/// Takes the file or link at a path away, and the path isn't tracked any more, as by `forget`. With `after` nothing is taken away, and nothing may
/// stand there.
///
/// What stands there is compared with the first parent's only where neither marks nor a copy source say that it is changed; `parent` keeps the manifest
/// for the next word. A file that is gone by then leaves nothing to take away, and so does a directory. Behind a fault the file may be gone
/// though the table has its path still.
pub fn remove<T: Tree, S: Shelf>(
    alloc: Global,
    mixed: &mut Mixed<'_>,
    tree: &mut T,
    shelf: &mut S,
    parent: &mut Parent,
    word: &str,
    after: bool,
) -> Result<Option<Refusal>, OpFault>
    // What the word came to, whatever was read of the parent before it in a span of calls; and that span goes on.
    ensures stepped { IfOk
        result
        (λ refused. (s : Span) → KeepsParent (upto s (S.history shelf.old)) parent.old
        → Removes
        after
        word.now
        (T.history tree.old)
        (T.history tree.new)
        (upto s (S.history shelf.new))
        (table mixed.old)
        refused
        (table mixed.new)) }
    ensures goes { OnOk
        result
        ((s : Span) → KeepsParent (upto s (S.history shelf.old)) parent.old → KeepsParent (upto s (S.history shelf.new)) parent.new) }
    ensures idle { is_some (early_refusal after word.now (table mixed.old)) ≡ true
        → (result ≡ Ok (early_refusal after word.now (table mixed.old))) × (tree.new ≡ tree.old) × (shelf.new ≡ shelf.old) }
    ensures met { IfErr
        result
        (λ fault. (s : Span) → KeepsParent (upto s (S.history shelf.old)) parent.old
        → MetRemoving
        (needs_row after word.now (table mixed.old))
        word.now
        (T.history tree.old)
        (T.history tree.new)
        (upto s (S.history shelf.new))
        fault) }
    ensures stopped { IfErr
        result
        (λ fault. (s : Span) → KeepsParent (upto s (S.history shelf.old)) parent.old
        → StopsRemoving after word.now (table mixed.old) (T.history tree.old) (T.history tree.new) (upto s (S.history shelf.new))) }
    ensures unchanged { IfOk result (λ refused. IfSome refused (λ r. IsUnchanged mixed.old mixed.new)) }
    ensures changed { OnOk result (Marks (IsSame (table mixed.new) (table mixed.old)) mixed.old.changed mixed.new.changed) }
    ensures lent { OnOk result (Lends word.now (IsSame (table mixed.new) (table mixed.old)) mixed.old mixed.new) }
    ensures places { IfOk result (λ refused. PlacesForgotten word.now refused mixed.old mixed.new) }
    ensures image { IsOfSameImage mixed.old mixed.new }
    ensures err { OnErr result (LeavesAll word.now (table mixed.old) (table mixed.new)) }

    // What is done to the working copy and asked of it, at every answer.
    ensures takes { Takes (may_take after result) word.now (T.history tree.old) (T.history tree.new) }
    ensures touches { IsTrue (T.history tree.old).told → ChangesOnly (word.now ∷ []) (T.history tree.old) (T.history tree.new) }
    ensures asked { ReadsWord (needs_row after word.now (table mixed.old)) word.now (T.history tree.old) (T.history tree.new) }
    ensures cause { HasOpCause (T.faults tree.old) (T.faults tree.new) result }

    // The files below `.hg` are only read, and only where the first parent's row is needed.
    ensures shelf_passes { shelves.Passes (S.history shelf.old) (S.history shelf.new) }
    ensures kept { images.Goes (images.course (S.history shelf.old) (S.images shelf.old)) (images.course (S.history shelf.new) (S.images shelf.new)) }
    ensures held { S.held shelf.new ≡ S.held shelf.old }
    ensures needed { (shelf.new ≡ shelf.old)
        ⊎ NeedsRow (needs_row after word.now (table mixed.old)) word.now (T.history tree.old) (T.history tree.new) }
    ensures store { IfErr
        result
        (λ fault. (s : Span) → KeepsParent (upto s (S.history shelf.old)) parent.old
        → IsTrue s.old.told
        → AsksStore (upto s (S.history shelf.new))) }
    ensures cause_shelf { HasStoreCause (S.faults shelf.old) (S.faults shelf.new) result }
{
    match PathRef::read(word) {
        Err(_) => Ok(Some(Refusal::BadPath)),
        Ok(path) => remove_path(alloc, mixed, tree, shelf, parent, path, after),
    }
}

// The same of a word that is a path.
fn remove_path<T: Tree, S: Shelf>(
    alloc: Global,
    mixed: &mut Mixed<'_>,
    tree: &mut T,
    shelf: &mut S,
    parent: &mut Parent,
    path: PathRef<'_>,
    after: bool,
) -> Result<Option<Refusal>, OpFault>
    ensures stepped { IfOk
        result
        (λ refused. (s : Span) → KeepsParent (upto s (S.history shelf.old)) parent.old
        → Removes
        after
        path.entry.text.now
        (T.history tree.old)
        (T.history tree.new)
        (upto s (S.history shelf.new))
        (table mixed.old)
        refused
        (table mixed.new)) }
    ensures goes { OnOk
        result
        ((s : Span) → KeepsParent (upto s (S.history shelf.old)) parent.old → KeepsParent (upto s (S.history shelf.new)) parent.new) }
    ensures idle { is_some (early_refusal after path.entry.text.now (table mixed.old)) ≡ true
        → (result ≡ Ok (early_refusal after path.entry.text.now (table mixed.old))) × (tree.new ≡ tree.old) × (shelf.new ≡ shelf.old) }
    ensures met { IfErr
        result
        (λ fault. (s : Span) → KeepsParent (upto s (S.history shelf.old)) parent.old
        → MetRemoving
        (needs_row after path.entry.text.now (table mixed.old))
        path.entry.text.now
        (T.history tree.old)
        (T.history tree.new)
        (upto s (S.history shelf.new))
        fault) }
    ensures stopped { IfErr
        result
        (λ fault. (s : Span) → KeepsParent (upto s (S.history shelf.old)) parent.old
        → StopsRemoving after path.entry.text.now (table mixed.old) (T.history tree.old) (T.history tree.new) (upto s (S.history shelf.new))) }
    ensures unchanged { IfOk result (λ refused. IfSome refused (λ r. IsUnchanged mixed.old mixed.new)) }
    ensures changed { OnOk result (Marks (IsSame (table mixed.new) (table mixed.old)) mixed.old.changed mixed.new.changed) }
    ensures lent { OnOk result (Lends path.entry.text.now (IsSame (table mixed.new) (table mixed.old)) mixed.old mixed.new) }
    ensures places { IfOk result (λ refused. PlacesForgotten path.entry.text.now refused mixed.old mixed.new) }
    ensures image { IsOfSameImage mixed.old mixed.new }
    ensures err { OnErr result (LeavesAll path.entry.text.now (table mixed.old) (table mixed.new)) }
    ensures takes { Takes (may_take after result) path.entry.text.now (T.history tree.old) (T.history tree.new) }
    ensures touches { IsTrue (T.history tree.old).told → ChangesOnly (path.entry.text.now ∷ []) (T.history tree.old) (T.history tree.new) }
    ensures asked { ReadsWord (needs_row after path.entry.text.now (table mixed.old)) path.entry.text.now (T.history tree.old) (T.history tree.new) }
    ensures cause { HasOpCause (T.faults tree.old) (T.faults tree.new) result }
    ensures shelf_passes { shelves.Passes (S.history shelf.old) (S.history shelf.new) }
    ensures kept { images.Goes (images.course (S.history shelf.old) (S.images shelf.old)) (images.course (S.history shelf.new) (S.images shelf.new)) }
    ensures held { S.held shelf.new ≡ S.held shelf.old }
    ensures needed { (shelf.new ≡ shelf.old)
        ⊎ NeedsRow (needs_row after path.entry.text.now (table mixed.old)) path.entry.text.now (T.history tree.old) (T.history tree.new) }
    ensures store { IfErr
        result
        (λ fault. (s : Span) → KeepsParent (upto s (S.history shelf.old)) parent.old
        → IsTrue s.old.told
        → AsksStore (upto s (S.history shelf.new))) }
    ensures cause_shelf { HasStoreCause (S.faults shelf.old) (S.faults shelf.new) result }
{
    match entry_of(mixed, path, after) {
        Err(refusal) => Ok(Some(refusal)),
        Ok(entry) => remove_tracked(alloc, mixed, tree, shelf, parent, path, entry, after),
    }
}

// The entry of a path, or why it is refused by what is recorded.
fn entry_of(mixed: &Mixed<'_>, path: PathRef<'_>, after: bool) -> Result<Entry, Refusal>
    ensures entry { IfOk result (λ entry. (table mixed.now).entries path.entry.text.now ≡ Some (view entry)) }
    ensures tracked { IfOk result (λ entry. entry.w ≡ true) }
    ensures early { OnOk result (early_refusal after path.entry.text.now (table mixed.now) ≡ None) }
    ensures refused { IfErr result (λ refusal. early_refusal after path.entry.text.now (table mixed.now) ≡ Some refusal) }
{
    match entry_at(mixed, path) {
        None => Err(Refusal::NotTracked),
        Some(entry) => entry_refused(entry, after),
    }
}

// The same of an entry.
fn entry_refused(entry: Entry, after: bool) -> Result<Entry, Refusal>
    ensures entry { IfOk result (λ same. same ≡ entry) }
    ensures tracked { OnOk result (entry.w ≡ true) }
    ensures early { OnOk result (entry_refusal after (Some (view entry)) ≡ None) }
    ensures refused { IfErr result (λ refusal. entry_refusal after (Some (view entry)) ≡ Some refusal) }
{
    if !entry.w {
        return Err(Refusal::NotTracked);
    }
    if !after && !entry.p1 && !entry.p2 {
        return Err(Refusal::Added);
    }
    Ok(entry)
}

// The same of a path that isn't refused by what is recorded.
fn remove_tracked<T: Tree, S: Shelf>(
    alloc: Global,
    mixed: &mut Mixed<'_>,
    tree: &mut T,
    shelf: &mut S,
    parent: &mut Parent,
    path: PathRef<'_>,
    entry: Entry,
    after: bool,
) -> Result<Option<Refusal>, OpFault>
    requires entry { (table mixed.old).entries path.text.now ≡ Some (view entry) }
    requires tracked { entry.w ≡ true }
    requires early { early_refusal after path.text.now (table mixed.old) ≡ None }
    ensures stepped { IfOk
        result
        (λ refused. (s : Span) → KeepsParent (upto s (S.history shelf.old)) parent.old
        → Removes
        after
        path.entry.text.now
        (T.history tree.old)
        (T.history tree.new)
        (upto s (S.history shelf.new))
        (table mixed.old)
        refused
        (table mixed.new)) }
    ensures goes { OnOk
        result
        ((s : Span) → KeepsParent (upto s (S.history shelf.old)) parent.old → KeepsParent (upto s (S.history shelf.new)) parent.new) }
    ensures met { IfErr
        result
        (λ fault. (s : Span) → KeepsParent (upto s (S.history shelf.old)) parent.old
        → MetRemoving
        (needs_row after path.entry.text.now (table mixed.old))
        path.entry.text.now
        (T.history tree.old)
        (T.history tree.new)
        (upto s (S.history shelf.new))
        fault) }
    ensures stopped { IfErr
        result
        (λ fault. (s : Span) → KeepsParent (upto s (S.history shelf.old)) parent.old
        → StopsRemoving after path.entry.text.now (table mixed.old) (T.history tree.old) (T.history tree.new) (upto s (S.history shelf.new))) }
    ensures unchanged { IfOk result (λ refused. IfSome refused (λ r. IsUnchanged mixed.old mixed.new)) }
    ensures changed { OnOk result (Marks (IsSame (table mixed.new) (table mixed.old)) mixed.old.changed mixed.new.changed) }
    ensures lent { OnOk result (Lends path.entry.text.now (IsSame (table mixed.new) (table mixed.old)) mixed.old mixed.new) }
    ensures places { IfOk result (λ refused. PlacesForgotten path.entry.text.now refused mixed.old mixed.new) }
    ensures image { IsOfSameImage mixed.old mixed.new }
    ensures err { OnErr result (LeavesAll path.entry.text.now (table mixed.old) (table mixed.new)) }
    ensures takes { Takes (may_take after result) path.entry.text.now (T.history tree.old) (T.history tree.new) }
    ensures touches { IsTrue (T.history tree.old).told → ChangesOnly (path.entry.text.now ∷ []) (T.history tree.old) (T.history tree.new) }
    ensures asked { ReadsWord (needs_row after path.entry.text.now (table mixed.old)) path.entry.text.now (T.history tree.old) (T.history tree.new) }
    ensures cause { HasOpCause (T.faults tree.old) (T.faults tree.new) result }
    ensures shelf_passes { shelves.Passes (S.history shelf.old) (S.history shelf.new) }
    ensures kept { images.Goes (images.course (S.history shelf.old) (S.images shelf.old)) (images.course (S.history shelf.new) (S.images shelf.new)) }
    ensures held { S.held shelf.new ≡ S.held shelf.old }
    ensures needed { (shelf.new ≡ shelf.old)
        ⊎ NeedsRow (needs_row after path.entry.text.now (table mixed.old)) path.entry.text.now (T.history tree.old) (T.history tree.new) }
    ensures store { IfErr
        result
        (λ fault. (s : Span) → KeepsParent (upto s (S.history shelf.old)) parent.old
        → IsTrue s.old.told
        → AsksStore (upto s (S.history shelf.new))) }
    ensures cause_shelf { HasStoreCause (S.faults shelf.old) (S.faults shelf.new) result }
{
    let needs = needs_row(mixed, path, entry, after);
    match find(alloc, tree, shelf, parent, path, after, needs) {
        Err(fault) => Err(fault),
        Ok(found) => finish(alloc, mixed, tree, path, entry, found),
    }
}

// Whether a path has a copy source.
fn is_copied(mixed: &Mixed<'_>, path: PathRef<'_>) -> bool
    ensures { result ≡ is_some ((table mixed.now).sources path.entry.text.now) }
{
    match mixed.get(path) {
        None => false,
        Some(item) => item.source.is_some(),
    }
}

// Whether what the first parent has of a tracked path decides if its file is changed.
fn needs_row(mixed: &Mixed<'_>, path: PathRef<'_>, entry: Entry, after: bool) -> bool
    requires { (table mixed.now).entries path.text.now ≡ Some (view entry) }
    ensures { result ≡ needs_row after path.entry.text.now (table mixed.now) }
{
    !after & entry.w & entry.p1 & !entry.p2 & !is_copied(mixed, path)
}

// Does what was found to be done: a file is taken away where it is unchanged, and the path isn't tracked any more where it isn't refused.
fn finish<T: Tree>(
    alloc: Global,
    mixed: &mut Mixed<'_>,
    tree: &mut T,
    path: PathRef<'_>,
    entry: Entry,
    found: Found,
) -> Result<Option<Refusal>, OpFault>
    requires entry { (table mixed.old).entries path.text.now ≡ Some (view entry) }
    requires tracked { entry.w ≡ true }
    ensures refused { IfOk result (λ refused. refused ≡ refusal_of found) }
    ensures forgotten { IfOk result (λ refused. IsForgotten path.entry.text.now refused (table mixed.old) (table mixed.new)) }
    ensures unchanged { IfOk result (λ refused. IfSome refused (λ r. IsUnchanged mixed.old mixed.new)) }
    ensures changed { OnOk result (Marks (IsSame (table mixed.new) (table mixed.old)) mixed.old.changed mixed.new.changed) }
    ensures lent { OnOk result (Lends path.entry.text.now (IsSame (table mixed.new) (table mixed.old)) mixed.old mixed.new) }
    ensures places { IfOk result (λ refused. PlacesForgotten path.entry.text.now refused mixed.old mixed.new) }
    ensures image { IsOfSameImage mixed.old mixed.new }
    ensures err { OnErr result (LeavesAll path.entry.text.now (table mixed.old) (table mixed.new)) }
    ensures takes { TakesFound found path.entry.text.now (T.history tree.old) (T.history tree.new) }
    ensures gone { found ≡ a_find.Unchanged
        → OnOk result (IsTrue (T.history tree.old).told → bytes_at (trees.now (T.history tree.new)) path.entry.text.now ≡ None) }
    ensures touches { IsTrue (T.history tree.old).told → ChangesOnly (path.entry.text.now ∷ []) (T.history tree.old) (T.history tree.new) }
    ensures asked { IsTrue (T.history tree.old).told → (T.history tree.new).asked ≡ (T.history tree.old).asked }
    ensures kind { IfErr result (λ fault. (fault ≡ a_fault.OutOfMemory) ⊎ (fault ≡ a_fault.TreeFailed)) }
    ensures cause { HasOpCause (T.faults tree.old) (T.faults tree.new) result }
{
    match found {
        Found::StillThere => Ok(Some(Refusal::StillThere)),
        Found::Changed => Ok(Some(Refusal::Changed)),
        Found::Nothing => drop_tracked(alloc, mixed, path, entry),
        Found::Unchanged => match take(tree, path) {
            Err(fault) => Err(fault),
            Ok(()) => drop_tracked(alloc, mixed, path, entry),
        },
    }
}

// Takes a file or a link away; one that is gone leaves nothing to do.
fn take<T: Tree>(tree: &mut T, path: PathRef<'_>) -> Result<(), OpFault>
    ensures past { trees.Extends (T.history tree.old) (T.history tree.new) }
    ensures takes { IsTrue (T.history tree.old).told → MayUnlink path.entry.text.now (T.history tree.old) (T.history tree.new) }
    ensures gone { OnOk result (IsTrue (T.history tree.old).told → bytes_at (trees.now (T.history tree.new)) path.entry.text.now ≡ None) }
    ensures formed { IsTrue (T.history tree.old).told → trees.AreFormed (T.history tree.new) }
    ensures asked { IsTrue (T.history tree.old).told → (T.history tree.new).asked ≡ (T.history tree.old).asked }
    ensures kind { IfErr result (λ fault. fault ≡ a_fault.TreeFailed) }
    ensures cause { HasOpCause (T.faults tree.old) (T.faults tree.new) result }
{
    match tree.unlink(path) {
        Err(_) => Err(OpFault::TreeFailed),
        Ok(_) => Ok(()),
    }
}

// A tracked path isn't tracked any more, and isn't refused.
fn drop_tracked(
    alloc: Global,
    mixed: &mut Mixed<'_>,
    path: PathRef<'_>,
    entry: Entry,
) -> Result<Option<Refusal>, OpFault>
    requires entry { (table mixed.old).entries path.text.now ≡ Some (view entry) }
    requires tracked { entry.w ≡ true }
    ensures refused { IfOk result (λ refused. refused ≡ None) }
    ensures forgotten { IfOk result (λ refused. IsForgotten path.entry.text.now refused (table mixed.old) (table mixed.new)) }
    ensures changed { OnOk result (Marks (IsSame (table mixed.new) (table mixed.old)) mixed.old.changed mixed.new.changed) }
    ensures lent { OnOk result (Lends path.entry.text.now (IsSame (table mixed.new) (table mixed.old)) mixed.old mixed.new) }
    ensures places { IfOk result (λ refused. PlacesForgotten path.entry.text.now refused mixed.old mixed.new) }
    ensures image { IsOfSameImage mixed.old mixed.new }
    ensures err { OnErr result (LeavesAll path.entry.text.now (table mixed.old) (table mixed.new)) }
    ensures kind { IfErr result (λ fault. fault ≡ a_fault.OutOfMemory) }
{
    match untrack(alloc, mixed, path, entry) {
        Err(fault) => Err(fault),
        Ok(()) => Ok(None),
    }
}
