//! `add`: what stands at a path is tracked.

ghost use Rattle.std.specs.Prelude.{◌≡◌, false, IfErr, IfOk, IfSome, OnErr, OnOk};
ghost use Rattle.hg_mixed.specs.Edits.{ArePlacedAsBefore, IsOfSameImage, IsUnchanged, Lends};
ghost use Rattle.hg_nodes.specs.Edits.{IsSame, Marks};
ghost use Rattle.hg_mixed.specs.Held.{table};
ghost use Rattle.hg_ops.specs.Cause.{HasOpCause};
ghost use Rattle.hg_ops.specs.Copy.{IsCopyFault};
ghost use Rattle.hg_ops.specs.declared.refusal.OpFault.TheVariants as a_fault;
ghost use Rattle.hg_ops.specs.Look.{Adds, Looks};
ghost use Rattle.hg_ops.specs.Step.{IsAdd, RefusesBeside, added, is_tracked, thing_refusal};

use crate::entries::{entry_added, entry_at, is_tracked};
use crate::refusal::{OpFault, Refusal};
use hg_base::{Kind, PathRef, Stat};
use hg_mixed::Mixed;
use hg_nodes::SetFault;
use hg_tree::Tree;
use std::alloc::Global;

/// Tracks the file or link at a path; a path that is tracked already stays as it is, whatever stands there.
///
/// An entry that is there keeps what is recorded of the file, but for its time. A copy source that is there stays.
pub fn add<T: Tree>(
    alloc: Global,
    mixed: &mut Mixed<'_>,
    tree: &mut T,
    word: &str,
) -> Result<Option<Refusal>, OpFault>
    ensures stepped { IfOk result (λ refused. Adds word.now (T.history tree.old) (T.history tree.new) (table mixed.old) refused (table mixed.new)) }
    ensures unchanged { IfOk result (λ refused. IfSome refused (λ r. IsUnchanged mixed.old mixed.new)) }
    ensures changed { OnOk result (Marks (IsSame (table mixed.new) (table mixed.old)) mixed.old.changed mixed.new.changed) }
    ensures lent { OnOk result (Lends word.now (IsSame (table mixed.new) (table mixed.old)) mixed.old mixed.new) }
    ensures places { OnOk result (ArePlacedAsBefore mixed.old mixed.new) }
    ensures image { IsOfSameImage mixed.old mixed.new }
    ensures err { OnErr result (IsUnchanged mixed.old mixed.new) }
    ensures looked { Looks word.now (table mixed.old) (T.history tree.old) (T.history tree.new) }
    ensures cause { HasOpCause (T.faults tree.old) (T.faults tree.new) result }
    ensures kind { IfErr result IsCopyFault }
{
    match PathRef::read(word) {
        Err(_) => Ok(Some(Refusal::BadPath)),
        Ok(path) => add_path(alloc, mixed, tree, path),
    }
}

// The same of a word that is a path.
fn add_path<T: Tree>(
    alloc: Global,
    mixed: &mut Mixed<'_>,
    tree: &mut T,
    path: PathRef<'_>,
) -> Result<Option<Refusal>, OpFault>
    ensures stepped { IfOk result (λ refused. Adds path.entry.text.now (T.history tree.old) (T.history tree.new) (table mixed.old) refused (table mixed.new)) }
    ensures unchanged { IfOk result (λ refused. IfSome refused (λ r. IsUnchanged mixed.old mixed.new)) }
    ensures changed { OnOk result (Marks (IsSame (table mixed.new) (table mixed.old)) mixed.old.changed mixed.new.changed) }
    ensures lent { OnOk result (Lends path.entry.text.now (IsSame (table mixed.new) (table mixed.old)) mixed.old mixed.new) }
    ensures places { OnOk result (ArePlacedAsBefore mixed.old mixed.new) }
    ensures image { IsOfSameImage mixed.old mixed.new }
    ensures err { OnErr result (IsUnchanged mixed.old mixed.new) }
    ensures looked { Looks path.entry.text.now (table mixed.old) (T.history tree.old) (T.history tree.new) }
    ensures cause { HasOpCause (T.faults tree.old) (T.faults tree.new) result }
    ensures kind { IfErr result IsCopyFault }
{
    if is_tracked(mixed, path) {
        return Ok(None);
    }
    match tree.stat(path) {
        Err(_) => Err(OpFault::TreeFailed),
        Ok(shown) => add_shown(alloc, mixed, path, shown),
    }
}

// Why what a look shows can't be tracked.
fn thing_refused(shown: Option<Stat>) -> Option<Refusal>
    ensures { result ≡ thing_refusal shown }
{
    match shown {
        None => Some(Refusal::NotThere),
        Some(stat) => match stat.kind {
            Kind::File | Kind::Link => None,
            Kind::Dir | Kind::Other => Some(Refusal::Special),
        },
    }
}

// The same of a path that isn't tracked, by what a look shows there.
fn add_shown(
    alloc: Global,
    mixed: &mut Mixed<'_>,
    path: PathRef<'_>,
    shown: Option<Stat>,
) -> Result<Option<Refusal>, OpFault>
    requires { is_tracked (table mixed.old) path.text.now ≡ false }
    ensures stepped { IfOk result (λ refused. IsAdd path.entry.text.now shown (table mixed.old) refused (table mixed.new)) }
    ensures unchanged { IfOk result (λ refused. IfSome refused (λ r. IsUnchanged mixed.old mixed.new)) }
    ensures changed { OnOk result (Marks (IsSame (table mixed.new) (table mixed.old)) mixed.old.changed mixed.new.changed) }
    ensures lent { OnOk result (Lends path.entry.text.now (IsSame (table mixed.new) (table mixed.old)) mixed.old mixed.new) }
    ensures places { OnOk result (ArePlacedAsBefore mixed.old mixed.new) }
    ensures image { IsOfSameImage mixed.old mixed.new }
    ensures err { OnErr result (IsUnchanged mixed.old mixed.new) }
    ensures memory { IfErr result (λ fault. fault ≡ a_fault.OutOfMemory) }
{
    match thing_refused(shown) {
        Some(refusal) => Ok(Some(refusal)),
        None => track(alloc, mixed, path),
    }
}

/// A path that isn't tracked is tracked, whatever stands there.
pub(crate) fn track(
    alloc: Global,
    mixed: &mut Mixed<'_>,
    path: PathRef<'_>,
) -> Result<Option<Refusal>, OpFault>
    requires { is_tracked (table mixed.old) path.text.now ≡ false }
    ensures refused { IfOk result (RefusesBeside path.entry.text.now (table mixed.old)) }
    ensures table { IfOk result (λ refused. IsSame (table mixed.new) (added path.entry.text.now refused (table mixed.old))) }
    ensures unchanged { IfOk result (λ refused. IfSome refused (λ r. IsUnchanged mixed.old mixed.new)) }
    ensures changed { OnOk result (Marks (IsSame (table mixed.new) (table mixed.old)) mixed.old.changed mixed.new.changed) }
    ensures lent { OnOk result (Lends path.entry.text.now (IsSame (table mixed.new) (table mixed.old)) mixed.old mixed.new) }
    ensures places { OnOk result (ArePlacedAsBefore mixed.old mixed.new) }
    ensures image { IsOfSameImage mixed.old mixed.new }
    ensures err { OnErr result (IsUnchanged mixed.old mixed.new) }
    ensures memory { IfErr result (λ fault. fault ≡ a_fault.OutOfMemory) }
{
    let entry = entry_added(entry_at(mixed, path));
    match mixed.set(alloc, path, entry) {
        Ok(()) => Ok(None),
        Err(SetFault::OutOfMemory) => Err(OpFault::OutOfMemory),
        Err(SetFault::Clash { other }) => Ok(Some(Refusal::Clash { other })),
    }
}
