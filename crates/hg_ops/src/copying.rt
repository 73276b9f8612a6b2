//! `copy`: what stands at a tracked path is put at another, which is tracked as its copy.

ghost use Rattle.std.specs.Prelude.{◌≡◌, false, true, ℕ, List, None, Some, length, option_map, is_some, IfErr, IfOk, IfSome, IsTrue, OnErr, OnOk};
ghost use Rattle.hg_entry.specs.Entry.{view};
ghost use Rattle.hg_entry.specs.Steps.{is_file};
ghost use Rattle.hg_mixed.specs.Edits.{IsOfSameImage, IsUnchanged, Lends};
ghost use Rattle.hg_nodes.specs.Edits.{IsSame, Marks};
ghost use Rattle.hg_mixed.specs.Held.{table};
ghost use Rattle.hg_nodes.specs.Shown.{shown_item};
ghost use Rattle.hg_ops.specs.Cause.{HasOpCause};
ghost use Rattle.hg_ops.specs.Copy.{Copies, IsCopyFault, LeavesOrAdds, PlacesCopied, RefusesTarget, Works, copy_source, is_added, words_refusal};
ghost use Rattle.hg_ops.specs.Copying.{IsCopying, Looks, Tables, origin_shown};
ghost use Rattle.hg_ops.specs.Putting.{IsPutting};
ghost use Rattle.hg_ops.specs.Seen.{During};
ghost use Rattle.hg_ops.specs.Step.{is_tracked};
ghost use Rattle.hg_ops.specs.declared.refusal.OpFault.TheVariants as a_fault;
ghost use Rattle.hg_tree.specs.History.{AreFormed, Passes};
ghost use Rattle.hg_tree.specs.Own.{IsPuttable};

use crate::adding::track;
use crate::copy_refusal::CopyRefusal;
use crate::entries::is_tracked;
use crate::putting::{PIECE, put_bytes};
use crate::refusal::{OpFault, Refusal};
use crate::vacant::is_vacant;
use hg_base::{Kind, OutOfMemory, Path, PathRef, Stat};
use hg_entry::{Entry, Item};
use hg_mixed::Mixed;
use hg_tree::Tree;
use std::alloc::Global;

/// Puts a file or link that is tracked at another path too, which is tracked as its copy.
///
/// The target has the source's kind, executable bit and bytes, as many of these as the first look at the source showed. Its copy source is the source's
/// own where it has one, else the source itself; it has none where no parent has the source, or where it would be its own.
///
/// A source or a target that others change inside the call may cut the copy short, which refuses it; the target may then hold a front of the source,
/// and isn't tracked. So it is behind a fault.
pub fn copy<T: Tree>(
    alloc: Global,
    mixed: &mut Mixed<'_>,
    tree: &mut T,
    from: &str,
    to: &str,
) -> Result<Option<CopyRefusal>, OpFault>
    ensures stepped { IfOk result (λ refused. Copies from.now to.now (T.history tree.old) (T.history tree.new) (table mixed.old) refused (table mixed.new)) }
    ensures unchanged { IfOk result (λ refused. IfSome refused (λ r. IsUnchanged mixed.old mixed.new)) }
    ensures changed { OnOk result (Marks (IsSame (table mixed.new) (table mixed.old)) mixed.old.changed mixed.new.changed) }
    ensures lent { OnOk result (Lends to.now (IsSame (table mixed.new) (table mixed.old)) mixed.old mixed.new) }
    ensures places { IfOk result (λ refused. PlacesCopied from.now to.now refused mixed.old mixed.new) }
    ensures image { IsOfSameImage mixed.old mixed.new }
    ensures err { OnErr result (LeavesOrAdds to.now (table mixed.old) (table mixed.new)) }
    ensures worked { Works from.now to.now (table mixed.old) (T.history tree.old) (T.history tree.new) result }
    ensures cause { HasOpCause (T.faults tree.old) (T.faults tree.new) result }
    ensures kind { IfErr result IsCopyFault }
{
    match PathRef::read(from) {
        Err(_) => Ok(Some(CopyRefusal::Source(Refusal::BadPath))),
        Ok(source) => match PathRef::read(to) {
            Err(_) => Ok(Some(CopyRefusal::Target(Refusal::BadPath))),
            Ok(target) => copy_paths(alloc, mixed, tree, source, target),
        },
    }
}

// The same of two words that are paths.
fn copy_paths<T: Tree>(
    alloc: Global,
    mixed: &mut Mixed<'_>,
    tree: &mut T,
    from: PathRef<'_>,
    to: PathRef<'_>,
) -> Result<Option<CopyRefusal>, OpFault>
    ensures table { Tables from.entry.text.now to.entry.text.now mixed.old mixed.new result }
    ensures image { IsOfSameImage mixed.old mixed.new }
    ensures copying { IsCopying from.entry.text.now to.entry.text.now (table mixed.old) (T.history tree.old) (T.history tree.new) result }
    ensures cause { HasOpCause (T.faults tree.old) (T.faults tree.new) result }
    ensures kind { IfErr result IsCopyFault }
{
    match look_at_both(alloc, mixed, tree, from, to) {
        Err(fault) => Err(fault),
        Ok(Look::Refused(refusal)) => Ok(Some(refusal)),
        Ok(Look::Free(stat)) => copy_free(alloc, mixed, tree, from, to, &stat),
    }
}

/// What the looks at both paths come to.
#[derive(Debug, Drop)]
pub(crate) enum Look {
    /// The copy is refused.
    Refused(CopyRefusal),
    /// It can be made; a look at the source showed this.
    Free(Stat),
}

// Looks at the source and at the target.
fn look_at_both<T: Tree>(
    alloc: Global,
    mixed: &mut Mixed<'_>,
    tree: &mut T,
    from: PathRef<'_>,
    to: PathRef<'_>,
) -> Result<Look, OpFault>
    ensures kept { IsUnchanged mixed.old mixed.new }
    ensures passes { Passes (T.history tree.old) (T.history tree.new) }
    ensures unasked { IsTrue (T.history tree.old).told → (T.history tree.new).asked ≡ (T.history tree.old).asked }
    ensures found { IfOk result (Looks from.entry.text.now to.entry.text.now (table mixed.old) (T.history tree.old) (T.history tree.new)) }
    ensures idle { is_some (words_refusal from.entry.text.now to.entry.text.now (table mixed.old)) ≡ true → T.history tree.new ≡ T.history tree.old }
    ensures cause { HasOpCause (T.faults tree.old) (T.faults tree.new) result }
    ensures kind { IfErr result IsCopyFault }
{
    if !is_tracked(mixed, from) {
        return Ok(Look::Refused(CopyRefusal::Source(Refusal::NotTracked)));
    }
    match tree.stat(from) {
        Err(_) => Err(OpFault::TreeFailed),
        Ok(None) => Ok(Look::Refused(CopyRefusal::Source(Refusal::NotThere))),
        Ok(Some(stat)) => {
            if !is_file(stat.kind) {
                return Ok(Look::Refused(CopyRefusal::Source(Refusal::Special)));
            }
            match target_refused(alloc, mixed, tree, to) {
                Err(fault) => Err(fault),
                Ok(Some(refusal)) => Ok(Look::Refused(CopyRefusal::Target(refusal))),
                Ok(None) => Ok(Look::Free(stat)),
            }
        }
    }
}

// Whether something of that kind can be copied.
fn is_file(kind: Kind) -> bool
    ensures { result ≡ is_file kind }
{
    match kind {
        Kind::File | Kind::Link => true,
        Kind::Dir | Kind::Other => false,
    }
}

// Why the target is refused.
fn target_refused<T: Tree>(
    alloc: Global,
    mixed: &mut Mixed<'_>,
    tree: &mut T,
    to: PathRef<'_>,
) -> Result<Option<Refusal>, OpFault>
    ensures kept { IsUnchanged mixed.old mixed.new }
    ensures passes { Passes (T.history tree.old) (T.history tree.new) }
    ensures unasked { IsTrue (T.history tree.old).told → (T.history tree.new).asked ≡ (T.history tree.old).asked }
    ensures found { IfOk result (RefusesTarget to.entry.text.now (table mixed.old) (During (T.history tree.old) (T.history tree.new))) }
    ensures formed { IfOk result (λ refused. refused ≡ None → IsTrue (T.history tree.old).told → AreFormed (T.history tree.new)) }
    ensures cause { HasOpCause (T.faults tree.old) (T.faults tree.new) result }
    ensures kind { IfErr result IsCopyFault }
{
    if is_tracked(mixed, to) {
        return Ok(Some(Refusal::Exists));
    }
    match is_vacant(tree, to) {
        Err(fault) => Err(fault),
        Ok(false) => Ok(Some(Refusal::Exists)),
        Ok(true) => match mixed.clash(alloc, to) {
            Err(_) => Err(OpFault::OutOfMemory),
            Ok(None) => Ok(None),
            Ok(Some(other)) => Ok(Some(Refusal::Clash { other })),
        },
    }
}

// Copies what can be copied. Memory for the copy source and for the bytes is taken first.
fn copy_free<T: Tree>(
    alloc: Global,
    mixed: &mut Mixed<'_>,
    tree: &mut T,
    from: PathRef<'_>,
    to: PathRef<'_>,
    stat: &Stat,
) -> Result<Option<CopyRefusal>, OpFault>
    requires untracked { is_tracked (table mixed.old) to.text.now ≡ false }
    requires puttable { IsPuttable stat.now.kind }
    ensures table { Tables from.entry.text.now to.entry.text.now mixed.old mixed.new result }
    ensures image { IsOfSameImage mixed.old mixed.new }
    ensures put { IsPutting from.entry.text.now to.entry.text.now stat.now (T.history tree.old) (T.history tree.new) result }
    ensures cause { HasOpCause (T.faults tree.old) (T.faults tree.new) result }
    ensures kind { IfErr result IsCopyFault }
{
    match take_room(alloc, mixed, from, to) {
        Err(fault) => Err(fault),
        Ok(room) => {
            let mut room = room;
            match put_bytes(tree, from, to, stat, room.bytes.as_mut_slice()) {
                Err(fault) => Err(fault),
                Ok(Some(refusal)) => Ok(Some(refusal)),
                Ok(None) => track_copy(alloc, mixed, to, &room.source),
            }
        }
    }
}

/// What a copy needs memory for: its copy source, where it has one, and room for the bytes.
#[derive(Debug, Drop)]
pub(crate) struct CopyRoom {
    pub(crate) source: Option<Path>,
    pub(crate) bytes: Vec<u8>,
}

fn take_room(
    alloc: Global,
    mixed: &Mixed<'_>,
    from: PathRef<'_>,
    to: PathRef<'_>,
) -> Result<CopyRoom, OpFault>
    ensures source { IfOk result (λ room. room.source ≡ copy_source from.entry.text.now to.entry.text.now (table mixed.now)) }
    ensures bytes { IfOk result (λ room. length room.bytes.items ≡ 65536) }
    ensures kind { IfErr result (λ fault. fault ≡ a_fault.OutOfMemory) }
{
    match source_of(alloc, mixed, from, to) {
        Err(_) => Err(OpFault::OutOfMemory),
        Ok(source) => match bytes_of(alloc) {
            Err(_) => Err(OpFault::OutOfMemory),
            Ok(bytes) => Ok(CopyRoom { source, bytes }),
        },
    }
}

fn bytes_of(alloc: Global) -> Result<Vec<u8>, OutOfMemory>
    ensures { IfOk result (λ bytes. length bytes.items ≡ 65536) }
{
    let bytes = vec![in alloc; 0u8; PIECE]?;
    Ok(bytes)
}

// The copy source of a copy.
fn source_of(
    alloc: Global,
    mixed: &Mixed<'_>,
    from: PathRef<'_>,
    to: PathRef<'_>,
) -> Result<Option<Path>, OutOfMemory>
    ensures { IfOk result (λ source. source ≡ copy_source from.entry.text.now to.entry.text.now (table mixed.now)) }
{
    match origin(mixed.get(from), from) {
        None => Ok(None),
        Some(source) => {
            if source.text == to.text {
                return Ok(None);
            }
            let source = Path::of(alloc, source)?;
            Ok(Some(source))
        }
    }
}

// Where the copy of a path comes from, by what is recorded of the path.
fn origin<'t>(item: Option<Item<'t>>, from: PathRef<'t>) -> Option<PathRef<'t>>
    ensures { option_map (λ p. p.text.now) result ≡ origin_shown from.entry.text.now (option_map shown_item item.entry) }
{
    match item {
        None => Some(from),
        Some(item) => match item.source {
            Some(source) => Some(source),
            None => {
                if is_added(&item.entry) {
                    None
                } else {
                    Some(from)
                }
            }
        },
    }
}

fn is_added(entry: &Entry) -> bool
    ensures { result ≡ is_added (Some (view entry.now)) }
{
    if !entry.w {
        return false;
    }
    !(entry.p1 | entry.p2)
}

// The target is tracked as a copy.
fn track_copy(
    alloc: Global,
    mixed: &mut Mixed<'_>,
    to: PathRef<'_>,
    source: &Option<Path>,
) -> Result<Option<CopyRefusal>, OpFault>
    requires { is_tracked (table mixed.old) to.text.now ≡ false }
    ensures table { (from : List ℕ) → source.now ≡ copy_source from to.entry.text.now (table mixed.old) → Tables from to.entry.text.now mixed.old mixed.new result }
    ensures done { IfOk result (λ refused. refused ≡ None) }
    ensures image { IsOfSameImage mixed.old mixed.new }
    ensures kind { IfErr result (λ fault. fault ≡ a_fault.OutOfMemory) }
{
    match track(alloc, mixed, to) {
        Err(fault) => Err(fault),
        // (it clashes with nothing)
        Ok(Some(_)) => Err(OpFault::OutOfMemory),
        Ok(None) => match mixed.copy_from(alloc, to, source_ref(source)) {
            Err(_) => Err(OpFault::OutOfMemory),
            Ok(()) => Ok(None),
        },
    }
}

fn source_ref(source: &Option<Path>) -> Option<PathRef<'_>>
    ensures { option_map (λ p. p.text.now) result ≡ source.now }
{
    match source {
        None => None,
        Some(source) => Some(source.as_ref()),
    }
}
