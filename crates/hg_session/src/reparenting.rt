//! New parents, by their manifests.

ghost use Rattle.std.specs.Prelude.{◌≡◌, false, IfErr, IfOk, IsTrue, OnOk};
ghost use Rattle.hg_base.specs.Fault.{HasCause};
ghost use Rattle.hg_manifest.specs.Load.{AsksByFile, asks_of};
ghost use Rattle.hg_manifest.specs.Plain.{plain_name};
ghost use Rattle.hg_manifest.specs.declared.fault.ManifestFault.TheVariants as a_manifest_fault;
ghost use Rattle.hg_mixed.specs.Edits.{IsOfSameImage};
ghost use Rattle.hg_nodes.specs.Edits.{IsSame, Marks};
ghost use Rattle.hg_mixed.specs.Held.{table};
ghost use Rattle.hg_ops.specs.Parents.{HasParents, LendsParents, PlacesParents};
ghost use Rattle.hg_ops.specs.declared.refusal.OpFault.TheVariants as an_op_fault;
ghost use Rattle.hg_session.specs.Call.{watched};
ghost use Rattle.hg_session.specs.Kept.{KeepsLent};
ghost use Rattle.hg_session.specs.Manifests.{Answers, AsksManifests, IsReparented, StopsParents};
ghost use Rattle.hg_shelf.specs.History.{Passes};
ghost use Rattle.hg_shelf.specs.Images.{Goes, course};

use hg_base::Id20;
use hg_manifest::{Manifest, ManifestFault};
use hg_mixed::Mixed;
use hg_ops::{OpFault, set_parents};
use hg_shelf::Shelf;
use std::alloc::Global;

// Loads the manifest of a parent.
fn rows_of<S: Shelf>(alloc: Global, shelf: &mut S, id: &Id20) -> Result<Manifest, ManifestFault>
    ensures answers { Answers (S.history shelf.old) (S.history shelf.new) id.now result }
    ensures passes { Passes (S.history shelf.old) (S.history shelf.new) }
    ensures kept { Goes (course (S.history shelf.old) (S.images shelf.old)) (course (S.history shelf.new) (S.images shelf.new)) }
    ensures held { S.held shelf.new ≡ S.held shelf.old }
    ensures asked { IsTrue (S.history shelf.old).told → AsksByFile (plain_name id.now.0) (asks_of id.now) (S.history shelf.old) (S.history shelf.new) result }
    ensures cause { HasCause (S.faults shelf.old) (S.faults shelf.new) result (λ e. e ≡ a_manifest_fault.Failed) }
{
    Manifest::load(alloc, shelf, id)
}

// Sets the parents, where there is memory.
fn set_rows(
    alloc: Global,
    mixed: &mut Mixed<'_>,
    p1: Id20,
    p2: Id20,
    m1: &Manifest,
    m2: &Manifest,
) -> Result<(), OpFault>
    ensures parents { OnOk result (HasParents p1.0 p2.0 m1.now m2.now (table mixed.old) (table mixed.new)) }
    ensures changed { OnOk result (Marks (IsSame (table mixed.new) (table mixed.old)) mixed.old.changed mixed.new.changed) }
    ensures lent { OnOk result (LendsParents mixed.old mixed.new) }
    ensures places { OnOk result (PlacesParents mixed.old mixed.new) }
    ensures image { IsOfSameImage mixed.old mixed.new }
    ensures memory { IfErr result (λ e. e ≡ an_op_fault.OutOfMemory) }
{
    match set_parents(alloc, mixed, p1, p2, m1, m2) {
        Err(_) => Err(OpFault::OutOfMemory),
        Ok(()) => Ok(()),
    }
}

/// Sets the parents of a table, by the manifests of both: the first is loaded before the second. No line is told.
pub(crate) fn reparent<S: Shelf>(
    alloc: Global,
    p1: Id20,
    p2: Id20,
    mixed: &mut Mixed<'_>,
    shelf: &mut S,
) -> Result<Vec<u8>, OpFault>
    // `IsReparented` and `StopsParents` in specs/Manifests.antt; of a table in which nothing was changed before.
    ensures does { mixed.old.changed ≡ false
        → IfOk
        result
        (λ lines. IsReparented
        p1
        p2
        (watched S.history S.faults shelf.old shelf.new)
        (table mixed.old)
        (table mixed.new)
        lines.items
        mixed.new.changed) }
    ensures stops { IfErr
        result
        (StopsParents
        p1
        p2
        (watched S.history S.faults shelf.old shelf.new)) }
    ensures lent { OnOk result (KeepsLent mixed.old mixed.new) }
    ensures image { IsOfSameImage mixed.old mixed.new }
    ensures passes { Passes (S.history shelf.old) (S.history shelf.new) }
    ensures kept { Goes (course (S.history shelf.old) (S.images shelf.old)) (course (S.history shelf.new) (S.images shelf.new)) }
    ensures held { S.held shelf.new ≡ S.held shelf.old }
    ensures asked { IsTrue (S.history shelf.old).told → AsksManifests p1 p2 (S.history shelf.old) (S.history shelf.new) }
    ensures cause { HasCause (S.faults shelf.old) (S.faults shelf.new) result (λ e. e ≡ an_op_fault.ShelfFailed) }
    ensures kind { IfErr result (λ e. e ≡ an_op_fault.TreeFailed → ⊥) }
{
    let m1 = rows_of(alloc, shelf, &p1)?;
    let m2 = rows_of(alloc, shelf, &p2)?;
    set_rows(alloc, mixed, p1, p2, &m1, &m2)?;
    Ok(Vec::new(alloc))
}
