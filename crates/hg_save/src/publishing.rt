//! A changed table, published by the better way.

ghost use Rattle.std.specs.Prelude.{◌≡◌, ◌⊎◌, ◌≤◌, ◌<◌, length, None, true, IfErr, IsTrue, OnOk};
ghost use Rattle.hg_append.specs.declared.encoding.Encoded.{Encoded};
ghost use Rattle.hg_append.specs.declared.way.Way.TheVariants as a_way;
ghost use Rattle.hg_append.specs.Appended.{IsOverImage};
ghost use Rattle.hg_append.specs.Loss.{plan_of};
ghost use Rattle.hg_docket.specs.Docket.{docket_of, docket_refusal};
ghost use Rattle.hg_entry.specs.Table.{Table};
ghost use Rattle.hg_mixed.specs.Shown.{AreLentWhole, ArePlacesOfImage};
ghost use Rattle.hg_save.specs.Over.{HasPublishCause, HasUsed, IsEncoded, IsLentRight, IsPutOver, IsRecorded, LeavesLists, UnlessEncode};
ghost use Rattle.hg_save.specs.declared.publish_fault.PublishFault.TheVariants as a_fault;
ghost use Rattle.hg_save.specs.Leads.{IsHeld};
ghost use Rattle.hg_shelf.specs.Asks.{AsksNothing};
ghost use Rattle.hg_shelf.specs.Images.{Goes, course, last_scene};
ghost use Rattle.hg_shelf.specs.Polite.{Undisturbed};

use crate::loaded::Loaded;
use crate::publish_fault::PublishFault;
use crate::saving::publish;
use hg_append::{encode, plan};
use hg_mixed::Mixed;
use hg_shelf::Shelf;
use std::alloc::Global;

// (a table tells where it is asked what it keeps, and what lists are lent)
fn over(table: &Mixed<'_>)
    ensures image { plan_of table.now ≡ a_way.Append → IsOverImage table.now }
    ensures lists { AreLentWhole table.now }
    ensures places { ArePlacesOfImage table.now }
{
    let _ = table.parents();
    let _ = table.image();
}

/// Publishes a table that was changed over the record that it was opened from: behind the data file that stands, where `plan` answers that, or anew. The
/// caller holds the lock.
///
/// After a crash at any moment the dirstate is as it was before or as it is after, and so it is where the shelf failed.
pub fn publish_table<S: Shelf>(
    alloc: Global,
    shelf: &mut S,
    loaded: &Loaded,
    table: &Mixed<'_>,
) -> Result<(), PublishFault>
    requires held { (S.history shelf.old).ours ≡ true }
    requires docket { table.now.docket ≡ docket_of loaded.now.shown.items }
    requires nodes { table.now.bytes ≡ loaded.now.nodes.items }
    // It is put over the record that stood, wholly or in part, whatever is answered but that it can't be encoded.
    ensures safe { Undisturbed (course (S.history shelf.old) (S.images shelf.old)) (course (S.history shelf.new) (S.images shelf.new))
        → UnlessEncode result (IsPutOver table.now loaded.now (course (S.history shelf.old) (S.images shelf.old)) (course (S.history shelf.new) (S.images shelf.new))) }
    // Where it can't be encoded, nothing is done.
    ensures untouched { IfErr result (λ e. (e ≡ a_fault.Failed) ⊎ (shelf.new ≡ shelf.old)) }
    // Where it succeeded, the table is recorded by exactly its bytes, also after a crash.
    ensures recorded { Undisturbed (course (S.history shelf.old) (S.images shelf.old)) (course (S.history shelf.new) (S.images shelf.new))
        → (plan_of table.now ≡ a_way.Append → HasUsed loaded.now (last_scene (course (S.history shelf.old) (S.images shelf.old))))
        → OnOk result (IsRecorded table.now (course (S.history shelf.old) (S.images shelf.old)) (course (S.history shelf.new) (S.images shelf.new))) }
    // And where it was appended, each list that is lent lies where it lay.
    ensures kept_lists { Undisturbed (course (S.history shelf.old) (S.images shelf.old)) (course (S.history shelf.new) (S.images shelf.new))
        → HasUsed loaded.now (last_scene (course (S.history shelf.old) (S.images shelf.old)))
        → plan_of table.now ≡ a_way.Append
        → OnOk result (LeavesLists table.now (course (S.history shelf.new) (S.images shelf.new))) }
    // It succeeds only where the table can be encoded by the better way.
    ensures fits { OnOk result ((e : Encoded) × (found : Table) × IsEncoded table.now e found) }
    ensures cause { IfErr result (HasPublishCause table.now (S.faults shelf.old) (S.faults shelf.new)) }
    ensures calm { OnOk result (S.faults shelf.new ≡ S.faults shelf.old) }
    ensures later { S.faults shelf.old ≤ S.faults shelf.new }
    // Each step meanwhile is its own, or of one who may only read.
    ensures lock { IsTrue (S.history shelf.old).told → IsHeld (S.history shelf.old) (S.history shelf.new) }
    ensures kept { Goes (course (S.history shelf.old) (S.images shelf.old)) (course (S.history shelf.new) (S.images shelf.new)) }
    ensures ours { (S.history shelf.new).ours ≡ (S.history shelf.old).ours }
    ensures unasked { AsksNothing (S.history shelf.old) (S.history shelf.new) }
    ensures held { S.held shelf.new ≡ S.held shelf.old }
    // What is lent lies in the image as the image has it.
    ensures lent { IsLentRight table.now }
{
    over(table);
    let new = encode(alloc, table, plan(table))?;
    publish(shelf, loaded, &new)?;
    Ok(())
}
