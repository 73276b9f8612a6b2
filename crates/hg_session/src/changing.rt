//! A command that changes the record: the record, what its words make of it, a publication.

ghost use Rattle.std.specs.Prelude.{◌≡◌, ◌⊎◌, ◌<◌, ◌≤◌, Err, IfErr, IsTrue, OnOk, false, true};
ghost use Rattle.hg_append.specs.declared.way.Way.TheVariants as a_way;
ghost use Rattle.hg_append.specs.Loss.{plan_of};
ghost use Rattle.hg_docket.specs.Docket.{docket_of};
ghost use Rattle.hg_save.specs.Over.{HasUsed, IsLentRight};
ghost use Rattle.hg_save.specs.Leads.{IsHeld};
ghost use Rattle.hg_session.specs.Anew.{IsRecorded, MetWriting, WritesOnly};
ghost use Rattle.hg_session.specs.Call.{saved_by, watched};
ghost use Rattle.hg_session.specs.Changing.{FailsOrUnwritten, fault_of, CameHeld};
ghost use Rattle.hg_session.specs.Ways.{CanWrite};
ghost use Rattle.hg_ops.specs.declared.refusal.OpFault.TheVariants as an_op_fault;
ghost use Rattle.hg_session.specs.declared.change_fault.ChangeFault.TheVariants as a_fault;
ghost use Rattle.hg_session.specs.declared.read_fault.ReadFault.TheVariants as a_read;
ghost use Rattle.hg_shelf.specs.Asks.{AsksNothing};
ghost use Rattle.hg_shelf.specs.Images.{Goes, course, last_scene};
ghost use Rattle.hg_shelf.specs.Polite.{Undisturbed};

use crate::acting::act;
use crate::change_fault::ChangeFault;
use crate::reading::{opened, read};
use hg_mixed::Mixed;
use hg_save::{Loaded, publish_table};
use hg_shelf::Shelf;
use hg_tree::Tree;
use hg_words::Command;
use std::alloc::Global;

/// Publishes a table that was changed over the record that it was opened from. The caller holds the lock.
pub(crate) fn save<S: Shelf>(
    alloc: Global,
    shelf: &mut S,
    loaded: &Loaded,
    table: &Mixed<'_>,
) -> Result<(), ChangeFault>
    requires held { (S.history shelf.old).ours ≡ true }
    requires docket { table.now.docket ≡ docket_of loaded.now.shown.items }
    requires nodes { table.now.bytes ≡ loaded.now.nodes.items }
    ensures still { table.now.changed ≡ false → shelf.new ≡ shelf.old }
    ensures fits { OnOk result (table.now.changed ≡ true → CanWrite table.now) }
    ensures lent { table.now.changed ≡ true → IsLentRight table.now }
    ensures recorded { Undisturbed (course (S.history shelf.old) (S.images shelf.old)) (course (S.history shelf.new) (S.images shelf.new))
        → (plan_of table.now ≡ a_way.Append → HasUsed loaded.now (last_scene (course (S.history shelf.old) (S.images shelf.old))))
        → OnOk
        result
        (table.now.changed ≡ true
        → IsRecorded table.now (course (S.history shelf.old) (S.images shelf.old)) (course (S.history shelf.new) (S.images shelf.new))) }
    ensures safe { Undisturbed (course (S.history shelf.old) (S.images shelf.old)) (course (S.history shelf.new) (S.images shelf.new))
        → WritesOnly
        table.now
        loaded.now
        (course (S.history shelf.old) (S.images shelf.old))
        (course (S.history shelf.new) (S.images shelf.new))
        (fault_of result) }
    ensures met { IfErr result (MetWriting table.now (S.faults shelf.old) (S.faults shelf.new)) }
    ensures unwritten { IfErr result (FailsOrUnwritten (S.history shelf.old) (S.history shelf.new)) }
    ensures untouched { IfErr result (λ e. (e ≡ a_fault.ShelfFailed) ⊎ (shelf.new ≡ shelf.old)) }
    ensures calm { OnOk result (S.faults shelf.new ≡ S.faults shelf.old) }
    ensures later { S.faults shelf.old ≤ S.faults shelf.new }
    ensures kept { Goes (course (S.history shelf.old) (S.images shelf.old)) (course (S.history shelf.new) (S.images shelf.new)) }
    ensures ours { (S.history shelf.new).ours ≡ (S.history shelf.old).ours }
    ensures lock { IsTrue (S.history shelf.old).told → IsHeld (S.history shelf.old) (S.history shelf.new) }
    ensures unasked { AsksNothing (S.history shelf.old) (S.history shelf.new) }
    ensures locks { S.held shelf.new ≡ S.held shelf.old }
{
    if !table.changed() {
        return Ok(());
    }
    publish_table(alloc, shelf, loaded, table)?;
    Ok(())
}

// Changes the record, and answers the lines of the words that were refused. The caller holds the lock.
pub(crate) fn change_locked<T: Tree, S: Shelf>(
    alloc: Global,
    command: &Command,
    tree: &mut T,
    shelf: &mut S,
) -> Result<Vec<u8>, ChangeFault>
    requires { (S.history shelf.old).ours ≡ true }
    // `CameHeld` in specs/Changing.antt.
    ensures came { CameHeld
        command.now
        (watched T.history T.faults tree.old tree.new)
        (watched S.history S.faults shelf.old shelf.new)
        (saved_by S.history S.images shelf.old shelf.new)
        result }
    ensures unwritten { IfErr result (FailsOrUnwritten (S.history shelf.old) (S.history shelf.new)) }
    ensures failed { T.faults tree.old < T.faults tree.new → result ≡ Err (a_fault.Op an_op_fault.TreeFailed) }
    ensures calm_tree { OnOk result (T.faults tree.new ≡ T.faults tree.old) }
    ensures calm_shelf { OnOk result (S.faults shelf.new ≡ S.faults shelf.old) }
    ensures later { S.faults shelf.old ≤ S.faults shelf.new }
    ensures kept { Goes (course (S.history shelf.old) (S.images shelf.old)) (course (S.history shelf.new) (S.images shelf.new)) }
    ensures ours { (S.history shelf.new).ours ≡ (S.history shelf.old).ours }
    ensures lock { IsTrue (S.history shelf.old).told → IsHeld (S.history shelf.old) (S.history shelf.new) }
    ensures uncalled { (S.history shelf.new).locks ≡ (S.history shelf.old).locks }
    ensures locks { S.held shelf.new ≡ S.held shelf.old }
{
    let loaded = read(alloc, shelf)?;
    let mut table = opened(&loaded)?;
    let lines = act(alloc, command, &mut table, tree, shelf)?;
    save(alloc, shelf, &loaded, &table)?;
    Ok(lines)
}
