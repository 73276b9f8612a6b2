//! The files of the copy on the disk.

ghost use Rattle.std.specs.Prelude.{◌≡◌, ◌<◌, ◌≤◌, ◌+◌, pos, IfOk, OnOk};
ghost use Rattle.hg_gen.specs.Copy.{AreFiles, IsCopy, IsGiven, bytes_of, is_exec, is_on_disk};
ghost use Rattle.hg_tree.specs.History.{now};
ghost use Rattle.hg_tree.specs.Memory.{history_of};
ghost use Rattle.hg_tree.specs.declared.thing.Thing.TheVariants as a_thing;

use crate::lot::{is_changed, is_exec, is_on_disk};
use crate::names::{WIDTH, path_of, text_of};
use hg_base::{Blob, OutOfMemory, Time};
use hg_tree::{MemTree, Thing};
use std::alloc::Global;

// When each thing was changed, and what the clock shows.
const CHANGED: Time = Time {
    seconds: 1_000,
    nanos: 0,
};

const CLOCK: Time = Time {
    seconds: 2_000,
    nanos: 0,
};

// The bytes of a file on the disk.
fn bytes_of(alloc: Global, file: u32) -> Result<Vec<u8>, OutOfMemory>
    ensures { IfOk result (λ bytes. bytes.items ≡ bytes_of file) }
{
    let text = text_of(alloc, file)?;
    let mut bytes = Vec::from_slice(alloc, text.as_bytes())?;
    if is_changed(file) {
        bytes[0] = b'x';
    }
    Ok(bytes)
}

// What stands where a file is.
fn thing_of(alloc: Global, file: u32) -> Result<Thing, OutOfMemory>
    ensures { IfOk result (λ thing. thing ≡ a_thing.File (is_exec file) (bytes_of file)) }
{
    let bytes = bytes_of(alloc, file)?;
    let bytes = Blob::of(alloc, bytes.as_slice())?;
    Ok(Thing::File {
        exec: is_exec(file),
        bytes,
    })
}

// Places a file, where it stands on the disk, behind those of lower numbers.
fn place(alloc: Global, tree: &mut MemTree, file: u32, changed: Time) -> Result<(), OutOfMemory>
    requires file { file < 32000 }
    requires time { (changed.seconds ≡ pos 1000) × (changed.nanos ≡ 0) }
    ensures files { OnOk result (AreFiles file (now (history_of tree.old)).things → AreFiles (file + 1) (now (history_of tree.new)).things) }
    ensures clock { OnOk result ((now (history_of tree.new)).clock ≡ (now (history_of tree.old)).clock) }
    ensures given { OnOk result (IsGiven tree.old → IsGiven tree.new) }
{
    if !is_on_disk(file) {
        return Ok(());
    }
    let path = path_of(alloc, file)?;
    let thing = thing_of(alloc, file)?;
    tree.place(path.as_ref(), thing, changed)
}

/// The working copy of so many directories.
pub(crate) fn working_copy(alloc: Global, dirs: u32) -> Result<MemTree, OutOfMemory>
    requires { dirs ≤ 2000 }
    ensures copy { IfOk result (λ tree. IsCopy dirs (now (history_of tree))) }
    ensures given { IfOk result IsGiven }
{
    let mut tree = MemTree::new(alloc, CLOCK)?;
    for file in 0..WIDTH * dirs {
        place(alloc, &mut tree, file, CHANGED)?;
    }
    Ok(tree)
}
