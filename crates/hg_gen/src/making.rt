//! The copy as a whole.

ghost use Rattle.std.specs.Prelude.{◌≡◌, ◌≤◌, [], IfOk};
ghost use Rattle.hg_gen.specs.Copy.{IsCopy, IsGiven};
ghost use Rattle.hg_alone.specs.Alone.{IsOwn, files_of};
ghost use Rattle.hg_gen.specs.Recorded.{IsStored};
ghost use Rattle.hg_tree.specs.History.{now};
ghost use Rattle.hg_tree.specs.Memory.{history_of};

use crate::storing::stored;
use crate::working_copy::working_copy;
use hg_base::OutOfMemory;
use hg_shelf::MemShelf;
use hg_tree::MemTree;
use std::alloc::Global;

/// A working copy, and the files below its `.hg`.
#[derive(Drop)]
pub struct Made {
    pub tree: MemTree,
    pub shelf: MemShelf,
}

/// Makes the copy of so many directories, in memory.
pub fn make(alloc: Global, n: u32) -> Result<Made, OutOfMemory>
    requires least { 1 ≤ n }
    requires most { n ≤ 2000 }
    // Each thing stands at its path, and no other.
    ensures copy { IfOk result (λ made. IsCopy n (now (history_of made.tree))) }
    // What is recorded of it, and what the plain store keeps of its parent.
    ensures files { IfOk result (λ made. IsStored n (files_of made.shelf)) }
    // Others made the working copy, and nobody else is to change it.
    ensures given { IfOk result (λ made. IsGiven made.tree) }
    // The caller alone wrote these files, nobody else is to change them, and no lock was refused.
    ensures own { IfOk result (λ made. IsOwn made.shelf) }
    ensures refusals { IfOk result (λ made. made.shelf.refusals ≡ 0) }
{
    Ok(Made {
        tree: working_copy(alloc, n)?,
        shelf: stored(alloc, n)?,
    })
}
