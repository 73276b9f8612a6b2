//! Laws of the definitions.

ghost use Rattle.std.specs.Prelude.{ℕ, List};
ghost use Rattle.hg_entry.specs.Table.{Table};
ghost use Rattle.hg_nodes.specs.Drop.{IsPruned};
ghost use Rattle.hg_nodes.specs.Edits.{IsSame};

/// The conditions of a drop fix what is left: two results of the same drop say the same.
pub fn one_drop()
    ensures { (path : List ℕ) (was a b : Table) → IsPruned path was a → IsPruned path was b → IsSame a b }
{}
