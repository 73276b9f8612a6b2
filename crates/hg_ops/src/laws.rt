//! Laws of the definitions.

ghost use Rattle.std.specs.Prelude.{◌≡◌, ℕ, List, Option};
ghost use Rattle.hg_base.specs.declared.stat.Stat.{Stat};
ghost use Rattle.hg_entry.specs.Table.{Table};
ghost use Rattle.hg_manifest.specs.Rows.{Rows};
ghost use Rattle.hg_nodes.specs.Edits.{IsSame};
ghost use Rattle.hg_ops.specs.Parents.{HasParents};
ghost use Rattle.hg_ops.specs.Step.{IsAdd, IsForget};
ghost use Rattle.hg_ops.specs.declared.refusal.Refusal.{Refusal};

/// A word, a table and what a look shows fix what `add` answers and leaves.
pub fn one_add()
    ensures { (word : List ℕ) (shown : Option Stat) (was a b : Table) (r s : Option Refusal) → IsAdd word shown was r a → IsAdd word shown was s b → (r ≡ s) × IsSame a b }
{}

/// A word and a table fix what `forget` answers and leaves.
pub fn one_forget()
    ensures { (word : List ℕ) (was a b : Table) (r s : Option Refusal) → IsForget word was r a → IsForget word was s b → (r ≡ s) × IsSame a b }
{}

/// New parents, their manifests and a table fix what `set_parents` leaves.
pub fn one_set_parents()
    ensures { (p1 p2 : List ℕ) (m1 m2 : Rows) (was a b : Table) → HasParents p1 p2 m1 m2 was a → HasParents p1 p2 m1 m2 was b → IsSame a b }
{}
