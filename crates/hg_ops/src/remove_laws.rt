//! Laws of what `remove` does.

ghost use Rattle.std.specs.Prelude.{◌≡◌, ℕ, Bool, List, Option, true};
ghost use Rattle.hg_entry.specs.Table.{Table};
ghost use Rattle.hg_nodes.specs.Edits.{IsSame};
ghost use Rattle.hg_ops.specs.Parent.{KeepsRow, Span, parent_rows, upto};
ghost use Rattle.hg_ops.specs.Remove.{OthersLeave, Removes, needs_row, remove_refusal};
ghost use Rattle.hg_ops.specs.declared.refusal.Refusal.{Refusal};
ghost use Rattle.hg_shelf.specs.History as shelves;
ghost use Rattle.hg_tree.specs.History.{History, now};

/// Where nobody else touches what stands at a word, and what the first parent has of it is a store's wherever it is there, where that decides, the word is
/// refused exactly as the start and the store say.
pub fn remove_is_exact()
    ensures { (store : shelves.Files) (after : Bool) (word : List ℕ) (old new : History) (s : Span) (was : Table) (refused : Option Refusal) (made : Table) → Removes after word old new s was refused made
        → OthersLeave old new word
        → (needs_row after word was ≡ true → KeepsRow store s.new s.old.last s.id word)
        → refused ≡ remove_refusal after word was (parent_rows store s.id word) ((now old).things word) }
{}

/// What was read below `.hg` in a span was read in each longer one.
pub fn remove_stays()
    ensures { (after : Bool) (word : List ℕ) (old new : History) (s : Span) (later : shelves.History) (was : Table) (refused : Option Refusal) (made : Table)
        → shelves.Passes s.new later
        → Removes after word old new s was refused made
        → Removes after word old new (upto s later) was refused made }
{}

/// So a word and a table then fix what `remove` answers and leaves.
pub fn one_remove()
    ensures { (store : shelves.Files) (after : Bool) (word : List ℕ) (old new : History) (s : Span) (was a b : Table) (q r : Option Refusal)
        → Removes after word old new s was q a
        → Removes after word old new s was r b
        → OthersLeave old new word
        → (needs_row after word was ≡ true → KeepsRow store s.new s.old.last s.id word)
        → (q ≡ r) × IsSame a b }
{}
