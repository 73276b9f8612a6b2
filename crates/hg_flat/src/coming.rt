//! Laws of the plain store while others add to it.

ghost use Rattle.std.specs.Prelude.{ℕ};
ghost use Rattle.hg_flat.specs.Coming.{IsWorked};
ghost use Rattle.hg_shelf.specs.History as shelves;
ghost use Rattle.hg_shelf.specs.Polite.{KeepsPlain, KeepsThere, StaysPlain};

/// Where others keep what is there of the plain store, though absent files come, its files are those of the last moment, wherever they are there: by these a
/// status speaks of the first parent. Where nothing of it changes, they are those of the first moment, too.
pub fn store_of_end()
    ensures end { (h : shelves.History) (from : ℕ) → KeepsThere h from → StaysPlain (shelves.now h).files h from }
    ensures start { (h : shelves.History) (from : ℕ) → KeepsPlain h from → StaysPlain (h.at from).files h from }
    ensures weaker { (h : shelves.History) (from : ℕ) → KeepsPlain h from → KeepsThere h from }
{}

/// A worked case, in which each file comes.
pub fn files_may_come()
    ensures { IsWorked }
{}
