//! The laws of trusted records.

ghost use Rattle.std.specs.Prelude.{ℕ, List, Option};
ghost use Rattle.hg_compare.specs.Tracked.{ParentRow};
ghost use Rattle.hg_entry.specs.Table.{Table};
ghost use Rattle.hg_tree.specs.History.{Extends, History};
ghost use Rattle.hg_walk.specs.Laws.{CachedIsListed, ListedIsSeen, NotedIsEarned, NotedIsGood, NotesAreTrusted, OneMoreClean, OneMoreSeen, RightInFirst, RightInSecond, TimelessAreRight, TrustedAreRight, UntakenAreRight, VouchedIsClean};
ghost use Rattle.hg_walk.specs.Trust.{IsTrusted};
ghost use Rattle.hg_walk.specs.Worked.{IsWorked};

/// A record that may be trusted may be over each longer history, whatever others do.
pub fn trust_stays()
    ensures { (rows : List ℕ → Option ParentRow) (table : Table) (old new : History) → Extends old new → IsTrusted rows table old → IsTrusted rows table new }
{}

/// Times of a trusted record are right during a call, where times are honest and no two states of ignore patterns share a hash.
pub fn trusted_are_right()
    ensures clean { VouchedIsClean }
    ensures listed { CachedIsListed }
    ensures right { TrustedAreRight }
{}

/// Where no time is recorded, recorded times are right without a premise; so they are where none is taken for a look during the call.
pub fn timeless_are_right()
    ensures timeless { TimelessAreRight }
    ensures untaken { UntakenAreRight }
{}

/// What is right over a call is right over its parts.
pub fn right_in_parts()
    ensures first { RightInFirst }
    ensures second { RightInSecond }
{}

/// The time of a file that was compared between two equal looks, behind a boundary, is earned.
pub fn noted_is_earned()
    ensures { NotedIsEarned }
{}

/// A directory that was listed between two equal looks, behind a boundary, was seen whole.
pub fn listed_is_seen()
    ensures { ListedIsSeen }
{}

/// A trusted record with earned notes is trusted.
pub fn notes_are_trusted()
    ensures { NotesAreTrusted }
{}

/// Notes stay earned while the history goes on, and with one more.
pub fn notes_grow()
    ensures clean { OneMoreClean }
    ensures seen { OneMoreSeen }
{}

/// A good record with earned notes is good.
pub fn good_with_notes()
    ensures { NotedIsGood }
{}

/// A worked case in which all premises of these laws hold together.
pub fn worked_case()
    ensures { IsWorked }
{}
