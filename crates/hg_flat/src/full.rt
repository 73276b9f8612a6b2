//! The full listing: the law that there is one.

ghost use Rattle.std.specs.Prelude.{ℕ, Bool, List, IsTrue};
ghost use Rattle.hg_tree.specs.Moment.{Moment};
ghost use Rattle.hg_listing.specs.Full.{OneListing, nothing_ignored};
ghost use Rattle.hg_flat.specs.Patterns.{ignored_at};

/// Two full listings of the same record and the same moment, for the same letters, are equal: where nothing is ignored, by the ignore
/// patterns of a moment, and by whatever test a path is ignored.
pub fn one_listing()
    ensures plain { OneListing nothing_ignored }
    ensures patterns { (moment : Moment) → OneListing (ignored_at moment) }
    ensures tested { (is_ignored : List ℕ → Bool) → OneListing (λ path. IsTrue (is_ignored path)) }
{}
