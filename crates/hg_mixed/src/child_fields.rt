//! The numbers that are written for a child.

ghost use Rattle.std.specs.Prelude.{◌≡◌, None, true};
ghost use Rattle.hg_entry.specs.Entry.{cache_of, entry_of, is_timely};
ghost use Rattle.hg_mixed.specs.Child.{shown_child};
ghost use Rattle.hg_nodes.specs.Written.{fields_for};

use crate::child::Child;
use hg_entry::Fields;

impl Child<'_> {
    /// The numbers that are written for it.
    pub fn fields(&self) -> Fields
        ensures is { result ≡ fields_for (shown_child self.now).entry (shown_child self.now).cache }
        // Read again, they are the same entry, or the same time of a node without one.
        ensures back { entry_of result ≡ (shown_child self.now).entry }
        ensures none { (shown_child self.now).entry ≡ None → cache_of result ≡ (shown_child self.now).cache }
        ensures timely { is_timely result ≡ true }
    {
        self.fields
    }
}
