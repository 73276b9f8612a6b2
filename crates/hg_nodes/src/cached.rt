//! The cached directories, one after the other.

ghost use Rattle.std.specs.Prelude.{option_map};
ghost use Rattle.hg_entry.specs.Entry.{cache_view};
ghost use Rattle.hg_nodes.specs.Kids.{Takes};

use hg_base::Stamp;
use std::collections::btree_map::Iter;
use std::marker::Model;

/// What is left of the cached directories.
#[derive(Drop)]
pub struct Cached<'t> {
    pub(crate) rest: Option<Iter<'t, String, Stamp>>,
}

impl<'t> Model for Cached<'t> {
    ghost use Rattle.std.specs.Prelude.{List, ℕ};
    ghost use Rattle.hg_entry.specs.Entry.{CacheData};
    ghost use Rattle.hg_nodes.specs.Times.{times_left};

    ghost Value = { List (List ℕ × CacheData) };

    ghost view = { λ c. times_left c.rest };
}

impl<'t> Cached<'t> {
    /// The next one, with its time.
    pub fn next(&mut self) -> Option<(&'t str, Stamp)>
        ensures { Takes self.old self.new (option_map (λ e. (e.0.now, cache_view e.1)) result) }
    {
        match &mut self.rest {
            None => None,
            Some(rest) => match rest.next() {
                None => None,
                Some((dir, time)) => Some((dir.as_str(), *time)),
            },
        }
    }
}
