//! The times of cached directories.

ghost use Rattle.std.specs.Prelude.{◌≡◌, ℕ, List, Some, None, OnOk, OnErr, option_map};
ghost use Rattle.hg_entry.specs.Entry.{cache_view};
ghost use Rattle.hg_nodes.specs.Times.{AreNone, IsTimed, time_at};

use crate::cached::Cached;
use hg_base::{OutOfMemory, Stamp};
use std::alloc::Global;
use std::collections::BTreeMap;
use std::marker::Model;

/// When each cached directory was seen whole.
#[derive(Drop)]
pub struct Times {
    // (none before the first time is put)
    times: Option<BTreeMap<String, Stamp>>,
}

impl Model for Times {
    ghost use Rattle.std.specs.Prelude.{List, ℕ};
    ghost use Rattle.hg_entry.specs.Entry.{CacheData};
    ghost use Rattle.hg_nodes.specs.Made.{entries_of};
    ghost use Rattle.hg_nodes.specs.Times.{times_of};

    ghost Value = { List (List ℕ × CacheData) };

    ghost view = { λ t. times_of (entries_of t.times) };
}

impl Times {
    /// No directory is cached.
    pub fn new() -> Times
        ensures { (at : List ℕ) → time_at result at ≡ None }
    {
        Times { times: None }
    }

    pub fn get(&self, dir: &str) -> Option<Stamp>
        ensures { option_map cache_view result ≡ time_at self.now dir.now }
    {
        match &self.times {
            None => None,
            Some(times) => times.get(dir).copied(),
        }
    }

    /// Puts the time of a directory, or leaves all as it was.
    pub fn put(&mut self, alloc: Global, dir: &str, time: Stamp) -> Result<(), OutOfMemory>
        ensures ok { OnOk result (IsTimed dir.now (Some (cache_view time)) self.old self.new) }
        ensures err { OnErr result ((at : List ℕ) → time_at self.new at ≡ time_at self.old at) }
    {
        let dir = String::from_str(alloc, dir)?;
        let times = self.times.get_or_insert(BTreeMap::new(alloc));
        times.insert(dir, time)?;
        Ok(())
    }

    /// The directory isn't cached any more.
    pub fn remove(&mut self, dir: &str)
        ensures { IsTimed dir.now None self.old self.new }
    {
        let Some(times) = &mut self.times else {
            return;
        };
        let _ = times.remove(dir);
    }

    /// No directory is cached any more.
    pub fn clear(&mut self)
        ensures { (at : List ℕ) → time_at self.new at ≡ None }
    {
        self.times = None;
    }

    /// The cached directories, one after the other.
    pub fn cached(&self) -> Cached<'_>
        ensures { result ≡ self.now }
    {
        match &self.times {
            None => Cached { rest: None },
            Some(times) => Cached {
                rest: Some(times.iter()),
            },
        }
    }

    pub fn is_empty(&self) -> bool
        ensures { AreNone result self.now }
    {
        match &self.times {
            None => true,
            Some(times) => times.len() == 0,
        }
    }
}
