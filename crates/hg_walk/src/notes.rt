//! The record of what a walk notes of times.

ghost use Rattle.std.specs.Prelude.{◌≡◌, ◌↔◌, None, IsTrue, OnOk, OnErr, map};
ghost use Rattle.hg_entry.specs.Entry.{cache_view, stamp_view};
ghost use Rattle.hg_walk.specs.Applying.{IsBlank, clean_note, dir_note};
ghost use Rattle.hg_walk.specs.Noting.{with_clean_note, with_dir_note, with_gone, with_other_hash};

use crate::clean::Clean;
use crate::noting::ListedDir;
use hg_base::{OutOfMemory, Path, Stamp, Stat};
use std::alloc::Global;
use std::marker::Model;

/// What a walk notes: clean paths, listed directories, directories that aren't cached any more, and the hash of the patterns where it is another
/// than the recorded one.
#[derive(Drop)]
pub struct Notes {
    pub(crate) clean: Vec<Clean>,
    pub(crate) seen: Vec<ListedDir>,
    pub(crate) gone: Vec<Path>,
    pub(crate) hash: Option<[u8; 20]>,
}

impl Model for Notes {
    ghost use Rattle.std.specs.Prelude.{map};
    ghost use Rattle.hg_walk.specs.Applying.{clean_note, dir_note};
    ghost use Rattle.hg_walk.specs.Notes.{NotesData};

    ghost Value = { NotesData };

    ghost view = { λ n. record { clean = map clean_note n.clean.items; seen = map dir_note n.seen.items; gone = n.gone.items; hash = n.hash } };
}

impl Notes {
    /// Nothing is noted.
    pub fn new(alloc: Global) -> Notes
        ensures blank { IsBlank result }
        ensures hash { result.hash ≡ None }
    {
        Notes {
            clean: Vec::new(alloc),
            seen: Vec::new(alloc),
            gone: Vec::new(alloc),
            hash: None,
        }
    }

    /// Whether nothing is noted that is worth to be saved: a hash alone isn't.
    pub fn is_empty(&self) -> bool
        ensures { IsTrue result ↔ IsBlank self.now }
    {
        (self.clean.len() == 0) & (self.seen.len() == 0) & (self.gone.len() == 0)
    }

    /// A path was clean.
    pub fn add_clean(&mut self, path: Path, stat: Stat, stamp: Stamp) -> Result<(), OutOfMemory>
        ensures ok { OnOk result (self.new ≡ with_clean_note path stat (stamp_view stamp) self.old) }
        ensures err { OnErr result (self.new ≡ self.old) }
    {
        self.clean.push(Clean { path, stat, stamp })?;
        Ok(())
    }

    /// A directory was listed.
    pub fn add_seen(&mut self, dir: Path, stamp: Stamp) -> Result<(), OutOfMemory>
        ensures ok { OnOk result (self.new ≡ with_dir_note dir (cache_view stamp) self.old) }
        ensures err { OnErr result (self.new ≡ self.old) }
    {
        self.seen.push(ListedDir { dir, stamp })?;
        Ok(())
    }

    /// A directory isn't cached any more.
    pub fn add_gone(&mut self, dir: Path) -> Result<(), OutOfMemory>
        ensures ok { OnOk result (self.new ≡ with_gone dir self.old) }
        ensures err { OnErr result (self.new ≡ self.old) }
    {
        self.gone.push(dir)?;
        Ok(())
    }

    /// The hash of the patterns is another.
    pub fn set_hash(&mut self, hash: [u8; 20])
        ensures { self.new ≡ with_other_hash hash self.old }
    {
        self.hash = Some(hash);
    }

    /// The clean paths, the directories that aren't cached any more, the listed ones, and the hash.
    pub(crate) fn into_lists(self) -> (Vec<Clean>, Vec<Path>, Vec<ListedDir>, Option<[u8; 20]>)
        ensures clean { map clean_note result.0.items ≡ self.clean }
        ensures gone { result.1.items ≡ self.gone }
        ensures seen { map dir_note result.2.items ≡ self.seen }
        ensures hash { result.3 ≡ self.hash }
    {
        (self.clean, self.gone, self.seen, self.hash)
    }
}
