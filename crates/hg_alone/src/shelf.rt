//! Files below `.hg` in memory that nobody but their caller changes.

ghost use Rattle.std.specs.Prelude.{◌≡◌, [], true, IfOk, None, OnOk};
ghost use Rattle.hg_alone.specs.Alone.{IsOwn, all_own, files_of};
ghost use Rattle.hg_shelf.specs.Memory.{fresh, with_file};
ghost use Rattle.hg_shelf.specs.Rules.{without};

use hg_base::{Failed, Got, OutOfMemory};
use hg_shelf::{MemShelf, Shelf};
use std::alloc::Global;

/// Files in memory that the caller alone changed, for which no change of others is due and no call is to fail: each of their steps is the caller's.
#[derive(Drop)]
pub struct AloneShelf {
    pub shelf: MemShelf,
    ghost alone: { shelf.due ≡ [] },
    ghost calm: { shelf.calls.failing ≡ [] },
    ghost own: { all_own shelf.changes ≡ true },
}

impl AloneShelf {
    /// No files, and a free lock.
    pub fn new(alloc: Global) -> Result<AloneShelf, OutOfMemory>
        ensures { IfOk result (λ made. made.shelf ≡ fresh) }
    {
        let shelf = MemShelf::new(alloc)?;
        Ok(AloneShelf { shelf })
    }

    /// Files that the caller alone changed so far.
    pub fn of(shelf: MemShelf) -> AloneShelf
        requires { IsOwn shelf }
        ensures { result.shelf ≡ shelf }
    {
        AloneShelf { shelf }
    }

    /// The files, by themselves.
    pub fn files(self) -> MemShelf
        ensures same { result ≡ self.shelf }
        ensures own { IsOwn result }
    {
        self.shelf
    }

    /// Puts a file in place of what has its name.
    pub fn put(&mut self, name: &str, bytes: &[u8]) -> Result<(), OutOfMemory>
        ensures files { OnOk result (files_of self.new.shelf ≡ with_file name.now bytes.now (files_of self.old.shelf)) }
        ensures refusals { OnOk result (self.new.shelf.refusals ≡ self.old.shelf.refusals) }
    {
        match self.clear(name) {
            Err(_) => Err(OutOfMemory),
            Ok(()) => match self.fill(name, bytes) {
                Err(_) => Err(OutOfMemory),
                Ok(()) => Ok(()),
            },
        }
    }

    // Takes away what has a name.
    fn clear(&mut self, name: &str) -> Result<(), Failed>
        ensures files { OnOk result (files_of self.new.shelf ≡ without name.now (files_of self.old.shelf)) }
        ensures refusals { OnOk result (self.new.shelf.refusals ≡ self.old.shelf.refusals) }
    {
        self.shelf.remove(name)
    }

    // Writes a file of a name that nothing has.
    fn fill(&mut self, name: &str, bytes: &[u8]) -> Result<(), Failed>
        ensures files { OnOk
            result
            (files_of self.old.shelf name.now ≡ None → files_of self.new.shelf ≡ with_file name.now bytes.now (files_of self.old.shelf)) }
        ensures refusals { OnOk result (self.new.shelf.refusals ≡ self.old.shelf.refusals) }
    {
        self.shelf.write_at(name, 0, bytes)
    }
}

impl Shelf for AloneShelf {
    ghost use Rattle.hg_shelf.specs.Memory.{history_of, images_of};
    ghost use Rattle.hg_shelf.specs.Sound.{named_leaves, shown_named};

    ghost history = { λ s. history_of s.shelf };

    ghost images = { λ s. images_of s.shelf };

    ghost faults = { λ s. s.shelf.calls.faults };

    ghost held = { λ s. s.shelf.refusals };

    ghost named_leaves = { λ s. named_leaves s.shelf };

    ghost shown_named = { λ s. shown_named s.shelf };

    fn size(&mut self, name: &str) -> Result<Option<u64>, Failed> {
        self.shelf.size(name)
    }

    fn read_at(&mut self, name: &str, place: u64, buf: &mut [u8]) -> Result<Got, Failed> {
        self.shelf.read_at(name, place, buf)
    }

    fn write_at(&mut self, name: &str, place: u64, bytes: &[u8]) -> Result<(), Failed> {
        self.shelf.write_at(name, place, bytes)
    }

    fn sync(&mut self, name: &str) -> Result<(), Failed> {
        self.shelf.sync(name)
    }

    fn rename(&mut self, from: &str, to: &str) -> Result<(), Failed> {
        self.shelf.rename(from, to)
    }

    fn sync_names(&mut self) -> Result<(), Failed> {
        self.shelf.sync_names()
    }

    fn remove(&mut self, name: &str) -> Result<(), Failed> {
        self.shelf.remove(name)
    }

    fn lock(&mut self) -> Result<bool, Failed> {
        self.shelf.lock()
    }

    fn unlock(&mut self) -> Result<(), Failed> {
        self.shelf.unlock()
    }
}
