//! The edits of a table.

ghost use Rattle.std.specs.Prelude.{◌≡◌, true, Some, None, IfOk, OnOk, OnErr, MatchBool, is_some, option_map};
ghost use Rattle.hg_entry.specs.Entry.{cache_view, view};
ghost use Rattle.hg_nodes.specs.Clash.{IsLeast, Sets, clashes};
ghost use Rattle.hg_mixed.specs.Cached.{IsNoneCached};
ghost use Rattle.hg_mixed.specs.Drop.{PlacesDrop};
ghost use Rattle.hg_nodes.specs.Drop.{IsPruned, after_clear};
ghost use Rattle.hg_mixed.specs.Edits.{AreLentAsBefore, ArePlacedAsBefore, EndsAbove, IsOfSameImage, IsQuiet, IsUnchanged, Lends, LendsUncached, PlacesCopy};
ghost use Rattle.hg_nodes.specs.Edits.{IsFormed, IsSame, Marks, after_cache, after_copy, after_hash, after_ids, after_no_caches, after_set};
ghost use Rattle.hg_mixed.specs.Held.{table};

use crate::mixed::Mixed;
use crate::near::take_near;
use crate::taking::{take_all, take_for};
use hg_base::{Id20, OutOfMemory, Path, PathRef, Stamp};
use hg_entry::Entry;
use hg_nodes::{SetFault, same_cache, same_entry, same_source};
use std::alloc::Global;

impl Mixed<'_> {
    // Whether a path has this entry.
    fn says(&self, path: PathRef<'_>, entry: &Entry) -> bool
        ensures is { MatchBool
            result
            ((table self.now).entries path.entry.text.now ≡ Some (view entry.now))
            ((table self.now).entries path.entry.text.now ≡ Some (view entry.now) → ⊥) }
        ensures formed { IsFormed (table self.now) }
    {
        match self.get(path) {
            None => false,
            Some(item) => same_entry(&item.entry, entry),
        }
    }

    // Whether a path has this copy source, or none where none is given.
    fn has_source(&self, path: PathRef<'_>, source: Option<PathRef<'_>>) -> bool
        ensures { MatchBool
            result
            ((table self.now).sources path.entry.text.now ≡ option_map (λ s. s.text.now) source.entry)
            ((table self.now).sources path.entry.text.now ≡ option_map (λ s. s.text.now) source.entry → ⊥) }
    {
        match self.get(path) {
            None => source.is_none(),
            Some(item) => same_source(item.source, source),
        }
    }

    /// The least tracked path above or below a path, which keeps the path from being tracked.
    pub fn clash(&mut self, alloc: Global, path: PathRef<'_>) -> Result<Option<Path>, OutOfMemory>
        ensures clash { IfOk result (IsLeast (clashes path.entry.text.now (table self.old).entries)) }
        ensures kept { IsUnchanged self.old self.new }
    {
        take_near(alloc, &mut self.memory, &mut self.left, self.image, path)?;
        self.memory.clash(alloc, path)
    }

    /// Sets the entry of a path. A copy source that is there stays.
    pub fn set(&mut self, alloc: Global, path: PathRef<'_>, entry: Entry) -> Result<(), SetFault>
        ensures clash { Sets path.entry.text.now (view entry) (table self.old) result }
        ensures table { OnOk result (IsSame (table self.new) (after_set path.entry.text.now (view entry) (table self.old))) }
        ensures changed { OnOk result (Marks (IsSame (table self.new) (table self.old)) self.old.changed self.new.changed) }
        ensures lent { OnOk result (Lends path.entry.text.now (IsSame (table self.new) (table self.old)) self.old self.new) }
        ensures places { OnOk result (ArePlacedAsBefore self.old self.new) }
        ensures image { IsOfSameImage self.old self.new }
        ensures err { OnErr result (IsUnchanged self.old self.new) }
        // Where nothing differs, no list is taken into memory.
        ensures quiet { (table self.old).entries path.entry.text.now ≡ Some (view entry) → IsQuiet result self.old self.new }
    {
        if self.says(path, &entry) {
            return Ok(());
        }
        match take_near(alloc, &mut self.memory, &mut self.left, self.image, path) {
            Err(OutOfMemory) => Err(SetFault::OutOfMemory),
            Ok(()) => self.memory.set(alloc, path, entry),
        }
    }

    /// Notes when a directory was seen whole; it has a node and no entry.
    pub fn note_dir(
        &mut self,
        alloc: Global,
        dir: PathRef<'_>,
        time: Stamp,
    ) -> Result<(), OutOfMemory>
        requires node { (table self.old).nodes dir.text.now ≡ true }
        requires no_entry { (table self.old).entries dir.text.now ≡ None }
        ensures table { OnOk result (IsSame (table self.new) (after_cache dir.entry.text.now (Some (cache_view time)) (table self.old))) }
        ensures changed { OnOk result (Marks (IsSame (table self.new) (table self.old)) self.old.changed self.new.changed) }
        ensures lent { OnOk result (Lends dir.entry.text.now (IsSame (table self.new) (table self.old)) self.old self.new) }
        ensures places { OnOk result (ArePlacedAsBefore self.old self.new) }
        ensures image { IsOfSameImage self.old self.new }
        ensures err { OnErr result (IsUnchanged self.old self.new) }
        // Where nothing differs, no list is taken into memory.
        ensures quiet { (table self.old).caches dir.entry.text.now ≡ Some (cache_view time) → IsQuiet result self.old self.new }
    {
        if same_cache(self.cache(dir), Some(time)) {
            return Ok(());
        }
        match take_for(alloc, &mut self.memory, &mut self.left, self.image, dir) {
            Err(fault) => Err(fault),
            Ok(()) => self.memory.note_dir(alloc, dir, time),
        }
    }

    /// The directory isn't cached any more; it has a node and no entry.
    pub fn forget_dir(&mut self, alloc: Global, dir: PathRef<'_>) -> Result<(), OutOfMemory>
        requires node { (table self.old).nodes dir.text.now ≡ true }
        requires no_entry { (table self.old).entries dir.text.now ≡ None }
        ensures table { OnOk result (IsSame (table self.new) (after_cache dir.entry.text.now None (table self.old))) }
        ensures changed { OnOk result (Marks (IsSame (table self.new) (table self.old)) self.old.changed self.new.changed) }
        ensures lent { OnOk result (Lends dir.entry.text.now (IsSame (table self.new) (table self.old)) self.old self.new) }
        ensures places { OnOk result (ArePlacedAsBefore self.old self.new) }
        ensures image { IsOfSameImage self.old self.new }
        ensures err { OnErr result (IsUnchanged self.old self.new) }
        // Where nothing differs, no list is taken into memory.
        ensures quiet { (table self.old).caches dir.entry.text.now ≡ None → IsQuiet result self.old self.new }
    {
        if self.cache(dir).is_none() {
            return Ok(());
        }
        match take_for(alloc, &mut self.memory, &mut self.left, self.image, dir) {
            Err(fault) => Err(fault),
            Ok(()) => self.memory.forget_dir(dir),
        }
    }

    /// No directory is cached any more.
    pub fn drop_caches(&mut self, alloc: Global) -> Result<(), OutOfMemory>
        ensures table { OnOk result (IsSame (table self.new) (after_no_caches (table self.old))) }
        ensures changed { OnOk result (Marks (IsSame (table self.new) (table self.old)) self.old.changed self.new.changed) }
        ensures lent { OnOk result (LendsUncached self.old self.new) }
        ensures places { OnOk result (ArePlacedAsBefore self.old self.new) }
        ensures image { IsOfSameImage self.old self.new }
        ensures err { OnErr result (IsUnchanged self.old self.new) }
        // Where nothing is cached, no list is taken into memory.
        ensures quiet { IsNoneCached (table self.old) → IsQuiet result self.old self.new }
    {
        if !self.has_caches() {
            return Ok(());
        }
        match take_all(alloc, &mut self.memory, &mut self.left, self.image) {
            Err(fault) => Err(fault),
            Ok(()) => self.memory.drop_caches(),
        }
    }

    /// Writes the copy source of a path, which has an entry.
    pub fn copy_from(
        &mut self,
        alloc: Global,
        path: PathRef<'_>,
        source: Option<PathRef<'_>>,
    ) -> Result<(), OutOfMemory>
        requires { is_some ((table self.old).entries path.text.now) ≡ true }
        ensures table { OnOk
            result
            (IsSame (table self.new) (after_copy path.entry.text.now (option_map (λ s. s.text.now) source.entry) (table self.old))) }
        ensures changed { OnOk result (Marks (IsSame (table self.new) (table self.old)) self.old.changed self.new.changed) }
        ensures lent { OnOk result (Lends path.entry.text.now (IsSame (table self.new) (table self.old)) self.old self.new) }
        ensures places { OnOk result (PlacesCopy path.entry.text.now (IsSame (table self.new) (table self.old)) self.old self.new) }
        ensures image { IsOfSameImage self.old self.new }
        ensures err { OnErr result (IsUnchanged self.old self.new) }
        // Where nothing differs, no list is taken into memory.
        ensures quiet { (table self.old).sources path.entry.text.now ≡ option_map (λ s. s.text.now) source.entry → IsQuiet result self.old self.new }
    {
        if self.has_source(path, source) {
            return Ok(());
        }
        match take_for(alloc, &mut self.memory, &mut self.left, self.image, path) {
            Err(fault) => Err(fault),
            Ok(()) => self.memory.copy_from(alloc, path, source),
        }
    }

    /// Writes the parents of the working copy.
    pub fn set_ids(&mut self, p1: Id20, p2: Id20)
        ensures table { IsSame (table self.new) (after_ids p1.0 p2.0 (table self.old)) }
        ensures changed { Marks (IsSame (table self.new) (table self.old)) self.old.changed self.new.changed }
        ensures lent { AreLentAsBefore self.old self.new }
        ensures places { ArePlacedAsBefore self.old self.new }
        ensures image { IsOfSameImage self.old self.new }
    {
        self.memory.set_ids(p1, p2);
    }

    /// Writes the hash of the ignore patterns.
    pub fn set_hash(&mut self, hash: [u8; 20])
        ensures table { IsSame (table self.new) (after_hash hash (table self.old)) }
        ensures changed { Marks (IsSame (table self.new) (table self.old)) self.old.changed self.new.changed }
        ensures lent { AreLentAsBefore self.old self.new }
        ensures places { ArePlacedAsBefore self.old self.new }
        ensures image { IsOfSameImage self.old self.new }
    {
        self.memory.set_hash(hash);
    }

    /// Drops the entry of a path, which has one, with its copy source, then the node where it has no children, and then each
    /// directory above that is left with neither entry nor children.
    pub fn drop_entry(&mut self, alloc: Global, path: PathRef<'_>) -> Result<(), OutOfMemory>
        requires { is_some ((table self.old).entries path.text.now) ≡ true }
        ensures pruned { OnOk result (IsPruned path.entry.text.now (after_clear path.entry.text.now (table self.old)) (table self.new)) }
        ensures changed { OnOk result (self.new.changed ≡ true) }
        ensures lent { OnOk result (EndsAbove path.entry.text.now self.old self.new) }
        ensures places { OnOk result (PlacesDrop path.entry.text.now self.old self.new) }
        ensures image { IsOfSameImage self.old self.new }
        ensures err { OnErr result (IsUnchanged self.old self.new) }
    {
        match take_for(alloc, &mut self.memory, &mut self.left, self.image, path) {
            Err(fault) => Err(fault),
            Ok(()) => self.memory.drop_entry(path),
        }
    }
}
