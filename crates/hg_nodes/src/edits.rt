//! The edits of what is in memory. Each answers whether anything differs then.

ghost use Rattle.std.specs.Prelude.{◌≡◌, ℕ, true, List, Some, None, IfOk, MatchBool, OnOk, OnErr, is_some, option_map};
ghost use Rattle.hg_entry.specs.Entry.{cache_view, view};
ghost use Rattle.hg_nodes.specs.Clash.{IsLeast, Sets, clashes};
ghost use Rattle.hg_nodes.specs.Drop.{IsPruned, after_clear};
ghost use Rattle.hg_nodes.specs.Edits.{IsSame, Marks, after_cache, after_copy, after_hash, after_ids, after_no_caches, after_set};
ghost use Rattle.hg_nodes.specs.Memory.{AreCleared, IsSourceWritten, IsStill, table_in};
ghost use Rattle.hg_nodes.specs.Node.{AreSame, node_at, planted, with_entry};
ghost use Rattle.hg_nodes.specs.Times.{time_at};

use crate::clash::{clash, near_clash};
use crate::fault::SetFault;
use crate::memory::Memory;
use crate::planting::clear;
use crate::pruning::prune;
use crate::same::{same_cache, same_hash, same_ids};
use crate::setting::{put_entry, put_source};
use hg_base::{Id20, OutOfMemory, Path, PathRef, Stamp};
use hg_entry::Entry;
use std::alloc::Global;

impl Memory {
    /// The least tracked path above or below a path.
    pub fn clash(&self, alloc: Global, path: PathRef<'_>) -> Result<Option<Path>, OutOfMemory>
        ensures { IfOk result (IsLeast (clashes path.entry.text.now (table_in self.now).entries)) }
    {
        match near_clash(&self.nodes, path) {
            None => Ok(None),
            Some(other) => {
                let other = Path::of(alloc, other)?;
                Ok(Some(other))
            }
        }
    }

    /// Sets the entry of a path. A copy source that is there stays.
    pub fn set(&mut self, alloc: Global, path: PathRef<'_>, entry: Entry) -> Result<bool, SetFault>
        ensures clash { Sets path.entry.text.now (view entry) (table_in self.old) result }
        ensures table { OnOk result (IsSame (table_in self.new) (after_set path.entry.text.now (view entry) (table_in self.old))) }
        ensures changed { OnOk result (Marks (IsSame (table_in self.new) (table_in self.old)) self.old.changed self.new.changed) }
        ensures nodes { OnOk
            result
            ((at : List ℕ)
            → node_at self.new.rows at
            ≡ planted path.entry.text.now (with_entry (view entry) (node_at self.old.rows path.entry.text.now)) (node_at self.old.rows) at) }
        ensures differs { IfOk
            result
            (λ differs. MatchBool differs (IsSame (table_in self.new) (table_in self.old) → ⊥) (IsSame (table_in self.new) (table_in self.old))) }
        ensures err { OnErr result (IsStill self.old self.new) }
    {
        if let Some(other) = clash(&self.nodes, path, entry) {
            let other = Path::of(alloc, other)?;
            return Err(SetFault::Clash { other });
        }
        match put_entry(alloc, &mut self.nodes, path, entry) {
            Err(OutOfMemory) => Err(SetFault::OutOfMemory),
            Ok(differs) => {
                self.times.remove(path.text);
                self.changed |= differs;
                Ok(differs)
            }
        }
    }

    /// Notes when a directory was seen whole; it has a node and no entry.
    pub fn note_dir(
        &mut self,
        alloc: Global,
        dir: PathRef<'_>,
        time: Stamp,
    ) -> Result<bool, OutOfMemory>
        requires node { (table_in self.old).nodes dir.text.now ≡ true }
        requires no_entry { (table_in self.old).entries dir.text.now ≡ None }
        ensures table { OnOk result (IsSame (table_in self.new) (after_cache dir.entry.text.now (Some (cache_view time)) (table_in self.old))) }
        ensures changed { OnOk result (Marks (IsSame (table_in self.new) (table_in self.old)) self.old.changed self.new.changed) }
        ensures nodes { OnOk result (AreSame self.old.rows self.new.rows) }
        ensures differs { IfOk
            result
            (λ differs. MatchBool differs (IsSame (table_in self.new) (table_in self.old) → ⊥) (IsSame (table_in self.new) (table_in self.old))) }
        ensures err { OnErr result (IsStill self.old self.new) }
    {
        let differs = !same_cache(self.times.get(dir.text), Some(time));
        match self.times.put(alloc, dir.text, time) {
            Err(fault) => Err(fault),
            Ok(()) => {
                self.changed |= differs;
                Ok(differs)
            }
        }
    }

    /// The directory isn't cached any more; it has a node and no entry.
    pub fn forget_dir(&mut self, dir: PathRef<'_>) -> bool
        requires node { (table_in self.old).nodes dir.text.now ≡ true }
        requires no_entry { (table_in self.old).entries dir.text.now ≡ None }
        ensures table { IsSame (table_in self.new) (after_cache dir.entry.text.now None (table_in self.old)) }
        ensures changed { Marks (IsSame (table_in self.new) (table_in self.old)) self.old.changed self.new.changed }
        ensures nodes { AreSame self.old.rows self.new.rows }
        ensures differs { MatchBool result (IsSame (table_in self.new) (table_in self.old) → ⊥) (IsSame (table_in self.new) (table_in self.old)) }
    {
        let differs = !same_cache(self.times.get(dir.text), None);
        self.times.remove(dir.text);
        self.changed |= differs;
        differs
    }

    /// No directory is cached any more.
    pub fn drop_caches(&mut self)
        ensures table { IsSame (table_in self.new) (after_no_caches (table_in self.old)) }
        ensures changed { Marks (IsSame (table_in self.new) (table_in self.old)) self.old.changed self.new.changed }
        ensures nodes { AreSame self.old.rows self.new.rows }
    {
        let differs = !self.times.is_empty();
        self.times.clear();
        self.changed |= differs;
    }

    /// Writes the copy source of a path, which has an entry.
    pub fn copy_from(
        &mut self,
        alloc: Global,
        path: PathRef<'_>,
        source: Option<PathRef<'_>>,
    ) -> Result<bool, OutOfMemory>
        requires { is_some ((table_in self.old).entries path.text.now) ≡ true }
        ensures table { OnOk
            result
            (IsSame (table_in self.new) (after_copy path.entry.text.now (option_map (λ s. s.text.now) source.entry) (table_in self.old))) }
        ensures changed { OnOk result (Marks (IsSame (table_in self.new) (table_in self.old)) self.old.changed self.new.changed) }
        ensures nodes { OnOk
            result
            (IsSourceWritten path.entry.text.now (option_map (λ s. s.text.now) source.entry) self.old.rows self.new.rows) }
        ensures differs { IfOk
            result
            (λ differs. MatchBool differs (IsSame (table_in self.new) (table_in self.old) → ⊥) (IsSame (table_in self.new) (table_in self.old))) }
        ensures err { OnErr result (IsStill self.old self.new) }
    {
        match put_source(alloc, &mut self.nodes, path, source) {
            Err(fault) => Err(fault),
            Ok(differs) => {
                self.changed |= differs;
                Ok(differs)
            }
        }
    }

    /// Writes the parents of the working copy.
    pub fn set_ids(&mut self, p1: Id20, p2: Id20)
        ensures table { IsSame (table_in self.new) (after_ids p1.0 p2.0 (table_in self.old)) }
        ensures changed { Marks (IsSame (table_in self.new) (table_in self.old)) self.old.changed self.new.changed }
        ensures nodes { AreSame self.old.rows self.new.rows }
    {
        let same = same_ids(self.p1, p1, self.p2, p2);
        self.p1 = p1;
        self.p2 = p2;
        self.changed |= !same;
    }

    /// Writes the hash of the ignore patterns.
    pub fn set_hash(&mut self, hash: [u8; 20])
        ensures table { IsSame (table_in self.new) (after_hash hash (table_in self.old)) }
        ensures changed { Marks (IsSame (table_in self.new) (table_in self.old)) self.old.changed self.new.changed }
        ensures nodes { AreSame self.old.rows self.new.rows }
    {
        let same = same_hash(self.hash, hash);
        self.hash = hash;
        self.changed |= !same;
    }

    /// Drops the entry of a path, which has one, with its copy source, then the node where it has no children, and then each
    /// directory above that is left with neither entry nor children.
    pub fn drop_entry(&mut self, path: PathRef<'_>)
        requires { is_some ((table_in self.old).entries path.text.now) ≡ true }
        ensures pruned { IsPruned path.entry.text.now (after_clear path.entry.text.now (table_in self.old)) (table_in self.new) }
        ensures changed { self.new.changed ≡ true }
        ensures nodes { AreCleared path.entry.text.now self.old.rows self.new.rows }
    {
        clear(&mut self.nodes, path);
        prune(&mut self.nodes, &mut self.times, path);
        self.changed = true;
    }
}
