//! What a table has in memory of its own.

ghost use Rattle.std.specs.Prelude.{◌≡◌, ℕ, true, false, List, Some, None, IfOk, OnOk, OnErr, is_some, option_map};
ghost use Rattle.hg_entry.specs.Entry.{cache_view, view};
ghost use Rattle.hg_mixed.specs.Lent.{AreEnded, AreEndedOver};
ghost use Rattle.hg_mixed.specs.Own.{Ends, IsKept, memory_table};
ghost use Rattle.hg_nodes.specs.Children.{AreNodesIn};
ghost use Rattle.hg_nodes.specs.Clash.{IsLeast, Sets, clashes};
ghost use Rattle.hg_nodes.specs.Drop.{IsPruned, after_clear};
ghost use Rattle.hg_nodes.specs.Edits.{IsFormed, IsSame, Marks, after_cache, after_copy, after_hash, after_ids, after_no_caches, after_set};
ghost use Rattle.hg_nodes.specs.Lists.{has_rows_in};
ghost use Rattle.hg_nodes.specs.Memory.{AreCleared, IsSourceWritten};
ghost use Rattle.hg_nodes.specs.Node.{AreSame, node_at, planted, source_text_in, text_in, with_entry};
ghost use Rattle.hg_nodes.specs.Shown.{shown_in, shown_item};
ghost use Rattle.hg_nodes.specs.Times.{time_at};

use crate::lent::{Lent, end_over};
use hg_base::{Id20, OutOfMemory, Path, PathRef, Stamp};
use hg_docket::Docket;
use hg_entry::{Entry, Item};
use hg_nodes::{Memory, OwnChildren, SetFault};
use std::alloc::Global;
use std::marker::Model;

/// The parents, the hash, those nodes and times that are in memory, and those lists of nodes there that are as the image has them.
#[derive(Drop)]
pub struct Own<'a> {
    pub(crate) memory: Memory,
    pub(crate) kept: Lent<'a>,
}

impl<'a> Model for Own<'a> {
    ghost use Rattle.hg_mixed.specs.Own.{InMemory};

    ghost Value = { InMemory };

    ghost view = { λ m. record {
      p1 = m.memory.p1;
      p2 = m.memory.p2;
      hash = m.memory.hash;
      changed = m.memory.changed;
      rows = m.memory.rows;
      times = m.memory.times;
      kept = m.kept;
    } };
}

impl<'a> Own<'a> {
    /// Nothing but the parents and the hash of a docket.
    pub fn new(docket: Docket<'_>) -> Own<'a>
        ensures nodes { (at : List ℕ) → node_at result.rows at ≡ None }
        ensures times { (at : List ℕ) → time_at result.times at ≡ None }
        ensures p1 { result.p1 ≡ docket.entry.p1.0 }
        ensures p2 { result.p2 ≡ docket.entry.p2.0 }
        ensures hash { result.hash ≡ docket.entry.hash }
        ensures changed { result.changed ≡ false }
    {
        Own {
            memory: Memory::new(docket.p1, docket.p2, docket.hash),
            kept: Lent::new(),
        }
    }

    /// A law: what is in memory is formed.
    pub fn stays_formed(&self)
        ensures { IsFormed (memory_table self.now) }
    {
        self.memory.stays_formed();
    }

    /// Whether an edit has changed anything.
    pub fn changed(&self) -> bool
        ensures { result ≡ self.now.changed }
    {
        self.memory.changed()
    }

    /// The parents of the working copy.
    pub fn parents(&self) -> (Id20, Id20)
        ensures p1 { result.0.0 ≡ self.now.p1 }
        ensures p2 { result.1.0 ≡ self.now.p2 }
    {
        self.memory.parents()
    }

    /// The hash of the ignore patterns under which directories were cached.
    pub fn hash(&self) -> [u8; 20]
        ensures { result ≡ self.now.hash }
    {
        self.memory.hash()
    }

    /// The entry of a path and its copy source, where it has an entry.
    pub fn get(&self, path: PathRef<'_>) -> Option<Item<'_>>
        ensures item { option_map shown_item result ≡ shown_in (memory_table self.now) path.entry.text.now }
        ensures formed { IsFormed (memory_table self.now) }
    {
        self.memory.get(path)
    }

    /// The time of a cached directory.
    pub fn cache(&self, dir: PathRef<'_>) -> Option<Stamp>
        ensures { option_map cache_view result ≡ (memory_table self.now).caches dir.entry.text.now }
    {
        self.memory.cache(dir)
    }

    /// Where the texts of a path and of its copy source lie in the image, where they are lent.
    pub fn places(&self, path: PathRef<'_>) -> (Option<u32>, Option<u32>)
        ensures path { result.0 ≡ text_in (node_at self.now.rows path.entry.text.now) }
        ensures source { result.1 ≡ source_text_in (node_at self.now.rows path.entry.text.now) }
    {
        self.memory.places(path)
    }

    /// Whether a node stands at the path.
    pub fn has_node(&self, path: PathRef<'_>) -> bool
        ensures { result ≡ (memory_table self.now).nodes path.entry.text.now }
    {
        self.memory.has_node(path)
    }

    /// Whether a node stands right in a directory, of which the text is empty for the root.
    pub fn has_kids(&self, dir: &str) -> bool
        ensures { result ≡ has_rows_in self.now.rows dir.now }
    {
        self.memory.has_kids(dir)
    }

    /// The nodes right in a directory, ascending by name, where no directory is the root.
    pub fn children(&self, dir: Option<PathRef<'_>>) -> OwnChildren<'_>
        ensures nodes { AreNodesIn (memory_table self.now) self.now.rows (option_map (λ d. d.text.now) dir.entry) result }
        ensures formed { IsFormed (memory_table self.now) }
    {
        self.memory.children(dir)
    }

    /// The least tracked path above or below a path.
    pub fn clash(&self, alloc: Global, path: PathRef<'_>) -> Result<Option<Path>, OutOfMemory>
        ensures { IfOk result (IsLeast (clashes path.entry.text.now (memory_table self.now).entries)) }
    {
        self.memory.clash(alloc, path)
    }

    /// Sets the entry of a path. A copy source that is there stays.
    pub fn set(&mut self, alloc: Global, path: PathRef<'_>, entry: Entry) -> Result<(), SetFault>
        ensures clash { Sets path.entry.text.now (view entry) (memory_table self.old) result }
        ensures table { OnOk result (IsSame (memory_table self.new) (after_set path.entry.text.now (view entry) (memory_table self.old))) }
        ensures changed { OnOk result (Marks (IsSame (memory_table self.new) (memory_table self.old)) self.old.changed self.new.changed) }
        ensures nodes { OnOk
            result
            ((at : List ℕ)
            → node_at self.new.rows at
            ≡ planted path.entry.text.now (with_entry (view entry) (node_at self.old.rows path.entry.text.now)) (node_at self.old.rows) at) }
        ensures kept { OnOk result (Ends path.entry.text.now (IsSame (memory_table self.new) (memory_table self.old)) self.old.kept self.new.kept) }
        ensures err { OnErr result (IsKept self.old self.new) }
    {
        match self.memory.set(alloc, path, entry) {
            Err(fault) => Err(fault),
            Ok(differs) => {
                self.kept.end_where(differs, path);
                Ok(())
            }
        }
    }

    /// Notes when a directory was seen whole; it has a node and no entry.
    pub fn note_dir(
        &mut self,
        alloc: Global,
        dir: PathRef<'_>,
        time: Stamp,
    ) -> Result<(), OutOfMemory>
        requires node { (memory_table self.old).nodes dir.text.now ≡ true }
        requires no_entry { (memory_table self.old).entries dir.text.now ≡ None }
        ensures table { OnOk result (IsSame (memory_table self.new) (after_cache dir.entry.text.now (Some (cache_view time)) (memory_table self.old))) }
        ensures changed { OnOk result (Marks (IsSame (memory_table self.new) (memory_table self.old)) self.old.changed self.new.changed) }
        ensures nodes { OnOk result (AreSame self.old.rows self.new.rows) }
        ensures kept { OnOk result (Ends dir.entry.text.now (IsSame (memory_table self.new) (memory_table self.old)) self.old.kept self.new.kept) }
        ensures err { OnErr result (IsKept self.old self.new) }
    {
        match self.memory.note_dir(alloc, dir, time) {
            Err(fault) => Err(fault),
            Ok(differs) => {
                self.kept.end_where(differs, dir);
                Ok(())
            }
        }
    }

    /// Writes the copy source of a path, which has an entry.
    pub fn copy_from(
        &mut self,
        alloc: Global,
        path: PathRef<'_>,
        source: Option<PathRef<'_>>,
    ) -> Result<(), OutOfMemory>
        requires { is_some ((memory_table self.old).entries path.text.now) ≡ true }
        ensures table { OnOk
            result
            (IsSame (memory_table self.new) (after_copy path.entry.text.now (option_map (λ s. s.text.now) source.entry) (memory_table self.old))) }
        ensures changed { OnOk result (Marks (IsSame (memory_table self.new) (memory_table self.old)) self.old.changed self.new.changed) }
        ensures nodes { OnOk
            result
            (IsSourceWritten path.entry.text.now (option_map (λ s. s.text.now) source.entry) self.old.rows self.new.rows) }
        ensures kept { OnOk result (Ends path.entry.text.now (IsSame (memory_table self.new) (memory_table self.old)) self.old.kept self.new.kept) }
        ensures err { OnErr result (IsKept self.old self.new) }
    {
        match self.memory.copy_from(alloc, path, source) {
            Err(fault) => Err(fault),
            Ok(differs) => {
                self.kept.end_where(differs, path);
                Ok(())
            }
        }
    }

    /// The directory isn't cached any more; it has a node and no entry.
    pub fn forget_dir(&mut self, dir: PathRef<'_>) -> Result<(), OutOfMemory>
        requires node { (memory_table self.old).nodes dir.text.now ≡ true }
        requires no_entry { (memory_table self.old).entries dir.text.now ≡ None }
        ensures table { OnOk result (IsSame (memory_table self.new) (after_cache dir.entry.text.now None (memory_table self.old))) }
        ensures changed { OnOk result (Marks (IsSame (memory_table self.new) (memory_table self.old)) self.old.changed self.new.changed) }
        ensures nodes { OnOk result (AreSame self.old.rows self.new.rows) }
        ensures kept { OnOk result (Ends dir.entry.text.now (IsSame (memory_table self.new) (memory_table self.old)) self.old.kept self.new.kept) }
        ensures err { OnErr result (IsKept self.old self.new) }
    {
        let differs = self.memory.forget_dir(dir);
        self.kept.end_where(differs, dir);
        Ok(())
    }

    /// No directory is cached any more.
    pub fn drop_caches(&mut self) -> Result<(), OutOfMemory>
        ensures table { OnOk result (IsSame (memory_table self.new) (after_no_caches (memory_table self.old))) }
        ensures changed { OnOk result (Marks (IsSame (memory_table self.new) (memory_table self.old)) self.old.changed self.new.changed) }
        ensures nodes { OnOk result (AreSame self.old.rows self.new.rows) }
        ensures kept { OnOk result (AreEndedOver self.old.times self.old.kept self.new.kept) }
        ensures err { OnErr result (IsKept self.old self.new) }
    {
        end_over(&self.memory, &mut self.kept);
        self.memory.drop_caches();
        Ok(())
    }

    /// Writes the parents of the working copy.
    pub fn set_ids(&mut self, p1: Id20, p2: Id20)
        ensures table { IsSame (memory_table self.new) (after_ids p1.0 p2.0 (memory_table self.old)) }
        ensures changed { Marks (IsSame (memory_table self.new) (memory_table self.old)) self.old.changed self.new.changed }
        ensures nodes { AreSame self.old.rows self.new.rows }
        ensures kept { self.new.kept ≡ self.old.kept }
    {
        self.memory.set_ids(p1, p2);
    }

    /// Writes the hash of the ignore patterns.
    pub fn set_hash(&mut self, hash: [u8; 20])
        ensures table { IsSame (memory_table self.new) (after_hash hash (memory_table self.old)) }
        ensures changed { Marks (IsSame (memory_table self.new) (memory_table self.old)) self.old.changed self.new.changed }
        ensures nodes { AreSame self.old.rows self.new.rows }
        ensures kept { self.new.kept ≡ self.old.kept }
    {
        self.memory.set_hash(hash);
    }

    /// Drops the entry of a path, which has one, with its copy source, then the node where it has no children, and then each
    /// directory above that is left with neither entry nor children.
    pub fn drop_entry(&mut self, path: PathRef<'_>) -> Result<(), OutOfMemory>
        requires { is_some ((memory_table self.old).entries path.text.now) ≡ true }
        ensures pruned { OnOk result (IsPruned path.entry.text.now (after_clear path.entry.text.now (memory_table self.old)) (memory_table self.new)) }
        ensures changed { OnOk result (self.new.changed ≡ true) }
        ensures nodes { OnOk result (AreCleared path.entry.text.now self.old.rows self.new.rows) }
        ensures kept { OnOk result (AreEnded path.entry.text.now self.old.kept self.new.kept) }
        ensures err { OnErr result (IsKept self.old self.new) }
    {
        self.memory.drop_entry(path);
        self.kept.end_above(path);
        Ok(())
    }
}
