//! What is in memory of a table.

ghost use Rattle.std.specs.Prelude.{◌≡◌, ℕ, List, None, false, option_map};
ghost use Rattle.hg_entry.specs.Entry.{cache_view, view};
ghost use Rattle.hg_nodes.specs.Edits.{IsFormed};
ghost use Rattle.hg_nodes.specs.Lists.{data_of, has_rows_in};
ghost use Rattle.hg_nodes.specs.Memory.{table_in};
ghost use Rattle.hg_nodes.specs.Node.{node_at, source_text_in, text_in};
ghost use Rattle.hg_nodes.specs.Shown.{shown_item, shown_in};
ghost use Rattle.hg_nodes.specs.Times.{time_at};

use crate::cached::Cached;
use crate::node::Node;
use crate::nodes::Nodes;
use crate::times::Times;
use hg_base::{Id20, PathRef, Stamp};
use hg_entry::Item;
use std::marker::Model;

/// The parents, the hash, and those nodes and times that are in memory.
#[derive(Drop)]
pub struct Memory {
    pub(crate) p1: Id20,
    pub(crate) p2: Id20,
    pub(crate) hash: [u8; 20],
    pub(crate) changed: bool,
    pub(crate) nodes: Nodes,
    pub(crate) times: Times,
}

impl Model for Memory {
    ghost use Rattle.hg_nodes.specs.Memory.{MemoryData};
    ghost use Rattle.hg_nodes.specs.Memory.{table_of};

    ghost Value = { MemoryData };

    ghost use Rattle.hg_nodes.specs.Edits.{IsFormed};

    ghost view = { λ m. record {
      p1 = m.p1.0;
      p2 = m.p2.0;
      hash = m.hash;
      changed = m.changed;
      rows = m.nodes;
      times = m.times;
    } };

    ghost invariant = { λ m. IsFormed (table_of m.p1.0 m.p2.0 m.hash m.nodes m.times) };
}

impl Memory {
    /// Nothing but the parents and the hash.
    pub fn new(p1: Id20, p2: Id20, hash: [u8; 20]) -> Memory
        ensures nodes { (at : List ℕ) → node_at result.rows at ≡ None }
        ensures times { (at : List ℕ) → time_at result.times at ≡ None }
        ensures p1 { result.p1 ≡ p1.0 }
        ensures p2 { result.p2 ≡ p2.0 }
        ensures hash { result.hash ≡ hash }
        ensures changed { result.changed ≡ false }
    {
        Memory {
            p1,
            p2,
            hash,
            changed: false,
            nodes: Nodes::new(),
            times: Times::new(),
        }
    }

    /// A law: the table is formed.
    pub fn stays_formed(&self)
        ensures { IsFormed (table_in self.now) }
    {
        let _ = &self.nodes;
    }

    /// Whether an edit has changed anything.
    pub fn changed(&self) -> bool
        ensures { result ≡ self.now.changed }
    {
        self.changed
    }

    /// The parents of the working copy.
    pub fn parents(&self) -> (Id20, Id20)
        ensures p1 { result.0.0 ≡ self.now.p1 }
        ensures p2 { result.1.0 ≡ self.now.p2 }
    {
        (self.p1, self.p2)
    }

    /// The hash of the ignore patterns under which directories were cached.
    pub fn hash(&self) -> [u8; 20]
        ensures { result ≡ self.now.hash }
    {
        self.hash
    }

    /// The entry of a path and its copy source, where it has an entry.
    pub fn get(&self, path: PathRef<'_>) -> Option<Item<'_>>
        ensures item { option_map shown_item result ≡ shown_in (table_in self.now) path.entry.text.now }
        ensures formed { IsFormed (table_in self.now) }
    {
        let node = self.nodes.get(path)?;
        item_of(node)
    }

    /// The time of a cached directory.
    pub fn cache(&self, dir: PathRef<'_>) -> Option<Stamp>
        ensures { option_map cache_view result ≡ (table_in self.now).caches dir.entry.text.now }
    {
        self.times.get(dir.text)
    }

    /// Where the texts of a path and of its copy source lie in the image, where they are lent.
    pub fn places(&self, path: PathRef<'_>) -> (Option<u32>, Option<u32>)
        ensures path { result.0 ≡ text_in (node_at self.now.rows path.entry.text.now) }
        ensures source { result.1 ≡ source_text_in (node_at self.now.rows path.entry.text.now) }
    {
        match self.nodes.get(path) {
            None => (None, None),
            Some(node) => (node.text_at, node.source_at()),
        }
    }

    /// Whether a node stands at the path.
    pub fn has_node(&self, path: PathRef<'_>) -> bool
        ensures { result ≡ (table_in self.now).nodes path.entry.text.now }
    {
        self.nodes.get(path).is_some()
    }

    /// The cached directories, one after the other.
    pub fn cached(&self) -> Cached<'_>
        ensures all { result ≡ self.now.times }
        ensures formed { IsFormed (table_in self.now) }
    {
        self.times.cached()
    }

    /// Whether a node stands right in a directory, of which the text is empty for the root.
    pub fn has_kids(&self, dir: &str) -> bool
        ensures { result ≡ has_rows_in self.now.rows dir.now }
    {
        self.nodes.has_kids(dir)
    }
}

// What a node shows, where it has an entry.
fn item_of(node: &Node) -> Option<Item<'_>>
    ensures { option_map shown_item result ≡ option_map (λ entry. (view entry, (data_of node.now).source)) node.now.entry }
{
    let entry = node.entry?;
    Some(Item {
        entry,
        source: node.source(),
    })
}
