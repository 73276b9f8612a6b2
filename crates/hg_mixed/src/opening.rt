//! Nodes of an image are taken into memory.

ghost use Rattle.std.specs.Prelude.{◌≡◌, ◌<◌, Some, is_some, OnOk, OnErr, option_map};
ghost use Rattle.hg_base.specs.PathText.{parent_of};
ghost use Rattle.hg_entry.specs.Entry.{cache_view};
ghost use Rattle.hg_entry.specs.Entry as entries;
ghost use Rattle.hg_image.specs.Node.{fields_of};
ghost use Rattle.hg_image.specs.View.{dir_of, row, rows_in};
ghost use Rattle.hg_mixed.specs.Lent.{AreLentStill, IsLentPut, lent_at};
ghost use Rattle.hg_mixed.specs.Opened.{node_of};
ghost use Rattle.hg_mixed.specs.Taken.{AddsNodes, AddsOwn, AddsSome};
ghost use Rattle.hg_mixed.specs.Taken as taken;
ghost use Rattle.hg_nodes.specs.Adding.{AreOthersKept, IsElsewhere, recorded_node};
ghost use Rattle.hg_nodes.specs.Lists.{or_root};
ghost use Rattle.hg_nodes.specs.Node.{IsThere};

use crate::own::Own;
use hg_base::{OutOfMemory, PathRef};
use hg_image::{List, NodeRef};
use hg_node::Rec;
use hg_nodes::{Memory, Recorded};
use std::alloc::Global;

/// Where the text of a node's copy source lies, where it has one.
pub fn source_place(source: Option<PathRef<'_>>, rec: Rec) -> Option<u32>
    ensures { result ≡ option_map (λ source. rec.copy_start) (option_map (λ s. s.text.now) source.entry) }
{
    match source {
        None => None,
        Some(_) => Some(rec.copy_start),
    }
}

// What an image records of a node.
fn recorded(node: NodeRef<'_>) -> Recorded<'_>
    ensures path { result.path.text.now ≡ (row node.entry).path }
    ensures node { recorded_node result ≡ node_of (row node.entry) }
    ensures cache { option_map cache_view result.cache ≡ entries.cache_of (fields_of (row node.entry).rec) }
{
    let rec = node.rec();
    Recorded {
        path: node.path(),
        entry: node.entry(),
        source: node.source(),
        cache: node.cache(),
        text_at: rec.path_start,
        source_at: rec.copy_start,
    }
}

// Takes one node. Where memory is wanting, its path alone may have another node or time, and all is formed.
fn add_own(alloc: Global, memory: &mut Memory, node: NodeRef<'_>) -> Result<(), OutOfMemory>
    requires { IsThere memory.old.rows (parent_of (row node).path) }
    ensures ok { OnOk result (AddsOwn (row node.entry) memory.old.rows memory.old.times memory.new.rows memory.new.times) }
    ensures err { OnErr result (IsElsewhere (row node.entry).path memory.old.rows memory.old.times memory.new.rows memory.new.times) }
    ensures others { AreOthersKept memory.old memory.new }
{
    memory.add(alloc, recorded(node))
}

// Takes the nodes of a list, without what stands below them.
fn add_nodes(alloc: Global, memory: &mut Memory, list: List<'_>) -> Result<(), OutOfMemory>
    requires { 0 < list.count → IsThere memory.old.rows (dir_of list) }
    ensures ok { OnOk
        result
        (AddsNodes list.entry list.entry.count memory.old.rows memory.old.times memory.new.rows memory.new.times) }
    ensures err { OnErr result (AddsSome list.entry memory.old.rows memory.old.times memory.new.rows memory.new.times) }
    ensures others { AreOthersKept memory.old memory.new }
{
    memory.stays_formed();
    for i in 0..list.len() {
        add_own(alloc, memory, list.get(i))?;
    }
    Ok(())
}

impl<'a> Own<'a> {
    /// Takes the nodes that stand right in a list's directory.
    pub fn add_kids(&mut self, alloc: Global, list: List<'_>) -> Result<(), OutOfMemory>
        requires { 0 < list.count → IsThere self.old.rows (dir_of list) }
        ensures ok { OnOk result (AddsNodes list.entry list.entry.count self.old.rows self.old.times self.new.rows self.new.times) }
        ensures err { OnErr result (AddsSome list.entry self.old.rows self.old.times self.new.rows self.new.times) }
        ensures others { taken.AreOthersKept self.old self.new }
    {
        add_nodes(alloc, &mut self.memory, list)
    }

    /// Notes that a list is as the image has it, or leaves all as it was.
    pub fn keep(&mut self, alloc: Global, dir: &str, list: List<'a>) -> Result<(), OutOfMemory>
        requires { or_root (dir_of list) ≡ dir.now }
        ensures ok { OnOk result (IsLentPut dir.now (Some (rows_in list.entry)) self.old.kept self.new.kept) }
        ensures err { OnErr result (AreLentStill self.old.kept self.new.kept) }
        ensures rest { self.new ≡ record self.old { kept = self.new.kept } }
    {
        self.kept.put(alloc, dir, list)
    }

    /// Whether the list of a directory is known to be as the image has it.
    pub fn keeps(&self, dir: &str) -> bool
        ensures { result ≡ is_some (lent_at self.now.kept dir.now) }
    {
        self.kept.has(dir)
    }
}
