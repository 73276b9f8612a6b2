//! Nodes are added that are recorded elsewhere.

ghost use Rattle.std.specs.Prelude.{◌≡◌, true, None, Some, IfOk, OnOk, OnErr, is_some, option_map};
ghost use Rattle.std.specs.Option.{option_and_then};
ghost use Rattle.hg_base.specs.PathText.{parent_of};
ghost use Rattle.hg_entry.specs.Entry.{cache_view};
ghost use Rattle.hg_nodes.specs.Adding.{Adds, AreOthersKept, IsElsewhere, recorded_node};
ghost use Rattle.hg_nodes.specs.Drop.{bare};
ghost use Rattle.hg_nodes.specs.Edits.{IsFormed};
ghost use Rattle.hg_nodes.specs.Node.{IsThere};

use crate::memory::Memory;
use crate::node::{Node, Source};
use crate::nodes::Nodes;
use crate::same::boxed;
use crate::times::Times;
use hg_base::{OutOfMemory, PathRef, Stamp};
use hg_entry::Entry;
use std::alloc::Global;

/// What is recorded of a node. Places are byte places in the file that records it.
#[derive(Clone, Copy, Debug)]
pub struct Recorded<'t> {
    pub path: PathRef<'t>,
    pub entry: Option<Entry>,
    /// The copy source, where there is an entry and it has one.
    pub source: Option<PathRef<'t>>,
    /// When all children of the directory were seen, where it is cached.
    pub cache: Option<Stamp>,
    /// Where the text of the path lies.
    pub text_at: u32,
    /// Where the text of the copy source lies, where there is one.
    pub source_at: u32,
}

// A copy of a copy source, where there is one, with the place of its text.
fn lent_source(
    alloc: Global,
    source: Option<PathRef<'_>>,
    at: u32,
) -> Result<Option<Box<Source>>, OutOfMemory>
    ensures path { IfOk result (λ copy. option_map (λ s. s.value.path) copy ≡ option_map (λ s. s.text.now) source.entry) }
    ensures place { IfOk
        result
        (λ copy. option_and_then (λ s. s.value.at) copy ≡ option_map (λ source. at) source.entry) }
{
    match source {
        None => Ok(None),
        Some(path) => Ok(Some(boxed(alloc, path, Some(at))?)),
    }
}

// Adds one node. Where memory is wanting, its path alone may have another node or time, and all is formed.
fn add_to(
    alloc: Global,
    nodes: &mut Nodes,
    times: &mut Times,
    own: Recorded<'_>,
) -> Result<(), OutOfMemory>
    requires formed { IsFormed (bare nodes.old times.old) }
    requires dir { IsThere nodes.old (parent_of own.path.text.now) }
    requires sourced { own.entry ≡ None → own.source ≡ None }
    requires apart { is_some own.cache ≡ true → own.entry ≡ None }
    ensures ok { OnOk
        result
        (Adds own.entry.path.text.now (recorded_node own.entry) (option_map cache_view own.entry.cache) nodes.old times.old nodes.new times.new) }
    ensures err { OnErr result (IsElsewhere own.entry.path.text.now nodes.old times.old nodes.new times.new) }
{
    let path = own.path;
    let node = Node {
        entry: own.entry,
        source: lent_source(alloc, own.source, own.source_at)?,
        text_at: Some(own.text_at),
    };
    match own.cache {
        None => {
            times.remove(path.text);
            nodes.put(alloc, path, node)
        }
        Some(time) => {
            nodes.put(alloc, path, node)?;
            times.put(alloc, path.text, time)
        }
    }
}

impl Memory {
    /// Adds a node, in a directory that is there, with its time. Where memory is wanting, its path alone may have another node or time.
    pub fn add(&mut self, alloc: Global, own: Recorded<'_>) -> Result<(), OutOfMemory>
        requires dir { IsThere self.old.rows (parent_of own.path.text.now) }
        requires sourced { own.entry ≡ None → own.source ≡ None }
        requires apart { is_some own.cache ≡ true → own.entry ≡ None }
        ensures ok { OnOk
            result
            (Adds own.entry.path.text.now (recorded_node own.entry) (option_map cache_view own.entry.cache) self.old.rows self.old.times self.new.rows self.new.times) }
        ensures err { OnErr result (IsElsewhere own.entry.path.text.now self.old.rows self.old.times self.new.rows self.new.times) }
        ensures others { AreOthersKept self.old self.new }
    {
        add_to(alloc, &mut self.nodes, &mut self.times, own)
    }
}
