//! The entry of a path is set.

ghost use Rattle.std.specs.Prelude.{◌≡◌, ℕ, true, List, Some, None, OnOk, OnErr, IfOk, IsTrue, MatchBool, is_some, option_map};
ghost use Rattle.hg_entry.specs.Entry.{view};
ghost use Rattle.hg_nodes.specs.Lists.{data_of};
ghost use Rattle.hg_nodes.specs.Memory.{IsSourceWritten};
ghost use Rattle.hg_nodes.specs.Node.{AreRooted, AreSame, entry_in, node_at, planted, source_in, with_entry};

use crate::node::Node;
use crate::nodes::Nodes;
use crate::planting::{plant, write_entry, write_source};
use crate::same::{copy_of, has_source, same_entry};
use hg_base::{OutOfMemory, PathRef};
use hg_entry::Entry;
use std::alloc::Global;

// Whether a node has this entry.
fn says(node: &Node, entry: &Entry) -> bool
    ensures { MatchBool result ((data_of node.now).entry ≡ Some (view entry.now)) ((data_of node.now).entry ≡ Some (view entry.now) → ⊥) }
{
    match &node.entry {
        None => false,
        Some(was) => same_entry(was, entry),
    }
}

/// Sets the entry of a path, with nodes at the directories above it, or leaves all as it was; answers whether it was another.
pub fn put_entry(
    alloc: Global,
    nodes: &mut Nodes,
    path: PathRef<'_>,
    entry: Entry,
) -> Result<bool, OutOfMemory>
    requires { AreRooted (node_at nodes.old) }
    ensures ok { OnOk
        result
        ((at : List ℕ)
        → node_at nodes.new at ≡ planted path.entry.text.now (with_entry (view entry) (node_at nodes.old path.entry.text.now)) (node_at nodes.old) at) }
    ensures differs { IfOk
        result
        (λ differs. MatchBool
        differs
        (entry_in (node_at nodes.old path.entry.text.now) ≡ Some (view entry) → ⊥)
        (entry_in (node_at nodes.old path.entry.text.now) ≡ Some (view entry))) }
    ensures err { OnErr result (AreSame nodes.old nodes.new) }
{
    match nodes.get(path) {
        None => put_new(alloc, nodes, path, entry),
        Some(node) => {
            if says(node, &entry) {
                return Ok(false);
            }
            write_entry(nodes, path, entry);
            Ok(true)
        }
    }
}

// The same where nothing stands.
fn put_new(
    alloc: Global,
    nodes: &mut Nodes,
    path: PathRef<'_>,
    entry: Entry,
) -> Result<bool, OutOfMemory>
    requires rooted { AreRooted (node_at nodes.old) }
    requires absent { node_at nodes.old path.text.now ≡ None }
    ensures ok { OnOk
        result
        ((at : List ℕ)
        → node_at nodes.new at ≡ planted path.entry.text.now (with_entry (view entry) None) (node_at nodes.old) at) }
    ensures differs { IfOk result (λ differs. IsTrue differs) }
    ensures err { OnErr result (AreSame nodes.old nodes.new) }
{
    let node = Node {
        entry: Some(entry),
        source: None,
        text_at: None,
    };
    match plant(alloc, nodes, path, node) {
        Ok(()) => Ok(true),
        Err(fault) => Err(fault),
    }
}

/// Writes the copy source of a path, where it is another, or leaves all as it was; answers whether it was another.
pub fn put_source(
    alloc: Global,
    nodes: &mut Nodes,
    path: PathRef<'_>,
    source: Option<PathRef<'_>>,
) -> Result<bool, OutOfMemory>
    requires { is_some (node_at nodes.old path.text.now) ≡ true }
    ensures ok { OnOk result (IsSourceWritten path.entry.text.now (option_map (λ s. s.text.now) source.entry) nodes.old nodes.new) }
    ensures differs { IfOk
        result
        (λ differs. MatchBool
        differs
        (source_in (node_at nodes.old path.entry.text.now) ≡ option_map (λ s. s.text.now) source.entry → ⊥)
        (source_in (node_at nodes.old path.entry.text.now) ≡ option_map (λ s. s.text.now) source.entry)) }
    ensures err { OnErr result (AreSame nodes.old nodes.new) }
{
    if has_source(nodes, path, source) {
        return Ok(false);
    }
    match copy_of(alloc, source) {
        Err(fault) => Err(fault),
        Ok(source) => {
            write_source(nodes, path, source);
            Ok(true)
        }
    }
}
