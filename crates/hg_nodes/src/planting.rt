//! Nodes that are put, with the directories above them.

ghost use Rattle.std.specs.Prelude.{◌≡◌, ℕ, true, List, Some, None, is_some, option_map, OnOk, OnErr, MatchBool};
ghost use Rattle.std.specs.Option.{option_and_then};
ghost use Rattle.hg_base.specs.PathText.{parent_of};
ghost use Rattle.hg_entry.specs.Entry.{view};
ghost use Rattle.hg_nodes.specs.Lists.{data_of};
ghost use Rattle.hg_nodes.specs.Node.{AreRootedAbove, AreSame, IsMissing, IsPut, blank, cleared, entry_in, node_at, planted, text_in, with_entry, with_source};

use crate::node::{Node, Source};
use crate::nodes::Nodes;
use hg_base::{OutOfMemory, PathRef};
use hg_entry::Entry;
use std::alloc::Global;

/// Whether a node stands at the path.
pub fn has(nodes: &Nodes, path: PathRef<'_>) -> bool
    ensures { result ≡ is_some (node_at nodes.now path.entry.text.now) }
{
    nodes.get(path).is_some()
}

/// The entry at a path.
pub fn entry_at(nodes: &Nodes, path: PathRef<'_>) -> Option<Entry>
    ensures { option_map view result ≡ entry_in (node_at nodes.now path.entry.text.now) }
{
    nodes.get(path)?.entry
}

// A node without entry, of which no text is lent.
fn blank() -> Node
    ensures { data_of result ≡ blank }
{
    Node {
        entry: None,
        source: None,
        text_at: None,
    }
}

// A node that was taken out, with an entry.
fn with_entry(node: Option<Node>, entry: Entry) -> Node
    ensures { data_of result ≡ with_entry (view entry) (option_map data_of node) }
{
    match node {
        None => Node {
            entry: Some(entry),
            source: None,
            text_at: None,
        },
        Some(node) => Node {
            entry: Some(entry),
            source: node.source,
            text_at: node.text_at,
        },
    }
}

// The place of the text of a path's node.
fn text_at(nodes: &Nodes, path: PathRef<'_>) -> Option<u32>
    ensures { result ≡ text_in (node_at nodes.now path.entry.text.now) }
{
    nodes.get(path)?.text_at
}

/// Writes the entry of a node.
pub fn write_entry(nodes: &mut Nodes, path: PathRef<'_>, entry: Entry)
    requires { is_some (node_at nodes.old path.text.now) ≡ true }
    ensures { IsPut path.entry.text.now (Some (with_entry (view entry) (node_at nodes.old path.entry.text.now))) nodes.old nodes.new }
{
    let node = with_entry(nodes.replace(path, blank()), entry);
    let _ = nodes.replace(path, node);
}

/// Drops the entry of a node, with its copy source.
pub fn clear(nodes: &mut Nodes, path: PathRef<'_>)
    requires { is_some (node_at nodes.old path.text.now) ≡ true }
    ensures { IsPut path.entry.text.now (Some (cleared (node_at nodes.old path.entry.text.now))) nodes.old nodes.new }
{
    let node = Node {
        entry: None,
        source: None,
        text_at: text_at(nodes, path),
    };
    let _ = nodes.replace(path, node);
}

/// Writes another copy source of a node, of which the text isn't lent.
pub fn write_source(nodes: &mut Nodes, path: PathRef<'_>, source: Option<Box<Source>>)
    requires there { is_some (node_at nodes.old path.text.now) ≡ true }
    requires unlent { option_and_then (λ s. s.value.at) source ≡ None }
    ensures { IsPut
        path.entry.text.now
        (Some (with_source (option_map (λ s. s.value.path) source) (node_at nodes.old path.entry.text.now)))
        nodes.old
        nodes.new }
{
    let entry = entry_at(nodes, path);
    let node = Node {
        entry,
        source,
        text_at: text_at(nodes, path),
    };
    let _ = nodes.replace(path, node);
}

// The directory of the path, where nothing stands there.
fn missing_parent<'a>(nodes: &Nodes, path: PathRef<'a>) -> Option<PathRef<'a>>
    requires { AreRootedAbove path.text.now (node_at nodes.now) }
    ensures { IsMissing path.entry.text.now (node_at nodes.now) (option_map (λ d. d.text.now) result) }
{
    match path.parent() {
        Some(dir) => if has(nodes, dir) { None } else { Some(dir) },
        None => None,
    }
}

/// Puts a node where none stands, and nodes at those directories above where there is none, or leaves all as it was.
pub fn plant(
    alloc: Global,
    nodes: &mut Nodes,
    path: PathRef<'_>,
    node: Node,
) -> Result<(), OutOfMemory>
    requires rooted { AreRootedAbove path.text.now (node_at nodes.old) }
    requires absent { node_at nodes.old path.text.now ≡ None }
    ensures ok { OnOk
        result
        ((at : List ℕ) → node_at nodes.new at ≡ planted path.entry.text.now (data_of node) (node_at nodes.old) at) }
    ensures err { OnErr result (AreSame nodes.old nodes.new) }
{
    let missing = missing_parent(nodes, path);
    nodes.put(alloc, path, node)?;
    let Some(dir) = missing else {
        return Ok(());
    };
    match plant(alloc, nodes, dir, blank()) {
        Ok(()) => Ok(()),
        Err(fault) => {
            nodes.remove(path);
            Err(fault)
        }
    }
}
