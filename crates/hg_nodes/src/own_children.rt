//! The children of a directory that are in memory, one after the other.

ghost use Rattle.std.specs.Prelude.{◌≡◌, true, Some, option_map};
ghost use Rattle.hg_base.specs.PathText.{is_path};
ghost use Rattle.hg_nodes.specs.Child.{shown_own};
ghost use Rattle.hg_nodes.specs.Children.{AreNodesIn};
ghost use Rattle.hg_nodes.specs.Edits.{IsFormed};
ghost use Rattle.hg_nodes.specs.Memory.{table_in};
ghost use Rattle.std.specs.String.{string_bytes};
ghost use Rattle.hg_nodes.specs.Kids.{LooksOn, Takes, beside, is_before};
ghost use Rattle.hg_nodes.specs.Lists.{data_of, or_root};
ghost use Rattle.hg_nodes.specs.Node.{node_at};

use crate::kids::Kids;
use crate::memory::Memory;
use crate::node::Node;
use crate::nodes::Nodes;
use crate::own_child::OwnChild;
use crate::times::Times;
use crate::written::written_for;
use hg_base::{PathRef, is_below};
use std::marker::Model;

/// What is left of a directory's children.
#[derive(Drop)]
pub struct OwnChildren<'t> {
    nodes: &'t Nodes,
    times: &'t Times,
    kids: Kids<'t>,
    // (so that not each child is looked for among the directories: none before this one has nodes, and none at all where it is none)
    next: Option<&'t str>,
}

impl<'t> Model for OwnChildren<'t> {
    ghost use Rattle.std.specs.Prelude.{List};
    ghost use Rattle.hg_nodes.specs.Children.{ChildData};
    ghost use Rattle.std.specs.Option.{option_map};
    ghost use Rattle.hg_nodes.specs.ChildOf.{AreAtPaths, children_of};
    ghost use Rattle.hg_nodes.specs.Kids.{AreLeftBefore};

    ghost Value = { List ChildData };

    ghost view = { λ c. children_of c.nodes.now c.times.now c.kids };

    ghost invariant = { λ c. AreAtPaths c.kids × AreLeftBefore c.nodes.now (option_map (λ n. n.now) c.next) c.kids };
}

// Whether a path stands before the next directory that has nodes.
fn is_before(next: Option<&str>, path: &str) -> bool
    ensures { result ≡ is_before (option_map (λ n. n.now) next.entry) path.now }
{
    match next {
        None => true,
        Some(next) => path.cmp(next).is_lt(),
    }
}

// The next directory that has nodes, none where it stands behind all that stands beside a path.
fn beside<'t>(path: PathRef<'_>, next: Option<&'t str>) -> Option<&'t str>
    ensures { option_map (λ n. n.now) result ≡ beside path.entry.text.now (option_map (λ n. n.now) next.entry) }
{
    let Some(dir) = path.parent() else {
        return next;
    };
    match next {
        None => None,
        Some(found) => if is_below(dir.text, found) {
            next
        } else {
            None
        },
    }
}

// Whether nodes stand in a directory, and the next one that has any; `next` is the one that was known.
fn look<'t>(
    nodes: &'t Nodes,
    next: Option<&'t str>,
    dir: &String,
    node: &Node,
) -> (bool, Option<&'t str>)
    requires path { is_path (string_bytes dir.now) ≡ true }
    requires there { node_at nodes.now (string_bytes dir.now) ≡ Some (data_of node.now) }
    ensures { LooksOn nodes.entry.now (option_map (λ n. n.now) next.entry) (string_bytes dir.now) result.0 (option_map (λ n. n.now) result.1) }
{
    let path = PathRef { text: dir.as_str() };
    if nodes.is_childless(path.text, node) {
        return (false, next);
    }
    if is_before(next, path.text) {
        return (false, next);
    }
    let (has, next) = nodes.seek(dir);
    (has, beside(path, next))
}

impl<'t> OwnChildren<'t> {
    /// The next child, if any is left.
    pub fn next(&mut self) -> Option<OwnChild<'t>>
        ensures { Takes self.old self.new (option_map shown_own result) }
    {
        match self.kids.next_held() {
            None => None,
            Some((held, node)) => {
                let (has_kids, next) = look(self.nodes, self.next, held, node);
                self.next = next;
                let text = held.as_str();
                let cache = self.times.get(text);
                Some(OwnChild {
                    path: PathRef { text },
                    entry: node.entry,
                    source: node.source(),
                    cache,
                    has_kids,
                    text_at: node.text_at,
                    source_at: node.source_at(),
                    fields: written_for(node.entry, cache),
                })
            }
        }
    }
}

/// A directory as a text, empty for the root.
pub fn text_of<'a>(dir: Option<PathRef<'a>>) -> &'a str
    ensures { result.now ≡ or_root (option_map (λ d. d.text.now) dir.entry) }
{
    match dir {
        None => "",
        Some(dir) => dir.text,
    }
}

impl Memory {
    /// The nodes right in a directory, ascending by name, where no directory is the root.
    pub fn children(&self, dir: Option<PathRef<'_>>) -> OwnChildren<'_>
        ensures nodes { AreNodesIn (table_in self.now) self.now.rows (option_map (λ d. d.text.now) dir.entry) result }
        ensures formed { IsFormed (table_in self.now) }
    {
        OwnChildren {
            nodes: &self.nodes,
            times: &self.times,
            kids: self.nodes.kids(text_of(dir)),
            next: Some(""),
        }
    }
}
