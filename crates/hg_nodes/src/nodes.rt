//! All nodes of a table.

ghost use Rattle.std.specs.Prelude.{◌≡◌, ◌&&◌, ◌||◌, ℕ, true, false, List, Some, None, is_some, option_map, OnOk, OnErr};
ghost use Rattle.std.specs.String.{string_bytes};
ghost use Rattle.hg_base.specs.PathText.{is_path};
ghost use Rattle.hg_nodes.specs.Kids.{AreKids, Seeks, is_below_entry};
ghost use Rattle.hg_nodes.specs.Lists.{AreListed, data_of, has_rows_in, rows_of};
ghost use Rattle.hg_nodes.specs.Node.{AreSame, IsPut, node_at};

use crate::kids::Kids;
use crate::lists;
use crate::node::Node;
use hg_base::{OutOfMemory, PathRef};
use std::alloc::Global;
use std::collections::BTreeMap;
use std::marker::Model;

/// The nodes, by their paths.
#[derive(Drop)]
pub struct Nodes {
    // (none before the first node is put)
    lists: Option<BTreeMap<String, BTreeMap<String, Node>>>,
    // (Whether a node with an entry may have children, as one does where a directory took a removed file's place. As long as none may, a file needn't
    // be looked for among the directories.)
    stacked: bool,
}

impl Model for Nodes {
    ghost use Rattle.std.specs.Prelude.{List, ℕ};
    ghost use Rattle.hg_nodes.specs.Node.{NodeData};
    ghost use Rattle.hg_nodes.specs.Lists.{rows_of, AreListed};
    ghost use Rattle.hg_nodes.specs.Made.{entries_of};
    ghost use Rattle.hg_nodes.specs.Kids.{IsMarked};

    ghost Value = { List (List ℕ × NodeData) };

    ghost view = { λ n. rows_of (entries_of n.lists) };

    ghost invariant = { λ n. AreListed (entries_of n.lists) × IsMarked n.stacked (rows_of (entries_of n.lists)) };
}

impl Nodes {
    pub fn get(&self, path: PathRef<'_>) -> Option<&Node>
        ensures { option_map (λ n. data_of n.now) result ≡ node_at self.now path.entry.text.now }
    {
        match &self.lists {
            None => None,
            Some(lists) => lists::look(lists, path),
        }
    }

    /// No nodes.
    pub fn new() -> Nodes
        ensures { (at : List ℕ) → node_at result at ≡ None }
    {
        Nodes {
            lists: None,
            stacked: false,
        }
    }

    /// Puts a node at a path, or leaves all as it was.
    pub fn put(&mut self, alloc: Global, path: PathRef<'_>, node: Node) -> Result<(), OutOfMemory>
        ensures ok { OnOk result (IsPut path.entry.text.now (Some (data_of node)) self.old self.new) }
        ensures err { OnErr result (AreSame self.old self.new) }
    {
        let stacks = self.is_stacking(path, &node);
        let lists = self.lists.get_or_insert(BTreeMap::new(alloc));
        match lists::put(alloc, lists, path, node) {
            Err(fault) => Err(fault),
            Ok(()) => {
                self.stacked |= stacks;
                Ok(())
            }
        }
    }

    // Whether a node would have both an entry and children at the path.
    fn stacks(&self, path: PathRef<'_>, node: &Node) -> bool
        ensures { result ≡ (is_some (data_of node.now).entry && has_rows_in self.now path.entry.text.now) }
    {
        if node.entry.is_none() {
            return false;
        }
        self.has_kids(path.text)
    }

    // Whether the directory of a path has an entry.
    fn is_below_entry(&self, path: PathRef<'_>) -> bool
        ensures { result ≡ is_below_entry self.now path.entry.text.now }
    {
        match path.parent() {
            None => false,
            Some(dir) => match self.get(dir) {
                None => false,
                Some(node) => node.entry.is_some(),
            },
        }
    }

    // Whether with a node at the path some node would have both an entry and children.
    fn is_stacking(&self, path: PathRef<'_>, node: &Node) -> bool
        ensures { result ≡ ((is_some (data_of node.now).entry && has_rows_in self.now path.entry.text.now) || is_below_entry self.now path.entry.text.now) }
    {
        if self.stacks(path, node) {
            return true;
        }
        self.is_below_entry(path)
    }

    /// Whether a node that stands at a path surely has no children.
    pub fn is_childless(&self, path: &str, node: &Node) -> bool
        requires path { is_path path.now ≡ true }
        requires there { node_at self.now path.now ≡ Some (data_of node.now) }
        ensures { result ≡ true → has_rows_in self.now path.now ≡ false }
    {
        if self.stacked {
            return false;
        }
        node.entry.is_some()
    }

    /// Puts another node where one stands, and answers that.
    pub fn replace(&mut self, path: PathRef<'_>, node: Node) -> Option<Node>
        requires { is_some (node_at self.old path.text.now) ≡ true }
        ensures was { option_map data_of result ≡ node_at self.old path.entry.text.now }
        ensures put { IsPut path.entry.text.now (Some (data_of node)) self.old self.new }
    {
        let stacks = self.stacks(path, &node);
        let Some(lists) = &mut self.lists else {
            return None;
        };
        let was = lists::replace(lists, path, node);
        self.stacked |= stacks;
        was
    }

    /// Takes out what stands at a path.
    pub fn remove(&mut self, path: PathRef<'_>)
        ensures { IsPut path.entry.text.now None self.old self.new }
    {
        let Some(lists) = &mut self.lists else {
            return;
        };
        lists::remove(lists, path);
    }

    /// Whether a node stands right in a directory, of which the text is empty for the root.
    pub fn has_kids(&self, dir: &str) -> bool
        ensures { result ≡ has_rows_in self.now dir.now }
    {
        match &self.lists {
            None => false,
            Some(lists) => lists::has_kids(lists, dir),
        }
    }

    /// Whether a node stands right in a directory, and the first directory from it on in which one may stand.
    pub fn seek(&self, dir: &String) -> (bool, Option<&str>)
        ensures { Seeks self.now (string_bytes dir.now) result.0 (option_map (λ d. d.now) result.1) }
    {
        match &self.lists {
            None => (false, None),
            Some(lists) => lists::seek(lists, dir),
        }
    }

    /// The nodes that stand right in a directory, of which the text is empty for the root.
    pub fn kids(&self, dir: &str) -> Kids<'_>
        ensures { AreKids self.now dir.now result }
    {
        match &self.lists {
            None => Kids { rest: None },
            Some(lists) => kids_in(lists, dir),
        }
    }
}

// The nodes in the list of a directory.
fn kids_in<'t>(lists: &'t BTreeMap<String, BTreeMap<String, Node>>, dir: &str) -> Kids<'t>
    requires { AreListed lists.now.entries }
    ensures { AreKids (rows_of lists.entry.now.entries) dir.now result }
{
    match lists.get(dir) {
        None => Kids { rest: None },
        Some(list) => Kids {
            rest: Some(list.iter()),
        },
    }
}
