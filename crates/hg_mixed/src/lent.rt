//! The lists of nodes that are the image's still.

ghost use Rattle.std.specs.Prelude.{◌≡◌, ◌==◌, [], length, false, true, Some, None, is_some, option_map, IfSome, MatchBool, OnOk, OnErr};
ghost use Rattle.hg_image.specs.View.{dir_of, rows_in};
ghost use Rattle.hg_mixed.specs.Lent.{AreEnded, AreEndedOver, AreLentStill, CoversNone, IsLentPut, IsNoneLent, IsOver, IsPlace, covers, lent_at};
ghost use Rattle.hg_nodes.specs.Lists.{or_root};

use hg_base::{OutOfMemory, PathRef};
use hg_image::{List, NodeRef, node_in};
use hg_nodes::Memory;
use std::alloc::Global;
use std::collections::BTreeMap;
use std::marker::Model;

/// Where a path is to be looked for.
#[derive(Clone, Copy, Debug)]
pub enum Place<'a> {
    /// Among the nodes in memory.
    Memory,
    /// In the image, with the node that stands there.
    Image(Option<NodeRef<'a>>),
}

/// The lists of nodes that are the image's still, each by its directory, of which the text is empty for the root. With a list goes all
/// that stands below its directory.
#[derive(Drop)]
pub struct Lent<'a> {
    // (that of the root by itself, so that none but an edit takes memory)
    root: Option<List<'a>>,
    lists: Option<BTreeMap<String, List<'a>>>,
}

impl<'a> Model for Lent<'a> {
    ghost use Rattle.std.specs.Prelude.{List, ℕ};
    ghost use Rattle.hg_image.specs.Rows.{Row};
    ghost use Rattle.hg_mixed.specs.Lent.{AreByDir, IsOfRoot, lists_of, with_root};
    ghost use Rattle.hg_nodes.specs.Made.{entries_of};

    ghost Value = { List (List ℕ × List Row) };

    ghost view = { λ l. with_root l.root (lists_of (entries_of l.lists)) };

    ghost invariant = { λ l. IsOfRoot l.root × AreByDir (entries_of l.lists) };
}

impl<'a> Lent<'a> {
    /// No list is lent.
    pub fn new() -> Lent<'a>
        ensures none { IsNoneLent result }
        ensures bare { CoversNone result }
    {
        Lent {
            root: None,
            lists: None,
        }
    }

    /// The list of the root is lent, and no other.
    pub fn of_root(list: List<'a>) -> Lent<'a>
        requires { dir_of list ≡ None }
        ensures { IsLentPut [] (Some (rows_in list.entry)) [] result }
    {
        Lent {
            root: Some(list),
            lists: None,
        }
    }

    // Lends the list of a directory that isn't the root.
    fn put_below(&mut self, alloc: Global, dir: &str, list: List<'a>) -> Result<(), OutOfMemory>
        requires dir { or_root (dir_of list) ≡ dir.now }
        requires below { (length dir.now == 0) ≡ false }
        ensures ok { OnOk result (IsLentPut dir.now (Some (rows_in list.entry)) self.old self.new) }
        ensures err { OnErr result (AreLentStill self.old self.new) }
    {
        let key = String::from_str(alloc, dir)?;
        let lists = self.lists.get_or_insert(BTreeMap::new(alloc));
        lists.insert(key, list)?;
        Ok(())
    }

    /// Lends the list of a directory, or leaves all as it was.
    pub fn put(&mut self, alloc: Global, dir: &str, list: List<'a>) -> Result<(), OutOfMemory>
        requires { or_root (dir_of list) ≡ dir.now }
        ensures ok { OnOk result (IsLentPut dir.now (Some (rows_in list.entry)) self.old self.new) }
        ensures err { OnErr result (AreLentStill self.old self.new) }
    {
        if dir.is_empty() {
            self.root = Some(list);
            return Ok(());
        }
        self.put_below(alloc, dir, list)
    }

    /// The list of a directory isn't lent any more.
    pub fn remove(&mut self, dir: &str)
        ensures { IsLentPut dir.now None self.old self.new }
    {
        if dir.is_empty() {
            self.root = None;
            return;
        }
        let Some(lists) = &mut self.lists else {
            return;
        };
        let _ = lists.remove(dir);
    }

    /// No list is lent any more.
    pub fn clear(&mut self)
        ensures none { IsNoneLent self.new }
        ensures bare { CoversNone self.new }
    {
        self.root = None;
        self.lists = None;
    }

    /// The list of a directory, where it is lent.
    pub fn get(&self, dir: &str) -> Option<List<'a>>
        ensures rows { option_map rows_in result ≡ lent_at self.now dir.now }
        ensures dir { IfSome result (λ list. or_root (dir_of list) ≡ dir.now) }
    {
        if dir.is_empty() {
            return self.root;
        }
        match &self.lists {
            None => None,
            Some(lists) => lists.get(dir).copied(),
        }
    }

    /// Whether the list of a directory is lent.
    pub fn has(&self, dir: &str) -> bool
        ensures { result ≡ is_some (lent_at self.now dir.now) }
    {
        self.get(dir).is_some()
    }

    /// Whether no list is lent.
    pub fn is_empty(&self) -> bool
        ensures { result ≡ true → CoversNone self.now }
    {
        if self.root.is_some() {
            return false;
        }
        match &self.lists {
            None => true,
            Some(lists) => lists.len() == 0,
        }
    }

    // The list of the nearest directory above a path that has one.
    fn over(&self, path: PathRef<'_>) -> Option<List<'a>>
        ensures { IsOver self.now path.entry.text.now result }
    {
        let Some(dir) = path.parent() else {
            return self.get("");
        };
        match self.get(dir.text) {
            Some(list) => Some(list),
            None => self.over(dir),
        }
    }

    /// Whether what stands at a path is in a list that is lent.
    pub fn covers(&self, path: PathRef<'_>) -> bool
        ensures { result ≡ covers self.now path.entry.text.now }
    {
        self.over(path).is_some()
    }

    /// No list of a directory above a path is lent any more.
    pub fn end_above(&mut self, path: PathRef<'_>)
        ensures { AreEnded path.entry.text.now self.old self.new }
    {
        match path.parent() {
            None => self.remove(""),
            Some(dir) => {
                self.remove(dir.text);
                self.end_above(dir);
            }
        }
    }

    /// The same where something differs at the path.
    pub fn end_where(&mut self, differs: bool, path: PathRef<'_>)
        ensures { MatchBool differs (AreEnded path.entry.text.now self.old self.new) (AreLentStill self.old self.new) }
    {
        if differs {
            self.end_above(path);
        }
    }

    /// Where a path is to be looked for, and in the image the node that stands there.
    pub fn find(&self, path: PathRef<'_>) -> Place<'a>
        ensures { IsPlace self.now path.entry.text.now result }
    {
        match self.over(path) {
            None => Place::Memory,
            Some(list) => Place::Image(node_in(list, path)),
        }
    }
}

/// No list of a directory above a cached one is lent any more.
pub fn end_over(memory: &Memory, lent: &mut Lent<'_>)
    ensures { AreEndedOver memory.entry.now.times lent.old lent.new }
{
    let mut cached = memory.cached();
    while let Some((dir, _)) = cached.next() {
        lent.end_above(PathRef { text: dir });
    }
}
