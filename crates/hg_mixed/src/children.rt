//! The children of a directory, one after the other.

ghost use Rattle.std.specs.Prelude.{◌≡◌, None, Some, option_map};
ghost use Rattle.hg_mixed.specs.Child.{shown_child};
ghost use Rattle.hg_mixed.specs.Children.{AreChildren};
ghost use Rattle.hg_mixed.specs.Lent.{lent_at};
ghost use Rattle.hg_mixed.specs.Parted.{IsLentIn, IsOwn, image_of};
ghost use Rattle.hg_nodes.specs.Kids.{Takes};
ghost use Rattle.hg_mixed.specs.Walk.{IsBelow, ListsAreOf, walked};

use crate::below::Below;
use crate::child::Child;
use crate::lent::Place;
use crate::mixed::Mixed;
use crate::walk::Walk;
use hg_base::PathRef;
use hg_image::List;
use hg_nodes::text_of;
use std::marker::Model;

/// What is left of a directory's children.
#[derive(Drop)]
pub struct Children<'t, 'a> {
    walk: Walk<'t, 'a>,
}

impl<'t, 'a> Model for Children<'t, 'a> {
    ghost use Rattle.std.specs.Prelude.{List};
    ghost use Rattle.hg_nodes.specs.Children.{ChildData};
    ghost use Rattle.hg_mixed.specs.Walk.{walked};

    ghost Value = { List ChildData };

    ghost view = { λ c. walked c.walk };
}

impl<'t, 'a> Children<'t, 'a> {
    /// The next child, if any is left.
    pub fn next(&mut self) -> Option<Child<'t>>
        ensures { Takes self.old self.new (option_map shown_child result) }
    {
        self.walk.next()
    }
}

impl<'a> Mixed<'a> {
    // All children of a directory whose list is in memory.
    fn own_walk(&self, dir: Option<PathRef<'_>>) -> Walk<'_, 'a>
        requires { IsOwn self.now.left (option_map (λ d. d.text.now) dir) }
        ensures children { AreChildren self.now (option_map (λ d. d.text.now) dir.entry) (walked result) }
        ensures lists { ListsAreOf self.now result }
    {
        Walk {
            kids: Some(self.memory.children(dir)),
            left: &self.left,
            list: None,
            at: 0,
        }
    }

    // All children of a directory, of which the image has the list, none where it has no node.
    fn lent_walk<'t>(&'t self, dir: Option<PathRef<'_>>, list: Option<List<'t>>) -> Walk<'t, 'a>
        requires { IsLentIn self.now.left (image_of self.now) (option_map (λ d. d.text.now) dir) list }
        ensures children { AreChildren self.now (option_map (λ d. d.text.now) dir.entry) (walked result) }
        ensures lists { ListsAreOf self.now result }
    {
        Walk {
            kids: None,
            left: &self.left,
            list,
            at: 0,
        }
    }

    // All children of a directory whose list isn't lent itself.
    fn walk_below(&self, dir: PathRef<'_>) -> Walk<'_, 'a>
        requires { lent_at self.now.left dir.text.now ≡ None }
        ensures children { AreChildren self.now (Some dir.entry.text.now) (walked result) }
        ensures lists { ListsAreOf self.now result }
    {
        match self.left.find(dir) {
            Place::Memory => self.own_walk(Some(dir)),
            Place::Image(None) => self.lent_walk(Some(dir), None),
            Place::Image(Some(node)) => self.lent_walk(Some(dir), Some(node.children())),
        }
    }

    /// A walk over the nodes right in a directory, ascending by name, where no directory is the root.
    pub fn walk(&self, dir: Option<PathRef<'_>>) -> Walk<'_, 'a>
        ensures children { AreChildren self.now (option_map (λ d. d.text.now) dir.entry) (walked result) }
        ensures lists { ListsAreOf self.now result }
    {
        if let Some(list) = self.left.get(text_of(dir)) {
            return self.lent_walk(dir, Some(list));
        }
        match dir {
            None => self.own_walk(None),
            Some(dir) => self.walk_below(dir),
        }
    }

    /// A walk over the nodes right in a child that a walk over this table has handed out. Where their list is known, nothing is looked for.
    pub fn walk_in<'t>(&'t self, below: Below<'t>) -> Walk<'t, 'a>
        requires { IsBelow self.now below }
        ensures children { AreChildren self.now (Some below.entry.path.text.now) (walked result) }
        ensures lists { ListsAreOf self.now result }
    {
        match below.list {
            None => self.walk(Some(below.path)),
            Some(list) => self.lent_walk(Some(below.path), Some(list)),
        }
    }

    /// The nodes right in a directory, ascending by name, where no directory is the root.
    pub fn children(&self, dir: Option<PathRef<'_>>) -> Children<'_, 'a>
        ensures { AreChildren self.now (option_map (λ d. d.text.now) dir.entry) result }
    {
        Children {
            walk: self.walk(dir),
        }
    }
}
