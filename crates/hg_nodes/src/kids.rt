//! The nodes of one directory, one after the other.

ghost use Rattle.std.specs.Prelude.{◌≡◌, option_map};
ghost use Rattle.std.specs.String.{string_bytes};
ghost use Rattle.hg_nodes.specs.Kids.{Takes};
ghost use Rattle.hg_nodes.specs.Lists.{data_of, rows_left};

use crate::node::Node;
use std::collections::btree_map::Iter;
use std::marker::Model;

/// What is left of a directory's nodes.
#[derive(Drop)]
pub struct Kids<'t> {
    pub(crate) rest: Option<Iter<'t, String, Node>>,
}

impl<'t> Model for Kids<'t> {
    ghost use Rattle.std.specs.Prelude.{List, ℕ};
    ghost use Rattle.hg_nodes.specs.Node.{NodeData};
    ghost use Rattle.hg_nodes.specs.Lists.{rows_left};

    ghost Value = { List (List ℕ × NodeData) };

    ghost view = { λ k. rows_left k.rest };
}

impl<'t> Kids<'t> {
    /// The next one, with its path as it is held.
    pub fn next_held(&mut self) -> Option<(&'t String, &'t Node)>
        ensures { Takes self.old self.new (option_map (λ kid. (string_bytes kid.0.now, data_of kid.1.now)) result) }
    {
        match &mut self.rest {
            None => None,
            Some(rest) => rest.next(),
        }
    }

    pub fn next(&mut self) -> Option<(&'t str, &'t Node)>
        ensures { Takes self.old self.new (option_map (λ kid. (kid.0.now, data_of kid.1.now)) result) }
    {
        match self.next_held() {
            None => None,
            Some((path, node)) => Some((path.as_str(), node)),
        }
    }
}
