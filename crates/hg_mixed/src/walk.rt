//! A walk over the children of a directory, which hands each one out with the image's list of its own children, where that is at hand.

ghost use Rattle.std.specs.Prelude.{◌≡◌, IfSome, Some, option_map};
ghost use Rattle.hg_image.specs.Node.{fields_of};
ghost use Rattle.hg_image.specs.View.{dir_of, row, rows_below, rows_in};
ghost use Rattle.hg_mixed.specs.Child.{shown_child};
ghost use Rattle.hg_mixed.specs.ChildOf.{row_child, with_lent};
ghost use Rattle.hg_mixed.specs.Held.{Held};
ghost use Rattle.hg_nodes.specs.Child.{shown_own};
ghost use Rattle.hg_nodes.specs.Kids.{Takes};
ghost use Rattle.hg_mixed.specs.Walk.{Fills, IsLentAt, ListIsOf, ListsAreOf, walked};

use crate::child::Child;
use crate::lent::Lent;
use crate::opening::source_place;
use hg_entry::Fields;
use hg_image::{List, NodeRef};
use hg_node::Rec;
use hg_nodes::{OwnChild, OwnChildren, fields_of_node};

/// What is left of a directory's children.
#[derive(Drop)]
pub struct Walk<'t, 'a> {
    // (those in memory, where the directory's list is there; a node's own children may be the image's)
    pub(crate) kids: Option<OwnChildren<'t>>,
    pub(crate) left: &'t Lent<'a>,
    // (those in a list of the image, from a place on)
    pub(crate) list: Option<List<'t>>,
    pub(crate) at: u32,
}

// Whether a list has something below its directory.
fn fills(list: Option<List<'_>>) -> bool
    ensures { Fills list.entry result }
{
    let Some(list) = list else {
        return false;
    };
    if list.len() == 0 {
        return false;
    }
    let _ = list.get(0);
    true
}

// A child in memory, with a list.
#[inline(always)]
fn with_list<'t>(child: OwnChild<'t>, has_kids: bool, list: Option<List<'t>>) -> Child<'t>
    ensures shown { shown_child result ≡ record (shown_own child.entry) { has_kids = has_kids } }
    ensures path { result.path ≡ child.entry.path }
    ensures list { result.list ≡ list.entry }
{
    Child {
        path: child.path,
        entry: child.entry,
        source: child.source,
        cache: child.cache,
        has_kids,
        text_at: child.text_at,
        source_at: child.source_at,
        list,
        fields: child.fields,
    }
}

// A child in memory, with what the image has below it.
fn with_lent<'t>(child: OwnChild<'t>, left: &'t Lent<'_>) -> Child<'t>
    ensures shown { shown_child result ≡ with_lent left.now (shown_own child.entry) }
    ensures list { IsLentAt left.now result.path.text.now result.list }
{
    if child.has_kids {
        return with_list(child, true, None);
    }
    let list = left.get(child.path.text);
    with_list(child, fills(list), list)
}

// The numbers of a node that an entry or a cached directory is read from.
#[inline(always)]
fn fields(rec: Rec) -> Fields
    ensures { result ≡ fields_of rec }
{
    Fields {
        flags: rec.flags,
        size: rec.size,
        seconds: rec.seconds,
        nanos: rec.nanos,
    }
}

// A child in the image.
#[inline(always)]
fn child_of(node: NodeRef<'_>) -> Child<'_>
    ensures shown { shown_child result ≡ row_child (row node.entry) }
    ensures list { IfSome result.list (λ l. (rows_in l ≡ rows_below node.entry) × (dir_of l ≡ Some (row node.entry).path)) }
{
    let list = node.children();
    let source = node.source();
    let rec = node.rec();
    Child {
        path: node.path(),
        entry: node.entry(),
        source,
        cache: node.cache(),
        has_kids: list.len() != 0,
        text_at: Some(rec.path_start),
        source_at: source_place(source, rec),
        list: Some(list),
        fields: fields_of_node(fields(rec)),
    }
}

impl<'t, 'a> Walk<'t, 'a> {
    /// The next child, if any is left.
    #[inline(always)]
    pub fn next(&mut self) -> Option<Child<'t>>
        ensures takes { Takes (walked self.old) (walked self.new) (option_map shown_child result) }
        // Of a walk over a table, what is left is one too, and the list that the child has at hand is the image's.
        ensures lists { (held : Held) → ListsAreOf held self.old → (ListsAreOf held self.new × IfSome result (ListIsOf held)) }
    {
        if let Some(kids) = &mut self.kids {
            return match kids.next() {
                None => None,
                Some(child) => Some(with_lent(child, self.left)),
            };
        }
        let list = self.list?;
        let at = self.at;
        if at >= list.len() {
            return None;
        }
        self.at = at + 1;
        Some(child_of(list.get(at)))
    }
}
