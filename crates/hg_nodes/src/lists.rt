//! Lists of nodes, one for each directory that has any.

ghost use Rattle.std.specs.Prelude.{◌≡◌, ◌&&◌, not, ◌==◌, length, Some, None, OnOk, OnErr, IsSome, option_map};
ghost use Rattle.std.specs.Str.{bytes_eq};
ghost use Rattle.std.specs.BTreeMap.{get_by_text};
ghost use Rattle.std.specs.String.{string_bytes};
ghost use Rattle.hg_nodes.specs.Kids.{Seeks};
ghost use Rattle.hg_nodes.specs.Lists.{AreChanged, AreKept, AreListed, IsChanged, dir_text, has_rows_in, look, rows_of};

use crate::node::Node;
use hg_base::{OutOfMemory, PathRef};
use std::alloc::Global;
use std::collections::BTreeMap;
use std::ops::Bound;

/// The text of the directory in which a path stands, empty for the root.
pub fn dir_text(path: PathRef<'_>) -> &str
    ensures { result.now ≡ dir_text path.entry.text.now }
{
    match path.parent() {
        None => "",
        Some(dir) => dir.text,
    }
}

/// The node at the path.
pub fn look<'t>(
    lists: &'t BTreeMap<String, BTreeMap<String, Node>>,
    path: PathRef<'_>,
) -> Option<&'t Node>
    ensures { option_map (λ n. n.now) result ≡ look lists.entry.now path.entry.text.now }
{
    match lists.get(dir_text(path)) {
        None => None,
        Some(list) => list.get(path.text),
    }
}

// Puts a node into the list of its directory.
fn put_in(list: &mut BTreeMap<String, Node>, path: String, node: Node) -> Result<(), OutOfMemory>
    ensures ok { OnOk result (IsChanged (string_bytes path) (Some node) list.old list.new) }
    ensures err { OnErr result (list.new.entries ≡ list.old.entries) }
{
    list.insert(path, node)?;
    Ok(())
}

// Puts another node where one stands, and answers that.
fn replace_in(list: &mut BTreeMap<String, Node>, path: &str, node: Node) -> Option<Node>
    requires { IsSome (get_by_text list.old path.now) }
    ensures was { result ≡ get_by_text list.old path.now }
    ensures changed { IsChanged path.now (Some node) list.old list.new }
{
    match list.get_mut(path) {
        None => None,
        Some(slot) => Some(std::mem::replace(slot, node)),
    }
}

fn remove_in(list: &mut BTreeMap<String, Node>, path: &str)
    ensures { IsChanged path.now None list.old list.new }
{
    let _ = list.remove(path);
}

// Puts a node where its directory has no list.
fn put_list(
    alloc: Global,
    lists: &mut BTreeMap<String, BTreeMap<String, Node>>,
    dir: &str,
    path: String,
    node: Node,
) -> Result<(), OutOfMemory>
    requires listed { AreListed lists.old.entries }
    requires absent { get_by_text lists.old dir.now ≡ None }
    requires placed { dir_text (string_bytes path) ≡ dir.now }
    ensures ok { OnOk result (AreChanged (string_bytes path) (Some node) lists.old lists.new) }
    ensures err { OnErr result (AreKept lists.old lists.new) }
{
    let dir = String::from_str(alloc, dir)?;
    let mut list = BTreeMap::new(alloc);
    put_in(&mut list, path, node)?;
    lists.insert(dir, list)?;
    Ok(())
}

/// Puts a node at a path, or leaves all as it was.
pub fn put(
    alloc: Global,
    lists: &mut BTreeMap<String, BTreeMap<String, Node>>,
    path: PathRef<'_>,
    node: Node,
) -> Result<(), OutOfMemory>
    requires { AreListed lists.old.entries }
    ensures ok { OnOk result (AreChanged path.entry.text.now (Some node) lists.old lists.new) }
    ensures err { OnErr result (AreKept lists.old lists.new) }
{
    let key = String::from_str(alloc, path.text)?;
    let dir = dir_text(path);
    match lists.get_mut(dir) {
        Some(list) => put_in(list, key, node),
        None => put_list(alloc, lists, dir, key, node),
    }
}

/// Puts another node where one stands, and answers that.
pub fn replace(
    lists: &mut BTreeMap<String, BTreeMap<String, Node>>,
    path: PathRef<'_>,
    node: Node,
) -> Option<Node>
    requires listed { AreListed lists.old.entries }
    requires there { IsSome (look lists.old path.text.now) }
    ensures was { result ≡ look lists.old path.entry.text.now }
    ensures changed { AreChanged path.entry.text.now (Some node) lists.old lists.new }
{
    match lists.get_mut(dir_text(path)) {
        None => None,
        Some(list) => replace_in(list, path.text, node),
    }
}

// Takes a node out of the list of its directory.
fn take(lists: &mut BTreeMap<String, BTreeMap<String, Node>>, path: PathRef<'_>)
    requires { AreListed lists.old.entries }
    ensures { AreChanged path.entry.text.now None lists.old lists.new }
{
    match lists.get_mut(dir_text(path)) {
        None => {}
        Some(list) => remove_in(list, path.text),
    }
}

/// Whether a directory has a list with a node in it.
pub fn has_kids(lists: &BTreeMap<String, BTreeMap<String, Node>>, dir: &str) -> bool
    requires { AreListed lists.now.entries }
    ensures { result ≡ has_rows_in (rows_of lists.now.entries) dir.now }
{
    match lists.get(dir) {
        None => false,
        Some(list) => list.len() != 0,
    }
}

/// Whether a directory has a list with a node in it, and the first directory from it on that has a list, in one search.
pub fn seek<'t>(
    lists: &'t BTreeMap<String, BTreeMap<String, Node>>,
    dir: &String,
) -> (bool, Option<&'t str>)
    requires { AreListed lists.now.entries }
    ensures { Seeks (rows_of lists.now.entries) (string_bytes dir.now) result.0 (option_map (λ d. d.now) result.1) }
{
    match lists.range((Bound::Included(dir), Bound::Unbounded)).next() {
        None => (false, None),
        Some((first, list)) => {
            let (first, dir) = (first.as_str(), dir.as_str());
            (is_list_of(first, dir, list), Some(first))
        }
    }
}

// Whether a list is that of a directory, and a node is in it.
fn is_list_of(found: &str, dir: &str, list: &BTreeMap<String, Node>) -> bool
    ensures { result ≡ (bytes_eq found.now dir.now && not (length list.now.entries == 0)) }
{
    if found != dir {
        return false;
    }
    list.len() != 0
}

// Takes out the list of a directory, where no node is in it.
fn drop_empty(lists: &mut BTreeMap<String, BTreeMap<String, Node>>, dir: &str)
    requires { AreListed lists.old.entries }
    ensures { AreKept lists.old lists.new }
{
    if !has_kids(lists, dir) {
        let _ = lists.remove(dir);
        return;
    }
}

/// Takes out what stands at a path.
pub fn remove(lists: &mut BTreeMap<String, BTreeMap<String, Node>>, path: PathRef<'_>)
    requires { AreListed lists.old.entries }
    ensures { AreChanged path.entry.text.now None lists.old lists.new }
{
    take(lists, path);
    drop_empty(lists, dir_text(path));
}
