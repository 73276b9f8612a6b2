//! Whether what was laid out agrees with the entries: each node of the image is looked at, and each entry is looked up.

ghost use Rattle.std.specs.Prelude.{◌≡◌, ◌≤◌, if◌then◌else◌, true, None, option_map, map};
ghost use Rattle.std.specs.BTreeSet.{contains_text};
ghost use Rattle.std.specs.List.{AllByRecursion, list_all};
ghost use Rattle.hg_docket.specs.Docket as dockets;
ghost use Rattle.hg_image.specs.View.{row, rows, rows_in};
ghost use Rattle.hg_vone.specs.Agreeing.{AreThePaths, HasNode, Tells, flags_of};
ghost use Rattle.hg_vone.specs.Agreeing as agreeing;
ghost use Rattle.hg_vone.specs.View as view;
ghost use Rattle.hg_vone.specs.View.{item};

use crate::item::{Item, Known};
use hg_base::PathRef;
use hg_entry::bits::has_entry;
use hg_image::{Image, List, NodeRef, node_in};
use std::collections::BTreeSet;

// What a flag adds, where it is set.
fn flag(set: bool, value: u16) -> u16
    requires { value ≤ 4 }
    ensures { result ≡ (if set then value else 0) }
{
    if set { value } else { 0 }
}

/// The flags of an entry.
pub(crate) fn flags(marks: Known) -> u16
    ensures { result ≡ flags_of (view.marks marks) }
{
    flag(marks.w, 1) + flag(marks.p1, 2) + flag(marks.p2, 4)
}

// Whether a node with an entry is at one of the paths, and one without has no flags, and entries below it.
fn is_right(node: NodeRef<'_>, paths: &BTreeSet<String>) -> bool
    ensures { result ≡ agreeing.is_right (contains_text paths.now) (row node.entry) }
{
    let rec = node.rec();
    if has_entry(rec.flags) {
        return paths.contains(node.path().text);
    }
    (rec.flags == 0) & (rec.entries_below != 0)
}

// Whether each node of a list is right, and each below it.
fn are_right(list: List<'_>, paths: &BTreeSet<String>) -> bool
    ensures { result ≡ true → list_all (agreeing.is_right (contains_text paths.now)) (rows_in list.entry) ≡ true }
{
    for i in 0..list.len() {
        let node = list.get(i);
        if !is_right(node, paths) {
            return false;
        }
        if !are_right(node.children(), paths) {
            return false;
        }
    }
    true
}

// Whether two copy sources are one.
fn is_same(a: Option<PathRef<'_>>, b: Option<PathRef<'_>>) -> bool
    ensures { result ≡ true → option_map (λ p. p.text.now) a.entry ≡ option_map (λ p. p.text.now) b.entry }
{
    match a {
        None => b.is_none(),
        Some(a) => match b {
            None => false,
            Some(b) => a.text == b.text,
        },
    }
}

// Whether an entry has a node that says it.
fn has_node(root: List<'_>, one: &Item<'_>) -> bool
    requires { root.dir ≡ None }
    ensures { result ≡ true → HasNode (rows_in root.entry) (item one.now) }
{
    let Some(node) = node_in(root, one.path) else {
        return false;
    };
    let rec = node.rec();
    if !has_entry(rec.flags) {
        return false;
    }
    if rec.flags != flags(one.marks) {
        return false;
    }
    is_same(node.source(), one.source)
}

// Whether each entry has one.
fn have_nodes(root: List<'_>, items: &[Item<'_>]) -> bool
    requires { root.dir ≡ None }
    ensures { result ≡ true → AllByRecursion (HasNode (rows_in root.entry)) (map item items.now) }
{
    for one in items {
        if !has_node(root, one) {
            return false;
        }
    }
    true
}

/// Whether the image agrees with the entries, of which these are the paths.
pub(crate) fn agrees(image: &Image<'_>, items: &[Item<'_>], paths: &BTreeSet<String>) -> bool
    requires { AreThePaths (contains_text paths.now) (map item items.now) }
    ensures { result ≡ true → Tells (dockets.view image.now.docket) (rows image.now) (map item items.now) }
{
    if !image.counted() {
        return false;
    }
    let root = image.root();
    if !are_right(root, paths) {
        return false;
    }
    have_nodes(root, items)
}
