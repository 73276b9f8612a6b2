//! Which other tracked path keeps a path from being tracked.

ghost use Rattle.std.specs.Prelude.{◌≡◌, ◌&&◌, not, None, Some, option_map, MatchBool};
ghost use Rattle.hg_entry.specs.Entry.{view};
ghost use Rattle.hg_nodes.specs.Clash.{IsLeast, clashes, is_tracked_entry};
ghost use Rattle.hg_nodes.specs.Lists.{data_of};
ghost use Rattle.hg_nodes.specs.Node.{AreRooted, entry_in, node_at};
ghost use Rattle.hg_nodes.specs.Search as search_for;

use crate::node::Node;
use crate::nodes::Nodes;
use crate::planting::entry_at;
use hg_base::PathRef;
use hg_entry::Entry;

fn is_tracked_entry(entry: Option<Entry>) -> bool
    ensures { result ≡ is_tracked_entry (option_map view entry) }
{
    match entry {
        None => false,
        Some(entry) => entry.w,
    }
}

fn is_tracked(nodes: &Nodes, path: PathRef<'_>) -> bool
    ensures { result ≡ search_for.is_tracked nodes.now path.entry.text.now }
{
    is_tracked_entry(entry_at(nodes, path))
}

// The lesser of two paths, where there are two.
fn lesser<'t>(a: Option<PathRef<'t>>, b: Option<PathRef<'t>>) -> Option<PathRef<'t>>
    ensures { option_map (λ p. p.text.now) result ≡ search_for.lesser (option_map (λ p. p.text.now) a.entry) (option_map (λ p. p.text.now) b.entry) }
{
    let Some(first) = a else {
        return b;
    };
    let Some(second) = b else {
        return a;
    };
    if first.text.cmp(second.text).is_gt() {
        b
    } else {
        a
    }
}

// Whether the path that was found isn't greater than another.
fn is_past(found: Option<PathRef<'_>>, path: &str) -> bool
    ensures { result ≡ search_for.is_past (option_map (λ p. p.text.now) found.entry) path.now }
{
    match found {
        None => false,
        Some(found) => !found.text.cmp(path).is_gt(),
    }
}

// The least tracked path above a path.
fn tracked_above<'t>(nodes: &Nodes, path: PathRef<'t>) -> Option<PathRef<'t>>
    ensures { IsLeast (search_for.tracked_above nodes.now path.entry.text.now) (option_map (λ p. p.text.now) result) }
{
    match path.parent() {
        None => None,
        Some(dir) => match tracked_above(nodes, dir) {
            Some(found) => Some(found),
            None => {
                if is_tracked(nodes, dir) {
                    Some(dir)
                } else {
                    None
                }
            }
        },
    }
}

// The least tracked path at a node or below it.
#[cycle(searching)]
fn tracked_within<'t>(nodes: &'t Nodes, path: PathRef<'t>, node: &'t Node) -> Option<PathRef<'t>>
    requires rooted { AreRooted (node_at nodes.now) }
    requires there { node_at nodes.now path.text.now ≡ Some (data_of node.now) }
    ensures { IsLeast (search_for.tracked_within nodes.now path.entry.text.now) (option_map (λ p. p.text.now) result) }
{
    if is_tracked_entry(node.entry) {
        return Some(path);
    }
    tracked_below(nodes, path)
}

// The least tracked path below a path.
#[cycle(searching)]
fn tracked_below<'t>(nodes: &'t Nodes, path: PathRef<'t>) -> Option<PathRef<'t>>
    requires { AreRooted (node_at nodes.now) }
    ensures { IsLeast (search_for.tracked_below nodes.now path.entry.text.now) (option_map (λ p. p.text.now) result) }
{
    let mut least = None;
    let mut kids = nodes.kids(path.text);
    while let Some((text, node)) = kids.next() {
        // What is left isn't less than the next node.
        if is_past(least, text) {
            return least;
        }
        let kid = PathRef { text };
        least = lesser(least, tracked_within(nodes, kid, node));
    }
    least
}

fn makes_tracked(nodes: &Nodes, path: PathRef<'_>, entry: Entry) -> bool
    ensures { result ≡ ((view entry).w && not (search_for.is_tracked nodes.now path.entry.text.now)) }
{
    if !entry.w {
        return false;
    }
    !is_tracked(nodes, path)
}

/// The least tracked path above or below a path.
pub fn near_clash<'t>(nodes: &'t Nodes, path: PathRef<'t>) -> Option<PathRef<'t>>
    requires { AreRooted (node_at nodes.now) }
    ensures { IsLeast (clashes path.entry.text.now (λ at. entry_in (node_at nodes.now at))) (option_map (λ p. p.text.now) result) }
{
    match tracked_above(nodes, path) {
        Some(found) => Some(found),
        None => tracked_below(nodes, path),
    }
}

/// The least tracked path above or below a path, where the entry would make an untracked path tracked.
pub fn clash<'t>(nodes: &'t Nodes, path: PathRef<'t>, entry: Entry) -> Option<PathRef<'t>>
    requires { AreRooted (node_at nodes.now) }
    ensures { MatchBool
        ((view entry).w && not (is_tracked_entry (entry_in (node_at nodes.now path.entry.text.now))))
        (IsLeast (clashes path.entry.text.now (λ at. entry_in (node_at nodes.now at))) (option_map (λ p. p.text.now) result))
        (result ≡ None) }
{
    if !makes_tracked(nodes, path, entry) {
        return None;
    }
    near_clash(nodes, path)
}
