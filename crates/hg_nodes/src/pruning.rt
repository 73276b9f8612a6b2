//! Nodes that go: those left with neither entry nor children.

ghost use Rattle.std.specs.Prelude.{◌≡◌, ◌||◌, ℕ, true, List, is_some};
ghost use Rattle.hg_nodes.specs.Drop.{IsPruned, bare};
ghost use Rattle.hg_nodes.specs.Edits.{IsFormed};
ghost use Rattle.hg_nodes.specs.Lists.{has_rows_in};
ghost use Rattle.hg_nodes.specs.Node.{entry_in, node_at};

use crate::nodes::Nodes;
use crate::planting::entry_at;
use crate::times::Times;
use hg_base::PathRef;

// Whether a node has an entry or a child.
fn stays(nodes: &Nodes, path: PathRef<'_>) -> bool
    ensures { result ≡ (is_some (entry_in (node_at nodes.now path.entry.text.now)) || has_rows_in nodes.now path.entry.text.now) }
{
    if entry_at(nodes, path).is_some() {
        return true;
    }
    nodes.has_kids(path.text)
}

/// Takes out a node that has neither entry nor children, with its parent's cache, and then its parent in the same way.
pub fn prune(nodes: &mut Nodes, times: &mut Times, path: PathRef<'_>)
    requires { IsFormed (bare nodes.old times.old) }
    ensures pruned { IsPruned path.entry.text.now (bare nodes.old times.old) (bare nodes.new times.new) }
    ensures formed { IsFormed (bare nodes.new times.new) }
    ensures kept { (at : List ℕ) → is_some (node_at nodes.new at) ≡ true → node_at nodes.new at ≡ node_at nodes.old at }
{
    if stays(nodes, path) {
        return;
    }
    nodes.remove(path);
    times.remove(path.text);
    match path.parent() {
        None => {}
        Some(dir) => {
            times.remove(dir.text);
            prune(nodes, times, dir);
        }
    }
}
