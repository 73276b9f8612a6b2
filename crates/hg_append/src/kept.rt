//! Lists of nodes that are kept.

ghost use Rattle.std.specs.Prelude.{◌≡◌, option_map};
ghost use Rattle.hg_append.specs.Keeps.{kept_list, keeps_by, list_lent};
ghost use Rattle.hg_image.specs.Reading.{row_at};
ghost use Rattle.hg_image.specs.Rows.{rows_of};
ghost use Rattle.hg_image.specs.View.{row};

use crate::way::Way;
use hg_base::PathRef;
use hg_image::{NodeRef, node_in};
use hg_mixed::Mixed;

/// A list of nodes of the image that is kept where it lies.
#[derive(Clone, Copy, Debug)]
pub struct Kept {
    /// Where its records begin.
    pub start: u32,
    /// How many nodes it has.
    pub count: u32,
    /// How many nodes in it and below it have an entry.
    pub entries: u32,
    /// How many of them are tracked.
    pub tracked: u32,
}

// The node at a path of the image that a table was opened over.
fn image_node<'a>(mixed: &Mixed<'a>, path: PathRef<'_>) -> Option<NodeRef<'a>>
    ensures { option_map row result ≡ row_at (rows_of mixed.now.docket mixed.now.bytes) path.entry.text.now }
{
    node_in(mixed.image().root(), path)
}

// The list of the nodes below a node of the image.
fn list_below(node: NodeRef<'_>) -> Kept
    ensures { result ≡ kept_list (row node.entry) }
{
    let rec = node.rec();
    Kept {
        start: rec.kids_start,
        count: rec.kids_count,
        entries: rec.entries_below,
        tracked: rec.tracked_below,
    }
}

// The list of a directory, where it is lent.
fn lent_list(mixed: &Mixed<'_>, dir: PathRef<'_>) -> Option<Kept>
    ensures { result ≡ list_lent mixed.now dir.entry.text.now }
{
    if !mixed.is_lent(Some(dir)) {
        return None;
    }
    match image_node(mixed, dir) {
        None => None,
        Some(node) => Some(list_below(node)),
    }
}

/// The list of a directory, where it is kept.
pub fn kept_list(mixed: &Mixed<'_>, way: Way, dir: PathRef<'_>) -> Option<Kept>
    ensures { result ≡ (keeps_by mixed.now way).list dir.entry.text.now }
{
    match way {
        Way::Append => lent_list(mixed, dir),
        Way::Rewrite => None,
    }
}
