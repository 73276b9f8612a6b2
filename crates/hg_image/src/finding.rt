//! A node of an image, found by its path.

ghost use Rattle.std.specs.Prelude.{◌≡◌, true, IfSome, option_map};
ghost use Rattle.hg_base.specs.PathText.{is_same_dir, parent_of};
ghost use Rattle.hg_base.specs.Within.{is_above};
ghost use Rattle.hg_image.specs.Found.{HasBelow};
ghost use Rattle.hg_image.specs.Reading.{row_at};
ghost use Rattle.hg_image.specs.View.{dir_of, row, rows_in};

use crate::opened::{List, NodeRef};
use hg_base::PathRef;

// Whether a path stands right in the directory of a list.
fn is_in(list: List<'_>, path: PathRef<'_>) -> bool
    ensures { result ≡ is_same_dir (dir_of list.entry) (parent_of path.entry.text.now) }
{
    match list.dir {
        None => path.parent().is_none(),
        Some(dir) => match path.parent() {
            None => false,
            Some(parent) => dir.text == parent.text,
        },
    }
}

/// The node at a path below a list's directory, where one stands there.
pub fn node_in<'a>(list: List<'a>, path: PathRef<'_>) -> Option<NodeRef<'a>>
    requires { is_above (dir_of list) path.text.now ≡ true }
    ensures node { option_map row result ≡ row_at (rows_in list.entry) path.entry.text.now }
    // What stands below it in the list is what is below the node.
    ensures below { IfSome result (HasBelow list.entry) }
    ensures bytes { IfSome result (λ node. node.bytes.now ≡ list.entry.bytes.now) }
{
    if is_in(list, path) {
        return list.find(path.base());
    }
    let Some(dir) = path.parent() else {
        return None;
    };
    match node_in(list, dir) {
        None => None,
        Some(node) => node.children().find(path.base()),
    }
}
