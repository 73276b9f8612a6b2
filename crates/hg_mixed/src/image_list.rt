//! The image's own list of a directory's children.

ghost use Rattle.std.specs.Prelude.{option_map};
ghost use Rattle.hg_docket.specs.Docket as docket;
ghost use Rattle.hg_mixed.specs.Parted.{image_rows};
ghost use Rattle.hg_mixed.specs.Shown.{AnswersList, FindsList};

use hg_base::PathRef;
use hg_image::{Image, List, node_in};

// The list of a directory, also one without nodes; none where the image has no node at the directory.
fn list_at<'a>(image: Image<'a>, dir: Option<PathRef<'_>>) -> Option<List<'a>>
    ensures { FindsList (docket.view image.entry.docket) image.entry.bytes.now (image_rows image.entry) (option_map (λ d. d.text.now) dir.entry) result }
{
    match dir {
        None => Some(image.root()),
        Some(dir) => match node_in(image.root(), dir) {
            None => None,
            Some(node) => Some(node.children()),
        },
    }
}

/// The list of a directory's children, where the image has one: a list without nodes is none.
pub fn image_list<'a>(image: Image<'a>, dir: Option<PathRef<'_>>) -> Option<List<'a>>
    ensures { AnswersList (docket.view image.entry.docket) image.entry.bytes.now (image_rows image.entry) (option_map (λ d. d.text.now) dir.entry) result }
{
    let Some(list) = list_at(image, dir) else {
        return None;
    };
    if list.len() == 0 {
        return None;
    }
    Some(list)
}
