//! The types: an image in which `open` found no fault, the lists of nodes in it, and one node. Each keeps what was found.

ghost use Rattle.std.specs.Prelude.{◌≡◌, ◌<◌, ◌^◌, IsTrue, Some, None, length, option_map};
ghost use Rattle.hg_base.specs.PathText.{is_path};
ghost use Rattle.hg_entry.specs.Entry.{is_timely};
ghost use Rattle.hg_docket.specs.Docket.{view};
ghost use Rattle.hg_image.specs.Counts.{is_counted};
ghost use Rattle.hg_image.specs.Rows.{list_rows};
ghost use Rattle.hg_image.specs.Node.{is_text, path_of, fields_of, is_sourced};
ghost use Rattle.hg_image.specs.Walk.{levels, list_fault};

use hg_base::PathRef;
use hg_docket::Docket;
use hg_node::Rec;

/// A data file whose nodes keep every rule, with the docket that it was opened with.
#[derive(Clone, Copy, Debug)]
pub struct Image<'a> {
    pub docket: Docket<'a>,
    /// The used bytes of the data file.
    pub bytes: &'a [u8],
    // (whether all counts are those from scratch)
    pub(crate) is_right: bool,
    pub ghost is_used: { length bytes.now ≡ docket.used },
    pub ghost is_sound: { list_fault levels bytes.now None docket.root_start docket.root_count ≡ None },
    pub ghost counts: { is_right ≡ is_counted (view docket) (list_rows levels bytes.now docket.root_start docket.root_count) },
}

/// The nodes that stand right in one directory, in the order of their names.
#[derive(Clone, Copy, Debug)]
pub struct List<'a> {
    /// The used bytes of the data file.
    pub bytes: &'a [u8],
    /// The directory, none for the root.
    pub dir: Option<PathRef<'a>>,
    /// The byte place of the first record.
    pub start: u32,
    /// How many nodes there are.
    pub count: u32,
    /// How many levels of lists are left, this one among them.
    pub depth: u32,
    pub ghost is_used: { length bytes.now < 2 ^ 32 },
    pub ghost is_sound: { list_fault depth bytes.now (option_map (λ d. d.text.now) dir) start count ≡ None },
}

/// A node whose numbers keep every rule; what it names is lent from the bytes.
#[derive(Clone, Copy, Debug)]
pub struct NodeRef<'a> {
    /// The used bytes of the data file.
    pub bytes: &'a [u8],
    /// The numbers of the node, with the place where it stands.
    pub rec: Rec,
    /// How many levels of lists are left below it.
    pub depth: u32,
    pub ghost is_used: { length bytes.now < 2 ^ 32 },
    pub ghost is_text: { IsTrue (is_text bytes.now rec.path_start rec.path_len) },
    pub ghost is_path: { IsTrue (is_path (path_of bytes.now rec)) },
    pub ghost is_sourced: { IsTrue (is_sourced bytes.now rec) },
    pub ghost is_timely: { IsTrue (is_timely (fields_of rec)) },
    pub ghost is_sound: { list_fault depth bytes.now (Some (path_of bytes.now rec)) rec.kids_start rec.kids_count ≡ None },
}
