//! One child of a directory.

ghost use Rattle.std.specs.Prelude.{option_map};
ghost use Rattle.hg_entry.specs.Entry.{cache_view, view};
ghost use Rattle.hg_nodes.specs.Written.{AreWritten};

use hg_base::{PathRef, Stamp};
use hg_entry::{Entry, Fields};
use hg_image::List;

/// A node right in a directory. Places are byte places in the data file of the image that the table was opened over.
#[derive(Clone, Copy, Debug)]
pub struct Child<'t> {
    /// The full path.
    pub path: PathRef<'t>,
    pub entry: Option<Entry>,
    /// The copy source, where there is an entry and it has one.
    pub source: Option<PathRef<'t>>,
    /// When all children of the directory were seen, where it is cached.
    pub cache: Option<Stamp>,
    /// Whether a node stands right in it.
    pub has_kids: bool,
    /// Where the text of the full path lies in the image, if it is lent.
    pub text_at: Option<u32>,
    /// Where the text of the copy source does.
    pub source_at: Option<u32>,
    // (the image's list of what stands right in it, where that is known)
    pub(crate) list: Option<List<'t>>,
    // (the numbers that are written for it)
    pub(crate) fields: Fields,
    ghost is_written: { AreWritten (option_map view entry) (option_map cache_view cache) fields },
}
