//! One child of a directory.

ghost use Rattle.std.specs.Prelude.{option_map};
ghost use Rattle.hg_entry.specs.Entry.{cache_view, view};
ghost use Rattle.hg_nodes.specs.Written.{AreWritten};

use hg_base::{PathRef, Stamp};
use hg_entry::{Entry, Fields};

/// A node right in a directory. Places are byte places in the file that records it.
#[derive(Clone, Copy, Debug)]
pub struct OwnChild<'t> {
    /// The full path.
    pub path: PathRef<'t>,
    pub entry: Option<Entry>,
    /// The copy source, where there is an entry and it has one.
    pub source: Option<PathRef<'t>>,
    /// When all children of the directory were seen, where it is cached.
    pub cache: Option<Stamp>,
    /// Whether a node that is in memory stands right in it.
    pub has_kids: bool,
    /// Where the text of the full path lies, if it is lent.
    pub text_at: Option<u32>,
    /// Where the text of the copy source does.
    pub source_at: Option<u32>,
    /// The numbers that are written for it.
    pub fields: Fields,
    ghost is_written: { AreWritten (option_map view entry) (option_map cache_view cache) fields },
}
