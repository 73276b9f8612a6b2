//! What is recorded of one node.

ghost use Rattle.std.specs.Prelude.{◌≡◌};
ghost use Rattle.hg_mixed.specs.Gathered.{line_of};

use crate::child::Child;
use hg_base::{PathRef, Stamp};
use hg_entry::Entry;

/// A node: a recorded file, or a directory.
#[derive(Clone, Copy, Debug)]
pub struct Line<'t> {
    /// The full path.
    pub path: PathRef<'t>,
    /// What is recorded of the file; none of a directory that was no file.
    pub entry: Option<Entry>,
    /// The copy source, where there is an entry and it has one.
    pub source: Option<PathRef<'t>>,
    /// When all children of the directory were seen, where it is cached.
    pub cache: Option<Stamp>,
}

impl<'t> Line<'t> {
    pub(crate) fn of(child: &Child<'t>) -> Line<'t>
        ensures { result ≡ line_of child.now }
    {
        Line {
            path: child.path,
            entry: child.entry,
            source: child.source,
            cache: child.cache,
        }
    }
}
