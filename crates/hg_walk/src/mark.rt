//! What a look showed at the path of a node.

ghost use Rattle.std.specs.Prelude.{◌≡◌, Some};
ghost use Rattle.hg_walk.specs.Marks as marks;

use hg_base::{Kind, Stat};

/// What a look showed at the path of a node, where one was taken.
#[derive(Clone, Copy, Debug)]
pub(crate) enum Mark {
    Unasked,
    Nothing,
    Directory,
    /// Something else than a directory.
    Other,
}

impl Mark {
    // The mark of a look that showed something.
    pub(crate) fn of(there: &Stat) -> Mark
        ensures { result ≡ marks.mark_of (Some there.now) }
    {
        match there.kind {
            Kind::Dir => Mark::Directory,
            Kind::File | Kind::Link | Kind::Other => Mark::Other,
        }
    }

    // Whether a look showed that no directory stands there.
    pub(crate) fn is_no_dir(self) -> bool
        ensures { result ≡ marks.is_no_dir self }
    {
        matches!(self, Mark::Nothing | Mark::Other)
    }

    // Whether a look showed that something stands there.
    pub(crate) fn stands(self) -> bool
        ensures { result ≡ marks.stands self }
    {
        matches!(self, Mark::Directory | Mark::Other)
    }
}
