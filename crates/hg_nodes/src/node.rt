//! One node of the table.

ghost use Rattle.std.specs.Prelude.{◌≡◌, option_map};
ghost use Rattle.hg_nodes.specs.Lists.{data_of};

use hg_base::{Path, PathRef};
use hg_entry::Entry;

/// The copy source of an entry.
#[derive(Drop)]
pub struct Source {
    pub path: Path,
    /// Where its text lies in the image, if it is lent.
    pub at: Option<u32>,
}

/// What is held of one path.
#[derive(Drop)]
pub struct Node {
    pub entry: Option<Entry>,
    // (in a box of its own: few nodes have one, and there are many nodes)
    pub source: Option<Box<Source>>,
    /// Where the text of its path lies in the image, if it is lent.
    pub text_at: Option<u32>,
}

impl Node {
    /// The path of its copy source.
    pub fn source(&self) -> Option<PathRef<'_>>
        ensures { option_map (λ s. s.text.now) result ≡ (data_of self.now).source }
    {
        match &self.source {
            None => None,
            Some(source) => Some(source.path.as_ref()),
        }
    }

    /// Where the text of its copy source lies in the image, if it is lent.
    pub fn source_at(&self) -> Option<u32>
        ensures { result ≡ (data_of self.now).source_at }
    {
        match &self.source {
            None => None,
            Some(source) => source.at,
        }
    }
}
