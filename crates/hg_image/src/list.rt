//! A list of nodes: those of the root, or the children of a node.

ghost use Rattle.std.specs.Prelude.{◌≡◌, ◌+◌, ◌*◌, ◌<◌, ◌∷◌, ◌++◌, []};
ghost use Rattle.hg_base.specs.PathText.{parent_of};
ghost use Rattle.hg_image.specs.Node.{record_at, path_of};
ghost use Rattle.hg_image.specs.Rows.{AreParted};
ghost use Rattle.hg_image.specs.View.{rows_in, rows_from, row, rows_below, dir_of, Finds};

use crate::opened::{List, NodeRef};
use crate::parts::read_record;
use std::cmp::Ordering;

impl<'a> List<'a> {
    /// The byte place of the first record; of a list without nodes it says nothing.
    pub fn start(self) -> u32
        ensures { result ≡ self.entry.start }
    {
        self.start
    }

    /// How many nodes there are.
    pub fn len(self) -> u32
        ensures count { result ≡ self.entry.count }
        // The rows of the list are those from its first node on, and there are none behind the last.
        ensures whole { rows_in self.entry ≡ rows_from self.entry 0 }
        ensures end { rows_from self.entry result ≡ [] }
    {
        self.count
    }

    /// One node, counted from 0.
    #[inline(always)]
    pub fn get(self, i: u32) -> NodeRef<'a>
        requires { i < self.count }
        ensures record { result.rec ≡ record_at self.entry.bytes.now (self.entry.start + 44 * i) }
        ensures bytes { result.bytes.now ≡ self.entry.bytes.now }
        // Its row comes first, then those below it, then those of the nodes behind it.
        ensures rows { rows_from self.entry i ≡ row result ∷ (rows_below result ++ rows_from self.entry (i + 1)) }
        // What is below it is so by its path; the nodes behind it stand apart from all that.
        ensures parted { AreParted (row result).path (rows_below result) (rows_from self.entry (i + 1)) }
        // It stands right in the list's directory.
        ensures dir { parent_of (path_of result.bytes.now result.rec) ≡ dir_of self.entry }
        // The list below it has one level less.
        ensures levels { result.depth + 1 ≡ self.entry.depth }
    {
        NodeRef {
            bytes: self.bytes,
            rec: read_record(self.bytes, self.start + 44 * i),
            depth: self.depth - 1,
        }
    }

    /// The node of this name, where there is one.
    pub fn find(self, base: &str) -> Option<NodeRef<'a>>
        ensures { Finds self.entry base.now result }
    {
        let mut low = 0;
        let mut high = self.count;
        while low < high {
            let middle = low + (high - low) / 2;
            let node = self.get(middle);
            match node.base().cmp(base) {
                Ordering::Equal => return Some(node),
                Ordering::Less => low = middle + 1,
                Ordering::Greater => high = middle,
            }
        }
        None
    }
}
