//! The globs of an ignore text without those that it has already: so a text of many equal lines costs no more than one of them.

ghost use Rattle.std.specs.Prelude.{◌≡◌, ◌↔◌, ◌⊎◌, List, ℕ, Bool, IsTrue, IfOk, OnOk, not};
ghost use Rattle.std.specs.BTreeSet.{contains_text};
ghost use Rattle.hg_glob.specs.Many.{SomeStands};
ghost use Rattle.hg_ignore.specs.Kept.{has};

use hg_base::OutOfMemory;
use hg_glob::GlobLine;
use std::alloc::Global;
use std::collections::BTreeSet;

/// The texts of the globs so far.
#[derive(Drop)]
pub struct Seen {
    pub rooted: BTreeSet<String>,
    pub free: BTreeSet<String>,
}

/// Puts the text into the set, and answers whether it is new there.
fn put(alloc: Global, texts: &mut BTreeSet<String>, text: &str) -> Result<bool, OutOfMemory>
    ensures new { IfOk result (λ is_new. is_new ≡ not (contains_text texts.old text.now)) }
    ensures more { OnOk result ((q : List ℕ) → IsTrue (contains_text texts.new q) → IsTrue (contains_text texts.old q) ⊎ (q ≡ text.now)) }
{
    Ok(texts.insert(String::from_str(alloc, text)?)?)
}

impl Seen {
    /// Puts the glob of a line to the others of its kind, and answers whether it is new.
    fn put(&mut self, alloc: Global, line: &GlobLine) -> Result<bool, OutOfMemory>
        ensures new { IfOk result (λ is_new. is_new ≡ not (has self.old line.now.rooted line.now.glob)) }
        ensures more { OnOk result ((rooted : Bool) (q : List ℕ) → IsTrue (has self.new rooted q) → IsTrue (has self.old rooted q) ⊎ ((rooted ≡ line.now.rooted) × (q ≡ line.now.glob))) }
    {
        if line.rooted {
            return put(alloc, &mut self.rooted, line.glob.text());
        }
        put(alloc, &mut self.free, line.glob.text())
    }
}

/// Each glob once. A path in which some glob of a list stands is one in which some glob of the other does.
pub fn distinct(alloc: Global, globs: Vec<GlobLine>) -> Result<Vec<GlobLine>, OutOfMemory>
    ensures { IfOk result (λ kept. (path : List ℕ) → SomeStands kept.items path ↔ SomeStands globs.items path) }
{
    let mut kept = Vec::new(alloc);
    let mut seen = Seen {
        rooted: BTreeSet::new(alloc),
        free: BTreeSet::new(alloc),
    };
    for line in globs {
        if seen.put(alloc, &line)? {
            kept.push(line)?;
        }
    }
    Ok(kept)
}
