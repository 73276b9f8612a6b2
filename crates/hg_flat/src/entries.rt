//! Entries that a listing asks for.

ghost use Rattle.std.specs.Prelude.{◌≡◌, ◌≤◌, Bool, ℕ, List, None, IfSome, IsTrue, is_some, length, option_map};
ghost use Rattle.hg_base.specs.PathText.{joined};
ghost use Rattle.hg_flat.specs.Passed.{Known};
ghost use Rattle.hg_flat.specs.Serving.{IsNodeAt, IsSpanOf};

use crate::span::Span;
use hg_base::PathRef;

/// Which paths have an entry, and what was seen before a listing: at which of them no directory stood, so that it passes them over, and at which paths
/// one did, so that it goes into them without a look; and of which directories the nodes serve as names, so that it doesn't list them.
///
/// A search begins at `next`, which it moves: paths are mostly asked for in order. Its value changes no answer.
pub trait Entries {
    ghost kept: { Self → List ℕ → Bool };

    ghost known: { Self → Known };

    /// Whether a path has an entry.
    fn has(&self, path: &str, next: &mut usize) -> bool
        ensures { result ≡ kept self.now path.now };

    /// Whether the path of a name in a directory, where no directory is the root, has an entry and needs no look; an answer no is always right.
    fn was_passed(&self, dir: Option<PathRef<'_>>, name: &str, next: &mut usize) -> bool
        ensures passed { IsTrue result → IsTrue ((known self.now).none (joined (option_map (λ d. d.text.now) dir.entry) name.now)) }
        ensures kept { IsTrue result → IsTrue (kept self.now (joined (option_map (λ d. d.text.now) dir.entry) name.now)) };

    /// Whether a directory was seen at a path, so that it is listed without a look; an answer no is always right.
    fn was_entered(&self, path: &str, next: &mut usize) -> bool
        ensures { IsTrue result → IsTrue ((known self.now).dir path.now) };

    /// A range of the nodes in which all are that stand right in a directory, where these serve as its names.
    fn served(&self, path: &str, next: &mut usize) -> Option<Span>
        ensures known { is_some result ≡ (known self.now).served path.now }
        ensures span { IfSome result (IsSpanOf (known self.now).nodes path.now) };

    /// The path of the node at a place, none behind the last.
    fn node_at(&self, at: usize) -> Option<PathRef<'_>>
        ensures node { IfSome result (λ path. IsNodeAt (known self.now).nodes at path.text.now) }
        ensures end { result ≡ None → length (known self.now).nodes ≤ at };
}
