//! Which paths the caller's own steps change.

ghost use Rattle.hg_tree.specs.Touched.{ChangesTogether, MayPutOnly, MayUnlinkOnly, PutsOnly, UnlinksOnly};

/// A call that may change something changes what stands at its path alone, and directories above it, whatever it answers; and so on for
/// several calls.
pub fn steps_touch()
    ensures unlinks { UnlinksOnly }
    ensures may_unlink { MayUnlinkOnly }
    ensures puts { PutsOnly }
    ensures may_put { MayPutOnly }
    ensures together { ChangesTogether }
{}
