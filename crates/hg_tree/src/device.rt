//! The trait of working copies.

ghost use Rattle.std.specs.Prelude.{◌≡◌, ◌⊎◌, ◌∷◌, [], ℕ, length, IsTrue, IfOk, IfErr, OnOk, IfSome, is_ok, option_map};
ghost use Rattle.hg_base.specs.Fault.{HasCause};
ghost use Rattle.hg_base.specs.Reads.{IsWithin, ReadsBytes};
ghost use Rattle.hg_tree.specs.declared.asked.Asked.TheVariants as an_ask;
ghost use Rattle.hg_tree.specs.declared.fault.TreeFault.TheVariants as a_fault;
ghost use Rattle.hg_tree.specs.Moment.{AreFit, IsPlain, Lists, bytes_at, stat_at};
ghost use Rattle.hg_tree.specs.History.{History, AreFormed, Asks, Extends, Passes, now};
ghost use Rattle.hg_tree.specs.Own.{IsPuttable, MayPut, MayUnlink, Puts, Unlinks};

use crate::fault::TreeFault;
use crate::name::Name;
use hg_base::{Failed, Got, Kind, PathRef, Stat, Time};
use std::alloc::Global;

/// A working copy that can be looked at, and in which files and links can be put and taken away.
///
/// Each call answers from the last moment at its end; an `unlink` or `put` that changes something adds that change as its last step, and
/// answers from the moment just before it. A call that fails raises the count `faults`, and answers so; only such a call does.
pub trait Tree {
    ghost history: { Self → History };

    ghost faults: { Self → ℕ };

    /// What stands at the path, where anything does. Links aren't followed, neither in the last component nor in an ancestor.
    fn stat(&mut self, path: PathRef<'_>) -> Result<Option<Stat>, Failed>
        ensures passes { Passes (history self.old) (history self.new) }
        ensures asked { IsTrue (history self.old).told → Asks (is_ok result) [] (history self.old) (history self.new) }
        ensures found { IsTrue (history self.old).told
            → IfOk result (λ found. found ≡ stat_at (now (history self.new)) path.entry.text.now) }
        ensures fit { IfOk result (λ found. IfSome found IsPlain) }
        ensures formed { IsTrue (history self.old).told → OnOk result (AreFormed (history self.new)) }
        ensures cause { HasCause (faults self.old) (faults self.new) result (λ e. Unit {0}) };

    /// The names of the directory, each once and in no stated order, or none where no directory is; no `dir` is the root, whose
    /// `.hg` is left out.
    fn list(
        &mut self,
        alloc: Global,
        dir: Option<PathRef<'_>>,
    ) -> Result<Option<Vec<Name>>, TreeFault>
        ensures passes { Passes (history self.old) (history self.new) }
        ensures asked { IsTrue (history self.old).told
            → Asks
            (is_ok result)
            ((an_ask.List (option_map (λ d. d.text.now) dir.entry)) ∷ [])
            (history self.old)
            (history self.new) }
        ensures found { IsTrue (history self.old).told
            → IfOk
            result
            (λ found. Lists (option_map (λ d. d.text.now) dir.entry) (option_map (λ v. v.items) found) (now (history self.new))) }
        ensures fit { IfOk result (λ found. IfSome found (λ names. AreFit (option_map (λ d. d.text.now) dir.entry) names.items)) }
        ensures formed { IsTrue (history self.old).told → OnOk result (AreFormed (history self.new)) }
        ensures cause { HasCause (faults self.old) (faults self.new) result (λ e. e ≡ a_fault.Failed) }
        ensures still { IfErr result (λ e. (e ≡ a_fault.Failed) ⊎ (faults self.new ≡ faults self.old)) };

    /// Fills the front of the buffer with what a file, or the target of a link, has past a place, in bytes from its start; absent where neither
    /// stands at the path. What fits isn't cut short. Links aren't followed, neither in the last component nor in an ancestor.
    fn read(&mut self, path: PathRef<'_>, place: u64, buf: &mut [u8]) -> Result<Got, Failed>
        ensures passes { Passes (history self.old) (history self.new) }
        ensures asked { IsTrue (history self.old).told
            → Asks (is_ok result) (an_ask.Read path.entry.text.now ∷ []) (history self.old) (history self.new) }
        ensures found { IsTrue (history self.old).told
            → IfOk result (λ got. ReadsBytes (bytes_at (now (history self.new)) path.entry.text.now) place buf.old buf.new got) }
        ensures fit { IfOk result (λ got. IsWithin (length buf.old) got) }
        ensures formed { IsTrue (history self.old).told → OnOk result (AreFormed (history self.new)) }
        ensures cause { HasCause (faults self.old) (faults self.new) result (λ e. Unit {0}) };

    /// The clock: the time of what would be changed now.
    fn now(&mut self) -> Result<Time, Failed>
        ensures passes { Passes (history self.old) (history self.new) }
        ensures asked { IsTrue (history self.old).told → Asks (is_ok result) [] (history self.old) (history self.new) }
        ensures found { IsTrue (history self.old).told → IfOk result (λ time. time ≡ (now (history self.new)).clock) }
        ensures formed { IsTrue (history self.old).told → OnOk result (AreFormed (history self.new)) }
        ensures cause { HasCause (faults self.old) (faults self.new) result (λ e. Unit {0}) };

    /// Takes a file or link away, and says whether one stood at the path. A call that fails has done it wholly or not at all. Links aren't
    /// followed, neither in the last component nor in an ancestor.
    fn unlink(&mut self, path: PathRef<'_>) -> Result<bool, Failed>
        ensures past { Extends (history self.old) (history self.new) }
        ensures asked { IsTrue (history self.old).told → Asks (is_ok result) [] (history self.old) (history self.new) }
        ensures done { IsTrue (history self.old).told
            → IfOk result (λ done. Unlinks path.entry.text.now done (history self.old) (history self.new)) }
        ensures failed { IsTrue (history self.old).told
            → IfErr result (λ e. MayUnlink path.entry.text.now (history self.old) (history self.new)) }
        ensures formed { IsTrue (history self.old).told → AreFormed (history self.new) }
        ensures cause { HasCause (faults self.old) (faults self.new) result (λ e. Unit {0}) };

    /// Puts a file or link with these bytes, anew at place 0, with the directories that are missing above it; or, at the present length of a
    /// file, puts the bytes behind it. It says whether it could: something else may stand there, or above, a link's target may be over
    /// 4,095 bytes, or the place be another. A call that fails may have put a front of the bytes. Links aren't followed, and none is
    /// written through.
    fn put(
        &mut self,
        path: PathRef<'_>,
        kind: Kind,
        exec: bool,
        place: u64,
        bytes: &[u8],
    ) -> Result<bool, Failed>
        requires { IsPuttable kind }
        ensures past { Extends (history self.old) (history self.new) }
        ensures asked { IsTrue (history self.old).told → Asks (is_ok result) [] (history self.old) (history self.new) }
        ensures done { IsTrue (history self.old).told
            → IfOk result (λ done. Puts kind exec place bytes.now path.entry.text.now done (history self.old) (history self.new)) }
        ensures failed { IsTrue (history self.old).told
            → IfErr result (λ e. MayPut kind exec place bytes.now path.entry.text.now (history self.old) (history self.new)) }
        ensures formed { IsTrue (history self.old).told → AreFormed (history self.new) }
        ensures cause { HasCause (faults self.old) (faults self.new) result (λ e. Unit {0}) };
}
