// The trait of what holds the files below `.hg`.
ghost use Rattle.std.specs.Prelude.{◌≡◌, ◌≤◌, ◌⊎◌, ◌∷◌, [], ℕ, length, IfOk, OnOk, OnErr, IsTrue, is_ok};
ghost use Rattle.hg_base.specs.Fault.{HasCause};
ghost use Rattle.hg_base.specs.Reads.{ReadsBytes, IsWithin};
ghost use Rattle.hg_shelf.specs.Asks.{Asks, AsksNothing};
ghost use Rattle.hg_shelf.specs.History.{History, Files, Passes, Waits, now};
ghost use Rattle.hg_shelf.specs.Images.{Images, Goes, Acts, course};
ghost use Rattle.hg_shelf.specs.Lock.{Locks, NotesLock, NotesUnlock, Unlocks};
ghost use Rattle.hg_shelf.specs.Reads.{size_of};
ghost use Rattle.hg_shelf.specs.Rules.{Writes, Tears, Syncs, SyncsNames, Renames, Removes};
ghost use Rattle.hg_shelf.specs.declared.asked.Asked.TheVariants as an_ask;

use hg_base::{Failed, Got};

/// What holds the files below `.hg`. A name is relative to `.hg`, as `dirstate`.
///
/// Between two calls, and within one, others may change files. After a crash a file may have lost what no `sync` made sure, and a
/// rename or a removal what no `sync_names` did; each call says what it adds to what a crash may leave. A crash frees the lock.
pub trait Shelf {
    // The moments so far, and what was asked, where they are told; and whether the caller holds the lock.
    ghost history: { Self → History };

    // What a crash may leave at each moment.
    ghost images: { Self → ℕ → Images };

    // How many calls failed.
    ghost faults: { Self → ℕ };

    // How many locks were refused.
    ghost held: { Self → ℕ };

    /// The size of a file in bytes, `None` where it is absent.
    fn size(&mut self, name: &str) -> Result<Option<u64>, Failed>
        ensures passes { Passes (history self.old) (history self.new) }
        ensures kept { Goes (course (history self.old) (images self.old)) (course (history self.new) (images self.new)) }
        ensures asked { IsTrue (history self.old).told → Asks (is_ok result) (an_ask.Size name.now ∷ []) (history self.old) (history self.new) }
        ensures found { IsTrue (history self.old).told
            → IfOk result (λ size. size ≡ size_of ((now (history self.new)).files name.now)) }
        ensures held { held self.new ≡ held self.old }
        ensures cause { HasCause (faults self.old) (faults self.new) result (λ e. Unit {0}) };

    /// Fills the front of the buffer with what a file has past a place, in bytes from its start. What fits isn't cut short.
    fn read_at(&mut self, name: &str, place: u64, buf: &mut [u8]) -> Result<Got, Failed>
        ensures passes { Passes (history self.old) (history self.new) }
        ensures kept { Goes (course (history self.old) (images self.old)) (course (history self.new) (images self.new)) }
        ensures asked { IsTrue (history self.old).told → Asks (is_ok result) (an_ask.Read name.now place (length buf.old) ∷ []) (history self.old) (history self.new) }
        ensures found { IsTrue (history self.old).told
            → IfOk result (λ got. ReadsBytes ((now (history self.new)).files name.now) place buf.old buf.new got) }
        ensures fit { IfOk result (λ got. IsWithin (length buf.old) got) }
        ensures held { held self.new ≡ held self.old }
        ensures cause { HasCause (faults self.old) (faults self.new) result (λ e. Unit {0}) };

    /// Writes bytes at a place of a file, in bytes from its start, and makes the file where it is absent. A place past the end has
    /// zeros before it. After a crash the range written and what lies past the old end may hold any bytes, also where the call failed.
    fn write_at(&mut self, name: &str, place: u64, bytes: &[u8]) -> Result<(), Failed>
        ensures written { IsTrue (history self.old).told
            → OnOk
            result
            (Acts
            (Writes name.now place bytes.now)
            (course (history self.old) (images self.old))
            (course (history self.new) (images self.new))) }
        ensures torn { IsTrue (history self.old).told
            → OnErr
            result
            (Acts
            (Tears name.now place bytes.now)
            (course (history self.old) (images self.old))
            (course (history self.new) (images self.new))
            ⊎ Passes (history self.old) (history self.new)) }
        ensures kept { Goes (course (history self.old) (images self.old)) (course (history self.new) (images self.new)) }
        ensures ours { (history self.new).ours ≡ (history self.old).ours }
        ensures unasked { AsksNothing (history self.old) (history self.new) }
        ensures held { held self.new ≡ held self.old }
        ensures cause { HasCause (faults self.old) (faults self.new) result (λ e. Unit {0}) };

    /// Makes sure what a file holds. Of an absent file it changes nothing.
    fn sync(&mut self, name: &str) -> Result<(), Failed>
        ensures synced { IsTrue (history self.old).told
            → OnOk
            result
            (Acts (Syncs name.now) (course (history self.old) (images self.old)) (course (history self.new) (images self.new))) }
        ensures unsynced { OnErr result (Passes (history self.old) (history self.new)) }
        ensures kept { Goes (course (history self.old) (images self.old)) (course (history self.new) (images self.new)) }
        ensures ours { (history self.new).ours ≡ (history self.old).ours }
        ensures unasked { AsksNothing (history self.old) (history self.new) }
        ensures held { held self.new ≡ held self.old }
        ensures cause { HasCause (faults self.old) (faults self.new) result (λ e. Unit {0}) };

    /// Gives a file another name, in place of a file of that name. Of an absent file it changes nothing. A call that failed has
    /// done it wholly or not at all.
    fn rename(&mut self, from: &str, to: &str) -> Result<(), Failed>
        ensures renamed { IsTrue (history self.old).told
            → OnOk
            result
            (Acts
            (Renames from.now to.now)
            (course (history self.old) (images self.old))
            (course (history self.new) (images self.new))) }
        ensures perhaps { IsTrue (history self.old).told
            → OnErr
            result
            (Acts
            (Renames from.now to.now)
            (course (history self.old) (images self.old))
            (course (history self.new) (images self.new))
            ⊎ Passes (history self.old) (history self.new)) }
        ensures kept { Goes (course (history self.old) (images self.old)) (course (history self.new) (images self.new)) }
        ensures ours { (history self.new).ours ≡ (history self.old).ours }
        ensures unasked { AsksNothing (history self.old) (history self.new) }
        ensures held { held self.new ≡ held self.old }
        ensures cause { HasCause (faults self.old) (faults self.new) result (λ e. Unit {0}) };

    /// Makes sure each rename and each removal so far.
    fn sync_names(&mut self) -> Result<(), Failed>
        ensures synced { IsTrue (history self.old).told
            → OnOk
            result
            (Acts SyncsNames (course (history self.old) (images self.old)) (course (history self.new) (images self.new))) }
        ensures unsynced { OnErr result (Passes (history self.old) (history self.new)) }
        ensures kept { Goes (course (history self.old) (images self.old)) (course (history self.new) (images self.new)) }
        ensures ours { (history self.new).ours ≡ (history self.old).ours }
        ensures unasked { AsksNothing (history self.old) (history self.new) }
        ensures held { held self.new ≡ held self.old }
        ensures cause { HasCause (faults self.old) (faults self.new) result (λ e. Unit {0}) };

    /// Takes a file away. Of an absent file it changes nothing. A call that failed has done it wholly or not at all.
    fn remove(&mut self, name: &str) -> Result<(), Failed>
        ensures removed { IsTrue (history self.old).told
            → OnOk
            result
            (Acts (Removes name.now) (course (history self.old) (images self.old)) (course (history self.new) (images self.new))) }
        ensures perhaps { IsTrue (history self.old).told
            → OnErr
            result
            (Acts (Removes name.now) (course (history self.old) (images self.old)) (course (history self.new) (images self.new))
            ⊎ Passes (history self.old) (history self.new)) }
        ensures kept { Goes (course (history self.old) (images self.old)) (course (history self.new) (images self.new)) }
        ensures ours { (history self.new).ours ≡ (history self.old).ours }
        ensures unasked { AsksNothing (history self.old) (history self.new) }
        ensures held { held self.new ≡ held self.old }
        ensures cause { HasCause (faults self.old) (faults self.new) result (λ e. Unit {0}) };

    /// Takes the lock, for which it doesn't wait: `false` where another holds it.
    fn lock(&mut self) -> Result<bool, Failed>
        ensures waits { Waits (history self.old) (history self.new) }
        ensures kept { Goes (course (history self.old) (images self.old)) (course (history self.new) (images self.new)) }
        ensures unasked { (history self.new).asked ≡ (history self.old).asked }
        ensures noted { IsTrue (history self.old).told → NotesLock (history self.old) (history self.new) result }
        ensures locks { Locks (history self.old).ours (history self.new).ours (held self.old) (held self.new) result }
        ensures cause { HasCause (faults self.old) (faults self.new) result (λ e. Unit {0}) };

    /// Gives the lock back. Of a free lock it changes nothing.
    fn unlock(&mut self) -> Result<(), Failed>
        ensures waits { Waits (history self.old) (history self.new) }
        ensures kept { Goes (course (history self.old) (images self.old)) (course (history self.new) (images self.new)) }
        ensures unasked { (history self.new).asked ≡ (history self.old).asked }
        ensures noted { IsTrue (history self.old).told → NotesUnlock (history self.old) (history self.new) result }
        ensures unlocks { Unlocks (history self.old).ours (history self.new).ours result }
        ensures held { held self.new ≡ held self.old }
        ensures cause { HasCause (faults self.old) (faults self.new) result (λ e. Unit {0}) };

    // Of what a crash may leave, some has all names done, and so has what reads show.
    ghost named_leaves: { (s : Self) (k : ℕ) (c : Files) → (images s k).named c → (images s k).leaves c };

    ghost shown_named: { (s : Self) (k : ℕ) → IsTrue (history s).told → k ≤ (history s).last
        → (images s k).named ((history s).at k).files };
}
