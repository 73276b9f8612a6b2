//! What the caller of the tree in memory does by its calls: each is a change of its own, behind what was due.

ghost use Rattle.std.specs.Prelude.{◌≡◌, true, false, OnOk, OnErr, IfOk, is_some};
ghost use Rattle.hg_base.specs.Fault.{HasCause};
ghost use Rattle.hg_tree.specs.declared.asked.Own.TheVariants as an_own;
ghost use Rattle.hg_tree.specs.Moment.{bytes_at, is_file};
ghost use Rattle.hg_tree.specs.History.{AreFormed, now};
ghost use Rattle.hg_tree.specs.Memory.{LeavesOwn, history_of, own_put, with_own};
ghost use Rattle.hg_tree.specs.Own.{CanPut, CannotPut, Puts, Unlinks, put_thing};

use crate::asked::{Change, Own};
use crate::memory::MemTree;
use crate::own::{extend, is_clear, is_puttable_at, make, thing_of, unlink};
use crate::thing::Placed;
use hg_base::{Blob, Failed, Kind, OutOfMemory, Path, PathRef};

impl MemTree {
    // Each moment so far is well formed.
    pub(crate) fn stays_formed(&self)
        ensures { AreFormed (history_of self.now) }
    {
        let _ = &self.things;
    }

    // Whether a file or a link stands there.
    fn has_contents(&self, path: &str) -> bool
        ensures { result ≡ is_some (bytes_at (now (history_of self.now)) path.now) }
    {
        self.bytes(path).is_some()
    }

    // Takes a file or link away, as a change of the caller's.
    fn unlink_now(&mut self, path: PathRef<'_>) -> Result<(), OutOfMemory>
        requires { is_some (bytes_at (now (history_of self.old)) path.text.now) ≡ true }
        ensures ok { OnOk result (self.new ≡ with_own (an_own.Unlink path.entry.text.now) self.old) }
        ensures err { OnErr result (self.new ≡ self.old) }
    {
        let path_copy = Path::of(self.alloc, path)?;
        self.changes.reserve(1)?;
        unlink(&mut self.things, path, self.clock);
        self.changes
            .push(Change::ByUs {
                what: Own::Unlink { path: path_copy },
            })
            .unwrap();
        Ok(())
    }

    // Whether what stands at the path, and above it, can have the thing put there.
    fn can_put(&self, path: PathRef<'_>, kind: Kind, exec: bool, place: u64, bytes: &[u8]) -> bool
        ensures can { result ≡ true → CanPut kind exec place bytes.now path.entry.text.now (now (history_of self.now)).things }
        ensures cannot { result ≡ false → CannotPut kind exec place bytes.now path.entry.text.now (now (history_of self.now)).things }
    {
        is_puttable_at(&self.things, path.text, kind, exec, place, bytes)
            && is_clear(&self.things, path)
    }

    // Puts a thing anew, or more bytes behind a file, as a change of the caller's.
    fn put_now(
        &mut self,
        path: PathRef<'_>,
        kind: Kind,
        exec: bool,
        place: u64,
        bytes: &[u8],
    ) -> Result<(), OutOfMemory>
        requires { CanPut kind exec place bytes.now path.text.now (now (history_of self.old)).things }
        ensures ok { OnOk result (self.new ≡ with_own (own_put kind exec place bytes.now path.entry.text.now) self.old) }
        ensures err { OnErr result (self.new ≡ self.old) }
    {
        if place == 0 {
            return self.make_now(path, kind, exec, bytes);
        }
        self.extend_now(path, bytes)
    }

    fn make_now(
        &mut self,
        path: PathRef<'_>,
        kind: Kind,
        exec: bool,
        bytes: &[u8],
    ) -> Result<(), OutOfMemory>
        requires { CanPut kind exec 0 bytes.now path.text.now (now (history_of self.old)).things }
        ensures ok { OnOk result (self.new ≡ with_own (an_own.Make path.entry.text.now (put_thing kind exec bytes.now)) self.old) }
        ensures err { OnErr result (self.new ≡ self.old) }
    {
        let thing = thing_of(self.alloc, kind, exec, bytes)?;
        let copy = thing_of(self.alloc, kind, exec, bytes)?;
        let path_copy = Path::of(self.alloc, path)?;
        self.changes.reserve(1)?;
        make(
            self.alloc,
            &mut self.things,
            path,
            Placed {
                thing: copy,
                mtime: self.clock,
            },
        )?;
        self.changes
            .push(Change::ByUs {
                what: Own::Make {
                    path: path_copy,
                    thing,
                },
            })
            .unwrap();
        Ok(())
    }

    fn extend_now(&mut self, path: PathRef<'_>, more: &[u8]) -> Result<(), OutOfMemory>
        requires { is_file ((now (history_of self.old)).things path.text.now) ≡ true }
        ensures ok { OnOk result (self.new ≡ with_own (an_own.Extend path.entry.text.now more.now) self.old) }
        ensures err { OnErr result (self.new ≡ self.old) }
    {
        let copy = Blob::of(self.alloc, more)?;
        let path_copy = Path::of(self.alloc, path)?;
        self.changes.reserve(1)?;
        extend(self.alloc, &mut self.things, path.text, more, self.clock)?;
        self.changes
            .push(Change::ByUs {
                what: Own::Extend {
                    path: path_copy,
                    more: copy,
                },
            })
            .unwrap();
        Ok(())
    }

    // Counts an unlink, and makes it.
    pub(crate) fn unlink_counted(&mut self, path: PathRef<'_>) -> Result<bool, Failed>
        ensures done { IfOk result (λ done. Unlinks path.entry.text.now done (history_of self.old) (history_of self.new)) }
        ensures cause { HasCause self.old.calls.faults self.new.calls.faults result (λ e. Unit {0}) }
        ensures state { LeavesOwn (an_own.Unlink path.entry.text.now) result self.old self.new }
    {
        self.begin()?;
        if !self.has_contents(path.text) {
            return Ok(false);
        }
        match self.unlink_now(path) {
            Ok(()) => Ok(true),
            Err(_) => Err(self.calls.fail()),
        }
    }

    // Counts a put, and makes it.
    pub(crate) fn put_counted(
        &mut self,
        path: PathRef<'_>,
        kind: Kind,
        exec: bool,
        place: u64,
        bytes: &[u8],
    ) -> Result<bool, Failed>
        ensures done { IfOk
            result
            (λ done. Puts kind exec place bytes.now path.entry.text.now done (history_of self.old) (history_of self.new)) }
        ensures cause { HasCause self.old.calls.faults self.new.calls.faults result (λ e. Unit {0}) }
        ensures state { LeavesOwn (own_put kind exec place bytes.now path.entry.text.now) result self.old self.new }
    {
        self.begin()?;
        if !self.can_put(path, kind, exec, place, bytes) {
            return Ok(false);
        }
        match self.put_now(path, kind, exec, place, bytes) {
            Ok(()) => Ok(true),
            Err(_) => Err(self.calls.fail()),
        }
    }
}
