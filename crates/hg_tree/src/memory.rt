//! A working copy in memory, for tests.

ghost use Rattle.std.specs.Prelude.{◌≡◌, ◌≤◌, ◌⊎◌, true, ◌++◌, ◌∷◌, [], false, length, option_map, IsTrue, OnOk, OnErr, IfOk, IfErr, IfSome, is_ok, is_err, is_some, slice_get};
ghost use Rattle.hg_base.specs.Calls.{unmade, failed, fails_at, is_due};
ghost use Rattle.hg_base.specs.Fault.{HasCause, Rose};
ghost use Rattle.hg_base.specs.Reads.{IsWithin, ReadsBytes};
ghost use Rattle.hg_tree.specs.declared.asked.Outside.TheVariants as a_change;
ghost use Rattle.hg_tree.specs.declared.asked.Asked.TheVariants as an_ask;
ghost use Rattle.hg_tree.specs.declared.fault.TreeFault.TheVariants as a_fault;
ghost use Rattle.hg_tree.specs.Moment.{AreFit, IsPlain, Lists, bytes_at, is_file, is_short_thing, stat_at};
ghost use Rattle.hg_tree.specs.History.{AreFormed, Asks, Extends, Passes, now};
ghost use Rattle.hg_tree.specs.Change.{by_others};
ghost use Rattle.hg_tree.specs.Memory.{Fails, LeavesListed, LeavesOwn, LeavesRead, Stops, after_call, after_due, after_failure, coming, coming_of, history_of, noting, own_put, with_own};
ghost use Rattle.hg_tree.specs.Coming.{due_at, is_short_change};
ghost use Rattle.hg_tree.specs.Own.{CanPut, CannotPut, Puts, Unlinks, put_thing};
ghost use Rattle.hg_tree.specs.declared.asked.Own.TheVariants as an_own;

use crate::asked::{Asked, Change, Outside, Own};
use crate::coming::Coming;
use crate::device::Tree;
use crate::fault::TreeFault;
use crate::listing::{is_listed, names_in};
use crate::name::Name;
use crate::own::{extend, is_clear, is_puttable_at, make, thing_of, unlink};
use crate::thing::{Placed, Thing, bytes_of, stat_of};
use crate::things::{remove, settle};
use hg_base::{Blob, Calls, Failed, Got, Kind, OutOfMemory, Path, PathRef, Stat, Time, read_past};
use std::alloc::Global;
use std::collections::BTreeMap;
use std::marker::Model;

/// A working copy in memory. It tells its moments: an empty one, and one for each change: a thing that was placed or taken away, or the clock
/// that was set.
///
/// What stands now, and the clock, is kept beside the list of changes, so that a look doesn't go through that list.
#[derive(Debug, Drop)]
pub struct MemTree {
    pub(crate) alloc: Global,
    pub(crate) start: Time,
    pub(crate) changes: Vec<Change>,
    pub(crate) due: Coming,
    pub(crate) asked: Vec<Asked>,
    pub(crate) calls: Calls,
    pub(crate) clock: Time,
    pub(crate) things: BTreeMap<String, Placed>,
}

impl Model for MemTree {
    ghost use Rattle.std.specs.BTreeMap.{get_by_text};
    ghost use Rattle.hg_tree.specs.Memory.{Memory, IsKept};

    ghost Value = { Memory };

    ghost view = { λ m. record { start = m.start; changes = m.changes.items; due = m.due; asked = m.asked.items; calls = m.calls } };

    ghost invariant = { λ m. IsKept m.start m.changes.items m.clock (get_by_text m.things) };
}

impl MemTree {
    /// An empty working copy whose clock stands at that time.
    pub fn new(alloc: Global, clock: Time) -> Result<MemTree, OutOfMemory>
        ensures { IfOk
            result
            (λ tree. tree ≡ record { start = clock; changes = []; due = []; asked = []; calls = unmade }) }
    {
        Ok(MemTree {
            alloc,
            start: clock,
            changes: Vec::new(alloc),
            due: Coming::new(alloc),
            asked: Vec::new(alloc),
            calls: Calls::new(alloc),
            clock,
            things: BTreeMap::new(alloc),
        })
    }

    /// Places a thing with the time of its last modification, or leaves all as it was.
    ///
    /// Those ancestors where no directory is become directories of the same time, and nothing else gets another time. A directory
    /// over a directory keeps what is in it; any other thing over a directory takes away all that is below. A link's target has
    /// at most 4,095 bytes.
    pub fn place(&mut self, path: PathRef<'_>, thing: Thing, mtime: Time) -> Result<(), OutOfMemory>
        requires { IsTrue (is_short_thing thing) }
        ensures ok { OnOk
            result
            (self.new ≡ record self.old { changes = self.old.changes ++ by_others (a_change.Place path.entry.text.now thing mtime) ∷ [] }) }
        ensures err { OnErr result (self.new ≡ self.old) }
    {
        let copy = thing.copy(self.alloc)?;
        let path_copy = Path::of(self.alloc, path)?;
        self.changes.reserve(1)?;
        settle(
            self.alloc,
            &mut self.things,
            path,
            Placed { thing: copy, mtime },
        )?;
        self.changes
            .push(Change::ByOthers {
                what: Outside::Place {
                    path: path_copy,
                    thing,
                    mtime,
                },
            })
            .unwrap();
        Ok(())
    }

    /// Takes away what stands at the path and below it, or leaves all as it was.
    pub fn take(&mut self, path: PathRef<'_>) -> Result<(), OutOfMemory>
        ensures ok { OnOk
            result
            (self.new ≡ record self.old { changes = self.old.changes ++ by_others (a_change.Take path.entry.text.now) ∷ [] }) }
        ensures err { OnErr result (self.new ≡ self.old) }
    {
        let path_copy = Path::of(self.alloc, path)?;
        self.changes.reserve(1)?;
        remove(&mut self.things, path.text);
        self.changes
            .push(Change::ByOthers {
                what: Outside::Take { path: path_copy },
            })
            .unwrap();
        Ok(())
    }

    /// Sets the clock, also back, and leaves what stands there; or leaves all as it was.
    pub fn set_clock(&mut self, clock: Time) -> Result<(), OutOfMemory>
        ensures ok { OnOk result (self.new ≡ record self.old { changes = self.old.changes ++ by_others (a_change.Clock clock) ∷ [] }) }
        ensures err { OnErr result (self.new ≡ self.old) }
    {
        self.changes.reserve(1)?;
        self.clock = clock;
        self.changes
            .push(Change::ByOthers {
                what: Outside::Clock { to: clock },
            })
            .unwrap();
        Ok(())
    }

    /// Makes the call of that number fail; calls are counted from 0.
    pub fn fail_at(&mut self, call: u64) -> Result<(), OutOfMemory>
        ensures ok { OnOk result (self.new ≡ record self.old { calls = fails_at call self.old.calls }) }
        ensures err { OnErr result (self.new ≡ self.old) }
    {
        self.calls.fail_at(call)
    }

    /// Another makes a change just before a call.
    pub fn due(&mut self, call: u64, change: Outside) -> Result<(), OutOfMemory>
        requires { IsTrue (is_short_change change) }
        ensures ok { OnOk result (self.new ≡ record self.old { due = self.old.due ++ record { call = call; change = change } ∷ [] }) }
        ensures err { OnErr result (self.new ≡ self.old) }
    {
        self.due.push(call, change)
    }

    // Makes what is due at a call by the one of that number.
    fn make_one(&mut self, index: usize, call: u64) -> Result<(), OutOfMemory>
        ensures ok { OnOk
            result
            (self.new ≡ record self.old { changes = self.old.changes ++ due_at call (slice_get self.old.due index) }) }
        ensures err { OnErr result (self.new ≡ self.old) }
        ensures there { OnErr result (length (due_at call (slice_get self.old.due index)) ≡ 1) }
    {
        match self.due.at(self.alloc, index, call)? {
            Some(Outside::Place { path, thing, mtime }) => self.place(path.as_ref(), thing, mtime),
            Some(Outside::Take { path }) => self.take(path.as_ref()),
            Some(Outside::Clock { to }) => self.set_clock(to),
            None => Ok(()),
        }
    }

    fn due_len(&self) -> usize
        ensures { result ≡ length self.now.due }
    {
        self.due.len()
    }

    // Makes what is due at a call.
    fn make_due(&mut self, call: u64) -> Result<(), OutOfMemory>
        ensures ok { OnOk result (self.new ≡ record self.old { changes = self.old.changes ++ coming_of call self.old.due }) }
        ensures err { OnErr result (Stops call self.old self.new) }
    {
        for index in 0..self.due_len() {
            self.make_one(index, call)?;
        }
        Ok(())
    }

    // Makes what is due just before the next call, and counts that call.
    pub(crate) fn begin(&mut self) -> Result<(), Failed>
        ensures ok { OnOk result (self.new ≡ after_call self.old) }
        ensures failed { OnErr result (Fails self.old self.new) }
        ensures due { IsTrue (is_due self.old.calls) → is_err result ≡ true }
        ensures alone { coming self.old ≡ [] → is_err result ≡ is_due self.old.calls }
        ensures cause { HasCause self.old.calls.faults self.new.calls.faults result (λ e. Unit {0}) }
    {
        let call = self.calls.made();
        match self.make_due(call) {
            Ok(()) => self.calls.begin(),
            Err(_) => Err(fail_next(&mut self.calls)),
        }
    }

    /// What the tree was asked so far, the first call first.
    pub fn asked(&self) -> &[Asked]
        ensures { result.now ≡ self.now.asked }
    {
        self.asked.as_slice()
    }

    fn look(&self, path: &str) -> Option<Stat>
        ensures found { result ≡ stat_at (now (history_of self.now)) path.now }
        ensures fit { IfSome result IsPlain }
        ensures formed { AreFormed (history_of self.now) }
    {
        match self.things.get(path) {
            Some(placed) => Some(stat_of(placed)),
            None => None,
        }
    }

    fn time(&self) -> Time
        ensures found { result ≡ (now (history_of self.now)).clock }
        ensures formed { AreFormed (history_of self.now) }
    {
        self.clock
    }

    pub(crate) fn bytes(&self, path: &str) -> Option<&[u8]>
        ensures found { option_map (λ bytes. bytes.now) result ≡ bytes_at (now (history_of self.now)) path.now }
        ensures formed { AreFormed (history_of self.now) }
    {
        match self.things.get(path) {
            Some(placed) => bytes_of(&placed.thing),
            None => None,
        }
    }

    // Notes that a path is read.
    fn note_read(&mut self, path: PathRef<'_>) -> Result<(), OutOfMemory>
        ensures ok { OnOk result (self.new ≡ noting (an_ask.Read path.entry.text.now) self.old) }
        ensures err { OnErr result (self.new ≡ self.old) }
    {
        let path = Path::of(self.alloc, path)?;
        self.asked.push(Asked::Read { path })?;
        Ok(())
    }

    // Counts a read and notes it, also one that fails.
    fn begin_read(&mut self, path: PathRef<'_>) -> Result<(), Failed>
        ensures state { LeavesRead path.entry.text.now result self.old self.new }
        ensures cause { HasCause self.old.calls.faults self.new.calls.faults result (λ e. Unit {0}) }
    {
        match self.note_read(path) {
            Ok(()) => self.begin(),
            Err(_) => Err(self.unnoted()),
        }
    }

    // A call for whose note there is no memory is counted as one that failed.
    fn unnoted(&mut self) -> Failed
        ensures state { Fails self.old self.new ⊎ ((is_due self.old.calls ≡ false) × (self.new ≡ after_failure self.old)) }
        ensures later { self.old.calls.faults ≤ self.new.calls.faults }
        ensures rose { Rose self.old.calls.faults self.new.calls.faults }
    {
        match self.begin() {
            Ok(()) => self.calls.fail(),
            Err(fault) => fault,
        }
    }

    // Notes that a directory is listed.
    fn note(&mut self, dir: Option<PathRef<'_>>) -> Result<(), OutOfMemory>
        ensures ok { OnOk result (self.new ≡ noting (an_ask.List (option_map (λ d. d.text.now) dir.entry)) self.old) }
        ensures err { OnErr result (self.new ≡ self.old) }
    {
        let dir = copy_of(self.alloc, dir)?;
        self.asked.push(Asked::List { dir })?;
        Ok(())
    }

    // Counts a listing and notes it, also one that fails.
    fn begin_listing(&mut self, dir: Option<PathRef<'_>>) -> Result<(), TreeFault>
        ensures state { LeavesListed (option_map (λ d. d.text.now) dir.entry) result self.old self.new }
        ensures cause { HasCause self.old.calls.faults self.new.calls.faults result (λ e. e ≡ a_fault.Failed) }
        ensures still { IfErr result (λ e. (e ≡ a_fault.Failed) ⊎ (self.new.calls.faults ≡ self.old.calls.faults)) }
    {
        self.note(dir)?;
        Ok(self.begin()?)
    }

    fn names(
        &self,
        alloc: Global,
        dir: Option<PathRef<'_>>,
    ) -> Result<Option<Vec<Name>>, OutOfMemory>
        ensures found { IfOk result (λ found. Lists (option_map (λ d. d.text.now) dir.entry) (option_map (λ v. v.items) found) (now (history_of self.now))) }
        ensures fit { IfOk result (λ found. IfSome found (λ names. AreFit (option_map (λ d. d.text.now) dir.entry) names.items)) }
        ensures formed { OnOk result (AreFormed (history_of self.now)) }
    {
        if !is_listed(&self.things, dir) {
            return Ok(None);
        }
        let names = names_in(alloc, &self.things, dir)?;
        Ok(Some(names))
    }
}

fn copy_of(alloc: Global, dir: Option<PathRef<'_>>) -> Result<Option<Path>, OutOfMemory>
    ensures { IfOk result (λ copy. copy ≡ option_map (λ d. d.text.now) dir.entry) }
{
    match dir {
        Some(dir) => {
            let path = Path::of(alloc, dir)?;
            Ok(Some(path))
        }
        None => Ok(None),
    }
}

impl Tree for MemTree {
    ghost use Rattle.hg_tree.specs.Memory.{history_of};

    ghost history = { history_of };

    ghost faults = { λ m. m.calls.faults };

    // A call fails where it was told to, or where there is no memory for what is due, and only counts.
    fn stat(&mut self, path: PathRef<'_>) -> Result<Option<Stat>, Failed>
        ensures passes { Passes (history_of self.old) (history_of self.new) }
        ensures asked { Asks (is_ok result) [] (history_of self.old) (history_of self.new) }
        ensures found { IfOk result (λ found. found ≡ stat_at (now (history_of (after_due self.old))) path.entry.text.now) }
        ensures fit { IfOk result (λ found. IfSome found IsPlain) }
        ensures formed { OnOk result (AreFormed (history_of self.new)) }
        ensures cause { HasCause self.old.calls.faults self.new.calls.faults result (λ e. Unit {0}) }
        ensures due { IsTrue (is_due self.old.calls) → is_err result ≡ true }
        ensures alone { coming self.old ≡ [] → is_err result ≡ is_due self.old.calls }
        ensures answered { OnOk result (self.new ≡ after_call self.old) }
        ensures failed { OnErr result (Fails self.old self.new) }
    {
        self.begin()?;
        Ok(self.look(path.text))
    }

    // A listing is counted and noted, and changes nothing else.
    fn list(
        &mut self,
        alloc: Global,
        dir: Option<PathRef<'_>>,
    ) -> Result<Option<Vec<Name>>, TreeFault>
        ensures passes { Passes (history_of self.old) (history_of self.new) }
        ensures asked { Asks
            (is_ok result)
            ((an_ask.List (option_map (λ d. d.text.now) dir.entry)) ∷ [])
            (history_of self.old)
            (history_of self.new) }
        ensures found { IfOk
            result
            (λ found. Lists (option_map (λ d. d.text.now) dir.entry) (option_map (λ v. v.items) found) (now (history_of (after_due self.old)))) }
        ensures fit { IfOk result (λ found. IfSome found (λ names. AreFit (option_map (λ d. d.text.now) dir.entry) names.items)) }
        ensures formed { OnOk result (AreFormed (history_of self.new)) }
        ensures cause { HasCause self.old.calls.faults self.new.calls.faults result (λ e. e ≡ a_fault.Failed) }
        ensures still { IfErr result (λ e. (e ≡ a_fault.Failed) ⊎ (self.new.calls.faults ≡ self.old.calls.faults)) }
        ensures state { LeavesListed (option_map (λ d. d.text.now) dir.entry) result self.old self.new }
    {
        self.begin_listing(dir)?;
        let names = self.names(alloc, dir)?;
        Ok(names)
    }

    // A read is counted and noted, and changes nothing else.
    fn read(&mut self, path: PathRef<'_>, place: u64, buf: &mut [u8]) -> Result<Got, Failed>
        ensures passes { Passes (history_of self.old) (history_of self.new) }
        ensures asked { Asks (is_ok result) (an_ask.Read path.entry.text.now ∷ []) (history_of self.old) (history_of self.new) }
        ensures found { IfOk
            result
            (λ got. ReadsBytes (bytes_at (now (history_of (after_due self.old))) path.entry.text.now) place buf.old buf.new got) }
        ensures fit { IfOk result (λ got. IsWithin (length buf.old) got) }
        ensures formed { OnOk result (AreFormed (history_of self.new)) }
        ensures cause { HasCause self.old.calls.faults self.new.calls.faults result (λ e. Unit {0}) }
        ensures state { LeavesRead path.entry.text.now result self.old self.new }
    {
        self.begin_read(path)?;
        match self.bytes(path.text) {
            Some(bytes) => Ok(Got::Bytes(read_past(bytes, place, buf))),
            None => Ok(Got::Absent),
        }
    }

    // The clock is asked as a path is.
    fn now(&mut self) -> Result<Time, Failed>
        ensures passes { Passes (history_of self.old) (history_of self.new) }
        ensures asked { Asks (is_ok result) [] (history_of self.old) (history_of self.new) }
        ensures found { IfOk result (λ time. time ≡ (now (history_of (after_due self.old))).clock) }
        ensures formed { OnOk result (AreFormed (history_of self.new)) }
        ensures cause { HasCause self.old.calls.faults self.new.calls.faults result (λ e. Unit {0}) }
        ensures due { IsTrue (is_due self.old.calls) → is_err result ≡ true }
        ensures alone { coming self.old ≡ [] → is_err result ≡ is_due self.old.calls }
        ensures answered { OnOk result (self.new ≡ after_call self.old) }
        ensures failed { OnErr result (Fails self.old self.new) }
    {
        self.begin()?;
        Ok(self.time())
    }

    // What was unlinked is a step of the caller's, behind what was due.
    fn unlink(&mut self, path: PathRef<'_>) -> Result<bool, Failed>
        ensures past { Extends (history_of self.old) (history_of self.new) }
        ensures asked { Asks (is_ok result) [] (history_of self.old) (history_of self.new) }
        ensures done { IfOk result (λ done. Unlinks path.entry.text.now done (history_of self.old) (history_of self.new)) }
        ensures failed { OnErr result (Passes (history_of self.old) (history_of self.new)) }
        ensures formed { AreFormed (history_of self.new) }
        ensures cause { HasCause self.old.calls.faults self.new.calls.faults result (λ e. Unit {0}) }
        ensures state { LeavesOwn (an_own.Unlink path.entry.text.now) result self.old self.new }
    {
        let result = self.unlink_counted(path);
        self.stays_formed();
        result
    }

    // So is what was put.
    fn put(
        &mut self,
        path: PathRef<'_>,
        kind: Kind,
        exec: bool,
        place: u64,
        bytes: &[u8],
    ) -> Result<bool, Failed>
        ensures past { Extends (history_of self.old) (history_of self.new) }
        ensures asked { Asks (is_ok result) [] (history_of self.old) (history_of self.new) }
        ensures done { IfOk
            result
            (λ done. Puts kind exec place bytes.now path.entry.text.now done (history_of self.old) (history_of self.new)) }
        ensures failed { OnErr result (Passes (history_of self.old) (history_of self.new)) }
        ensures formed { AreFormed (history_of self.new) }
        ensures cause { HasCause self.old.calls.faults self.new.calls.faults result (λ e. Unit {0}) }
        ensures state { LeavesOwn (own_put kind exec place bytes.now path.entry.text.now) result self.old self.new }
    {
        let result = self.put_counted(path, kind, exec, place, bytes);
        self.stays_formed();
        result
    }
}

// Counts a call that fails.
fn fail_next(calls: &mut Calls) -> Failed
    ensures state { calls.new ≡ failed calls.old }
    ensures later { calls.old.faults ≤ calls.new.faults }
    ensures rose { Rose calls.old.faults calls.new.faults }
{
    match calls.begin() {
        Ok(()) => calls.fail(),
        Err(fault) => fault,
    }
}
