// A shelf in memory: its files with what was done to them, its calls and its lock.
ghost use Rattle.std.specs.Prelude.{◌≡◌, ◌-◌, ◌+◌, ◌^◌, [], ◌∷◌, ◌++◌, ◌≤◌, true, false, not, if◌then◌else◌, length, min, IfOk, IsOkAnd, OnOk, OnErr, IsTrue, is_err};
ghost use Rattle.hg_base.specs.Calls.{fails_at, failed, is_due};
ghost use Rattle.hg_base.specs.Fault.{HasCause, Rose};
ghost use Rattle.hg_base.specs.Reads.{ReadsBytes, IsWithin};
ghost use Rattle.hg_shelf.specs.History.{now};
ghost use Rattle.hg_shelf.specs.Memory.{AsksAlone, Fails, FailsAsking, FailsLocking, LocksAlone, after_call, after_due, after_own, asking, by_others, coming, fresh, giving_answer, history_of, images_of, locking, taking_answer};
ghost use Rattle.hg_shelf.specs.Reads.{size_of};
ghost use Rattle.hg_shelf.specs.Sound.{named_leaves, shown_named};
ghost use Rattle.hg_shelf.specs.declared.asked.Asked.TheVariants as an_ask;
ghost use Rattle.hg_shelf.specs.declared.asked.LockAnswer.TheVariants as an_answer;
ghost use Rattle.hg_shelf.specs.declared.outside.Outside.TheVariants as a_change;
ghost use Rattle.hg_shelf.specs.declared.outside.Step.TheVariants as a_step;

use crate::asked::{Asked, LockAnswer, LockCall};
use crate::due::make_due;
use crate::log::Log;
use crate::noting::{note_lock, note_read, note_size};
use crate::outside::{Change, Due, Outside, Step};
use crate::shelf::Shelf;
use crate::steps::{placed, removed, renamed, synced, wrote};
use hg_base::{Calls, Failed, Got, OutOfMemory, read_past, risen};
use std::alloc::Global;
use std::marker::Model;

/// A shelf that holds its files in memory and tells its moments.
#[derive(Debug, Drop)]
pub struct MemShelf {
    alloc: Global,
    log: Log,
    due: Vec<Due>,
    calls: Calls,
    away: bool,
    ours: bool,
    refusals: u64,
    asked: Vec<Asked>,
    locks: Vec<LockCall>,
}

impl Model for MemShelf {
    ghost use Rattle.hg_shelf.specs.Memory.{Memory};

    ghost Value = { Memory };

    ghost view = { λ s. record { changes = s.log; due = s.due.items; calls = s.calls; away = s.away; ours = s.ours; refusals = s.refusals; asked = s.asked.items; locks = s.locks.items } };
}

impl MemShelf {
    /// A shelf without files, with a free lock.
    pub fn new(alloc: Global) -> Result<MemShelf, OutOfMemory>
        ensures { IfOk result (λ shelf. shelf ≡ fresh) }
    {
        Ok(MemShelf {
            alloc,
            log: Log::new(alloc),
            due: Vec::new(alloc),
            calls: Calls::new(alloc),
            away: false,
            ours: false,
            refusals: 0,
            asked: Vec::new(alloc),
            locks: Vec::new(alloc),
        })
    }

    /// Another puts a file, in place of one of that name; a crash leaves it.
    pub fn place(&mut self, name: &str, bytes: &[u8]) -> Result<(), OutOfMemory>
        ensures ok { OnOk
            result
            (self.new ≡ record self.old { changes = self.old.changes ++ by_others self.old (a_change.Place name.now bytes.now) ∷ [] }) }
        ensures err { OnErr result (self.new ≡ self.old) }
    {
        let what = placed(self.alloc, name, bytes)?;
        self.log.make(Change {
            call: self.calls.made(),
            by_us: false,
            under_lock: self.ours,
            what,
        })?;
        Ok(())
    }

    /// Another takes the lock, or gives it back.
    pub fn hold(&mut self, held: bool)
        ensures { self.new ≡ record self.old { away = held } }
    {
        self.away = held;
    }

    /// Makes a call fail. Calls of the trait are counted from 0.
    pub fn fail_at(&mut self, call: u64) -> Result<(), OutOfMemory>
        ensures ok { OnOk result (self.new ≡ record self.old { calls = fails_at call self.old.calls }) }
        ensures err { OnErr result (self.new ≡ self.old) }
    {
        self.calls.fail_at(call)
    }

    /// Another makes a change just before a call.
    pub fn due(&mut self, call: u64, change: Outside) -> Result<(), OutOfMemory>
        ensures ok { OnOk result (self.new ≡ record self.old { due = self.old.due ++ record { call = call; change = change } ∷ [] }) }
        ensures err { OnErr result (self.new ≡ self.old) }
    {
        self.due.push(Due { call, change })?;
        Ok(())
    }

    /// How many calls of the trait were made.
    pub fn calls(&self) -> u64
        ensures { result ≡ self.now.calls.made }
    {
        self.calls.made()
    }

    /// What the shelf was asked so far, the first call first.
    pub fn asked(&self) -> &[Asked]
        ensures { result.now ≡ self.now.asked }
    {
        self.asked.as_slice()
    }

    /// The calls of its lock so far, the first one first.
    pub fn locks(&self) -> &[LockCall]
        ensures { result.now ≡ self.now.locks }
    {
        self.locks.as_slice()
    }

    /// What was changed, in order.
    pub(crate) fn changes(&self) -> &[Change]
        ensures { result.now ≡ self.now.changes }
    {
        self.log.changes()
    }

    /// What the shelf has its memory from.
    pub(crate) fn alloc(&self) -> Global {
        self.alloc
    }

    // Makes what is due just before the next call, and counts that call. It answers the number of it.
    fn begin(&mut self) -> Result<u64, Failed>
        ensures number { IfOk result (λ call. call ≡ self.old.calls.made) }
        ensures ok { OnOk result (self.new ≡ after_call self.old) }
        ensures failed { OnErr result (Fails self.old self.new) }
        ensures due { IsTrue (is_due self.old.calls) → is_err result ≡ true }
        ensures alone { coming self.old ≡ [] → is_err result ≡ is_due self.old.calls }
        ensures cause { HasCause self.old.calls.faults self.new.calls.faults result (λ e. Unit {0}) }
    {
        let call = self.calls.made();
        match make_due(
            self.alloc,
            &mut self.log,
            self.due.as_slice(),
            call,
            self.ours,
        ) {
            Ok(()) => {
                self.calls.begin()?;
                Ok(call)
            }
            Err(_) => Err(fail_next(&mut self.calls)),
        }
    }

    // Begins a call that asks for a size, which is noted, also where the call fails.
    fn begin_size(&mut self, name: &str) -> Result<(), Failed>
        ensures ok { OnOk result (self.new ≡ asking (an_ask.Size name.now) (after_call self.old)) }
        ensures failed { OnErr result (FailsAsking (an_ask.Size name.now) self.old self.new) }
        ensures alone { coming self.old ≡ [] → AsksAlone (an_ask.Size name.now) (is_err result) self.old self.new }
        ensures due { IsTrue (is_due self.old.calls) → is_err result ≡ true }
        ensures cause { HasCause self.old.calls.faults self.new.calls.faults result (λ e. Unit {0}) }
    {
        match note_size(self.alloc, &mut self.asked, name) {
            Ok(()) => {
                self.begin()?;
                Ok(())
            }
            Err(_) => Err(fail_next(&mut self.calls)),
        }
    }

    // Begins a call that asks for bytes, which is noted, also where the call fails.
    fn begin_read(&mut self, name: &str, place: u64, length: u64) -> Result<(), Failed>
        ensures ok { OnOk result (self.new ≡ asking (an_ask.Read name.now place length) (after_call self.old)) }
        ensures failed { OnErr result (FailsAsking (an_ask.Read name.now place length) self.old self.new) }
        ensures alone { coming self.old ≡ [] → AsksAlone (an_ask.Read name.now place length) (is_err result) self.old self.new }
        ensures due { IsTrue (is_due self.old.calls) → is_err result ≡ true }
        ensures cause { HasCause self.old.calls.faults self.new.calls.faults result (λ e. Unit {0}) }
    {
        match note_read(self.alloc, &mut self.asked, name, place, length) {
            Ok(()) => {
                self.begin()?;
                Ok(())
            }
            Err(_) => Err(fail_next(&mut self.calls)),
        }
    }

    // Begins a call of the lock. Where it fails that is noted, unless there is no memory.
    fn begin_lock(&mut self, failing: LockAnswer) -> Result<(), Failed>
        ensures ok { OnOk result (self.new ≡ after_call self.old) }
        ensures failed { OnErr result (FailsLocking failing self.old self.new) }
        ensures alone { coming self.old ≡ [] → is_err result ≡ is_due self.old.calls }
        ensures due { IsTrue (is_due self.old.calls) → is_err result ≡ true }
        ensures cause { HasCause self.old.calls.faults self.new.calls.faults result (λ e. Unit {0}) }
    {
        match self.begin() {
            Ok(_) => Ok(()),
            Err(failed) => {
                let _ = note_lock(&mut self.locks, failing, &self.log);
                Err(failed)
            }
        }
    }

    // Does a call of the lock, which comes to this or fails. Without memory to note it it fails.
    fn do_lock(&mut self, answer: LockAnswer, failing: LockAnswer) -> Result<(), Failed>
        ensures ok { OnOk result (self.new ≡ locking answer (after_call self.old)) }
        ensures failed { OnErr result (FailsLocking failing self.old self.new) }
        ensures alone { coming self.old ≡ []
            → LocksAlone (if is_err result then failing else answer) (is_err result) self.old self.new }
        ensures due { IsTrue (is_due self.old.calls) → is_err result ≡ true }
        ensures cause { HasCause self.old.calls.faults self.new.calls.faults result (λ e. Unit {0}) }
    {
        self.begin_lock(failing)?;
        match note_lock(&mut self.locks, answer, &self.log) {
            Ok(()) => Ok(()),
            Err(_) => Err(self.calls.fail()),
        }
    }

    // A call of the caller's that does a step.
    fn act(&mut self, what: Result<Step, OutOfMemory>) -> Result<(), Failed>
        ensures acted { OnOk result (IsOkAnd what (λ step. self.new ≡ after_own step self.old)) }
        ensures failed { OnErr result (Fails self.old self.new) }
        ensures due { IsTrue (is_due self.old.calls) → is_err result ≡ true }
        ensures cause { HasCause self.old.calls.faults self.new.calls.faults result (λ e. Unit {0}) }
    {
        let call = self.begin()?;
        match note(&mut self.log, call, self.ours, what) {
            Ok(()) => Ok(()),
            Err(_) => Err(self.calls.fail()),
        }
    }
}

// A call that fails, and counts.
fn fail_next(calls: &mut Calls) -> Failed
    ensures state { calls.new ≡ failed calls.old }
    ensures later { calls.old.faults ≤ calls.new.faults }
    ensures rose { Rose calls.old.faults calls.new.faults }
{
    match calls.begin() {
        Ok(()) => calls.fail(),
        Err(failed) => failed,
    }
}

// Notes a step of the caller's.
fn note(
    log: &mut Log,
    call: u64,
    ours: bool,
    what: Result<Step, OutOfMemory>,
) -> Result<(), OutOfMemory>
    ensures ok { OnOk
        result
        (IsOkAnd what (λ step. log.new ≡ log.old ++ record { call = call; by_us = true; under_lock = ours; what = step } ∷ [])) }
    ensures err { OnErr result (log.new ≡ log.old) }
{
    let what = what?;
    log.make(Change {
        call,
        by_us: true,
        under_lock: ours,
        what,
    })?;
    Ok(())
}

impl Shelf for MemShelf {
    ghost history = { history_of };

    ghost images = { images_of };

    ghost faults = { λ s. s.calls.faults };

    ghost held = { λ s. s.refusals };

    // A call fails where it was told to, or where there is no memory, and what is due just before it is made first.
    fn size(&mut self, name: &str) -> Result<Option<u64>, Failed>
        ensures found { IfOk result (λ size. size ≡ size_of ((now (history_of (after_due self.old))).files name.now)) }
        ensures cause { HasCause self.old.calls.faults self.new.calls.faults result (λ e. Unit {0}) }
        ensures due { IsTrue (is_due self.old.calls) → is_err result ≡ true }
        ensures answered { OnOk result (self.new ≡ asking (an_ask.Size name.now) (after_call self.old)) }
        ensures failed { OnErr result (FailsAsking (an_ask.Size name.now) self.old self.new) }
        ensures alone { coming self.old ≡ [] → AsksAlone (an_ask.Size name.now) (is_err result) self.old self.new }
    {
        self.begin_size(name)?;
        Ok(self.log.get(name).map(|bytes| bytes.len() as u64))
    }

    fn read_at(&mut self, name: &str, place: u64, buf: &mut [u8]) -> Result<Got, Failed>
        ensures found { IfOk result (λ got. ReadsBytes ((now (history_of (after_due self.old))).files name.now) place buf.old buf.new got) }
        ensures fit { IfOk result (λ got. IsWithin (length buf.old) got) }
        ensures cause { HasCause self.old.calls.faults self.new.calls.faults result (λ e. Unit {0}) }
        ensures due { IsTrue (is_due self.old.calls) → is_err result ≡ true }
        ensures answered { OnOk result (self.new ≡ asking (an_ask.Read name.now place (length buf.old)) (after_call self.old)) }
        ensures failed { OnErr result (FailsAsking (an_ask.Read name.now place (length buf.old)) self.old self.new) }
        ensures alone { coming self.old ≡ [] → AsksAlone (an_ask.Read name.now place (length buf.old)) (is_err result) self.old self.new }
    {
        self.begin_read(name, place, buf.len() as u64)?;
        match self.log.get(name) {
            Some(bytes) => Ok(Got::Bytes(read_past(bytes, place, buf))),
            None => Ok(Got::Absent),
        }
    }

    fn write_at(&mut self, name: &str, place: u64, bytes: &[u8]) -> Result<(), Failed>
        ensures due { IsTrue (is_due self.old.calls) → is_err result ≡ true }
        ensures acted { OnOk result (self.new ≡ after_own (a_step.Wrote name.now place bytes.now) self.old) }
        ensures failed { OnErr result (Fails self.old self.new) }
        ensures cause { HasCause self.old.calls.faults self.new.calls.faults result (λ e. Unit {0}) }
    {
        let what = wrote(self.alloc, name, place, bytes);
        self.act(what)
    }

    fn sync(&mut self, name: &str) -> Result<(), Failed>
        ensures due { IsTrue (is_due self.old.calls) → is_err result ≡ true }
        ensures acted { OnOk result (self.new ≡ after_own (a_step.Synced name.now) self.old) }
        ensures failed { OnErr result (Fails self.old self.new) }
        ensures cause { HasCause self.old.calls.faults self.new.calls.faults result (λ e. Unit {0}) }
    {
        let what = synced(self.alloc, name);
        self.act(what)
    }

    fn rename(&mut self, from: &str, to: &str) -> Result<(), Failed>
        ensures due { IsTrue (is_due self.old.calls) → is_err result ≡ true }
        ensures acted { OnOk result (self.new ≡ after_own (a_step.Renamed from.now to.now) self.old) }
        ensures failed { OnErr result (Fails self.old self.new) }
        ensures cause { HasCause self.old.calls.faults self.new.calls.faults result (λ e. Unit {0}) }
    {
        let what = renamed(self.alloc, from, to);
        self.act(what)
    }

    fn sync_names(&mut self) -> Result<(), Failed>
        ensures due { IsTrue (is_due self.old.calls) → is_err result ≡ true }
        ensures acted { OnOk result (self.new ≡ after_own a_step.SyncedNames self.old) }
        ensures failed { OnErr result (Fails self.old self.new) }
        ensures cause { HasCause self.old.calls.faults self.new.calls.faults result (λ e. Unit {0}) }
    {
        self.act(Ok(Step::SyncedNames))
    }

    fn remove(&mut self, name: &str) -> Result<(), Failed>
        ensures due { IsTrue (is_due self.old.calls) → is_err result ≡ true }
        ensures acted { OnOk result (self.new ≡ after_own (a_step.Removed name.now) self.old) }
        ensures failed { OnErr result (Fails self.old self.new) }
        ensures cause { HasCause self.old.calls.faults self.new.calls.faults result (λ e. Unit {0}) }
    {
        let what = removed(self.alloc, name);
        self.act(what)
    }

    fn lock(&mut self) -> Result<bool, Failed>
        ensures due { IsTrue (is_due self.old.calls) → is_err result ≡ true }
        ensures taken { IfOk result (λ taken. taken ≡ not self.old.away) }
        ensures answered { IfOk
            result
            (λ taken. self.new
            ≡ (if taken
            then record (locking an_answer.Taken (after_call self.old)) { ours = true }
            else record (locking an_answer.Refused (after_call self.old)) { refusals = min (self.old.refusals + 1) (2 ^ 64 - 1) })) }
        ensures failed { OnErr result (FailsLocking an_answer.NotTaken self.old self.new) }
        ensures alone { coming self.old ≡ [] → LocksAlone (taking_answer result) (is_err result) self.old self.new }
        ensures cause { HasCause self.old.calls.faults self.new.calls.faults result (λ e. Unit {0}) }
    {
        if self.away {
            self.do_lock(LockAnswer::Refused, LockAnswer::NotTaken)?;
            self.refusals = risen(self.refusals);
            return Ok(false);
        }
        self.do_lock(LockAnswer::Taken, LockAnswer::NotTaken)?;
        self.ours = true;
        Ok(true)
    }

    fn unlock(&mut self) -> Result<(), Failed>
        ensures due { IsTrue (is_due self.old.calls) → is_err result ≡ true }
        ensures answered { OnOk result (self.new ≡ record (locking an_answer.GivenBack (after_call self.old)) { ours = false }) }
        ensures failed { OnErr result (FailsLocking an_answer.NotGivenBack self.old self.new) }
        ensures alone { coming self.old ≡ [] → LocksAlone (giving_answer result) (is_err result) self.old self.new }
        ensures cause { HasCause self.old.calls.faults self.new.calls.faults result (λ e. Unit {0}) }
    {
        self.do_lock(LockAnswer::GivenBack, LockAnswer::NotGivenBack)?;
        self.ours = false;
        Ok(())
    }

    ghost named_leaves = { named_leaves };

    ghost shown_named = { shown_named };
}
