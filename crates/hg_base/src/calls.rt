//! The calls of a device in memory: which are to fail, how many were made, and how many failed.

ghost use Rattle.std.specs.Prelude.{◌≡◌, ◌+◌, ◌-◌, ◌^◌, ◌≤◌, min, OnOk, OnErr, is_err};
ghost use Rattle.hg_base.specs.Calls.{unmade, fails_at, is_due, answered, failed};
ghost use Rattle.hg_base.specs.Fault.{HasCause, Rose};

use crate::fault::{Failed, OutOfMemory, risen};
use std::alloc::Global;
use std::marker::Model;

/// What a device in memory counts of its calls, and which of them it was told to fail.
#[derive(Debug, Drop)]
pub struct Calls {
    failing: Vec<u64>,
    made: u64,
    faults: u64,
}

impl Model for Calls {
    ghost use Rattle.hg_base.specs.Calls.{Counted};

    ghost Value = { Counted };

    ghost view = { λ c. record { failing = c.failing.items; made = c.made; faults = c.faults } };
}

impl Calls {
    pub fn new(alloc: Global) -> Calls
        ensures { result ≡ unmade }
    {
        Calls {
            failing: Vec::new(alloc),
            made: 0,
            faults: 0,
        }
    }

    /// Makes a call fail; calls are counted from 0.
    pub fn fail_at(&mut self, call: u64) -> Result<(), OutOfMemory>
        ensures ok { OnOk result (self.new ≡ fails_at call self.old) }
        ensures err { OnErr result (self.new ≡ self.old) }
    {
        self.failing.push(call)?;
        Ok(())
    }

    /// How many calls were made.
    pub fn made(&self) -> u64
        ensures { result ≡ self.now.made }
    {
        self.made
    }

    /// Counts a call, which fails where it was told to.
    pub fn begin(&mut self) -> Result<(), Failed>
        ensures due { is_err result ≡ is_due self.old }
        ensures ok { OnOk result (self.new ≡ answered self.old) }
        ensures err { OnErr result (self.new ≡ failed self.old) }
        ensures cause { HasCause self.old.faults self.new.faults result (λ e. Unit {0}) }
    {
        let call = self.made;
        self.made = call.saturating_add(1);
        if self.failing.contains(&call) {
            self.faults = risen(self.faults);
            return Err(Failed);
        }
        Ok(())
    }

    /// Counts a failure of the call that was begun last.
    pub fn fail(&mut self) -> Failed
        ensures counted { self.new ≡ record self.old { faults = min (self.old.faults + 1) (2 ^ 64 - 1) } }
        ensures later { self.old.faults ≤ self.new.faults }
        ensures rose { Rose self.old.faults self.new.faults }
    {
        self.faults = risen(self.faults);
        Failed
    }
}
