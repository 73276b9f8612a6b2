//! What was taken of a request.

ghost use Rattle.std.specs.Prelude.{◌≡◌, ◌+◌, ◌≤◌, ◌<◌, [], length, take, OnOk, IfErr};
ghost use Rattle.hg_server.specs.Steps.{Takes};
ghost use Rattle.hg_server.specs.Failing.{FailsAs};
ghost use Rattle.hg_server.specs.declared.fault.ServeFault.TheVariants as a_fault;

use crate::fault::ServeFault;
use hg_stream::Source;
use std::alloc::Global;
use std::marker::Model;

/// A buffer that grows as it is filled; contracts see what was taken.
#[derive(Drop)]
pub(crate) struct Part {
    room: Vec<u8>,
    len: usize,
}

impl Model for Part {
    ghost use Rattle.std.specs.Prelude.{ℕ, List, ◌≤◌, take, length};

    ghost Value = { List ℕ };

    ghost view = { λ p. take p.len p.room.items };

    ghost invariant = { λ p. p.len ≤ length p.room.items };
}

// Makes a buffer at least so long; what is in it stays.
fn widen(room: &mut Vec<u8>, len: usize) -> Result<(), ServeFault>
    ensures long { OnOk result (len ≤ length room.new.items) }
    ensures kept { take (length room.old.items) room.new.items ≡ room.old.items }
    ensures cause { IfErr result (λ fault. fault ≡ a_fault.OutOfMemory) }
{
    if room.len() < len {
        room.resize(len, 0)?;
    }
    Ok(())
}

impl Part {
    /// Nothing is taken yet.
    pub(crate) fn new(alloc: Global) -> Part
        ensures { result ≡ [] }
    {
        Part {
            room: Vec::new(alloc),
            len: 0,
        }
    }

    /// What was taken.
    pub(crate) fn bytes(&self) -> &[u8]
        ensures { result.now ≡ self.now }
    {
        &self.room[..self.len]
    }

    /// Takes at least one more byte, and at most so many, and answers whether there was one.
    pub(crate) fn take<I: Source>(&mut self, most: usize, input: &mut I) -> Result<bool, ServeFault>
        requires some { 0 < most }
        requires few { length self.old + most ≤ 1048591 }
        ensures takes { Takes self.old self.new (I.left input.old) (I.left input.new) most result }
        ensures cause { FailsAs (I.faults input.old) (I.faults input.new) result a_fault.InFailed }
    {
        let end = self.len + most;
        widen(&mut self.room, end)?;
        match input.take(&mut self.room[self.len..end]) {
            Ok(n) => {
                self.len += n;
                Ok(n > 0)
            }
            Err(_) => Err(ServeFault::InFailed),
        }
    }
}
