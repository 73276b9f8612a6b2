//! What was taken from a source at once.

ghost use Rattle.std.specs.Prelude.{◌≡◌, ◌≤◌, ◌<◌, ◌++◌, [], length, drop, option_map, IfOk, IfSome, OnErr, MatchBool};
ghost use Rattle.hg_base.specs.Fault.{HasCause};

use hg_base::{Failed, OutOfMemory};
use hg_stream::Source;
use std::alloc::Global;
use std::marker::Model;

/// A buffer that a source fills; contracts see what of it isn't used up.
#[derive(Drop)]
pub(crate) struct Piece {
    room: Vec<u8>,
    at: usize,
    end: usize,
}

impl Model for Piece {
    ghost use Rattle.std.specs.Prelude.{ℕ, List, ◌≤◌, ◌<◌, ◌-◌, take, drop, length};

    ghost Value = { List ℕ };

    ghost view = { λ p. take (p.end - p.at) (drop p.at p.room.items) };

    ghost invariant = { λ p. record {
      order : p.at ≤ p.end;
      within : p.end ≤ length p.room.items;
      some : 0 < length p.room.items;
      few : length p.room.items ≤ 65536;
    } };
}

impl Piece {
    /// An empty buffer for so many bytes.
    pub(crate) fn new(alloc: Global, room: usize) -> Result<Piece, OutOfMemory>
        requires some { 0 < room }
        requires few { room ≤ 65536 }
        ensures { IfOk result (λ p. p ≡ []) }
    {
        Ok(Piece {
            room: vec![in alloc; 0u8; room]?,
            at: 0,
            end: 0,
        })
    }

    /// What isn't used up.
    pub(crate) fn bytes(&self) -> &[u8]
        ensures bytes { result.now ≡ self.now }
        ensures few { length result.now ≤ 65536 }
    {
        &self.room[self.at..self.end]
    }

    /// Uses up the first bytes.
    pub(crate) fn advance(&mut self, n: usize)
        requires { n ≤ length self.old }
        ensures { self.new ≡ drop n self.old }
    {
        self.at += n;
    }

    /// Takes the next bytes from the source, and answers whether there are any.
    pub(crate) fn fill<I: Source>(&mut self, input: &mut I) -> Result<bool, Failed>
        requires { self.old ≡ [] }
        ensures all { option_map (λ rest. self.new ++ rest) (I.left input.new) ≡ I.left input.old }
        ensures some { IfOk result (λ more. MatchBool more (0 < length self.new) ((self.new ≡ []) × IfSome (I.left input.new) (λ rest. rest ≡ []))) }
        ensures err { OnErr result (self.new ≡ []) }
        ensures cause { HasCause (I.faults input.old) (I.faults input.new) result (λ e. Unit {0}) }
    {
        let n = input.take(self.room.as_mut_slice())?;
        self.at = 0;
        self.end = n;
        Ok(n > 0)
    }
}
