// Streams in memory: a sink that keeps what is put into it, and a source of given bytes.
ghost use Rattle.std.specs.Prelude.{◌≡◌, ◌<◌, ◌≤◌, ◌↔◌, false, List, [], ◌∷◌, ◌++◌, length, take, drop, min, Some, IfOk, IfSome, OnOk, OnErr, is_err};
ghost use Rattle.hg_base.specs.Calls.{fails_at, is_due, answered, failed};
ghost use Rattle.hg_base.specs.Fault.{HasCause};
ghost use Rattle.hg_stream.specs.Memory.{fresh};
ghost use Rattle.hg_stream.specs.Stream.{Takes};

use crate::sink::Sink;
use crate::source::Source;
use hg_base::{Calls, Failed, OutOfMemory};
use std::alloc::Global;
use std::marker::Model;

/// A sink that keeps the bytes in memory.
#[derive(Debug, Drop)]
pub struct MemSink {
    put: Vec<u8>,
    most: usize,
    calls: Calls,
}

impl Model for MemSink {
    ghost use Rattle.std.specs.Prelude.{◌<◌};
    ghost use Rattle.hg_stream.specs.Memory.{Memory};

    ghost Value = { Memory };

    ghost view = { λ s. record {
      bytes = s.put.items;
      most = s.most;
      calls = s.calls;
    } };

    ghost invariant = { λ s. 0 < s.most };
}

impl MemSink {
    /// An empty sink that takes at most so many bytes at each call.
    pub fn new(alloc: Global, most: usize) -> MemSink
        requires { 0 < most }
        ensures { result ≡ fresh [] most }
    {
        MemSink {
            put: Vec::new(alloc),
            most,
            calls: Calls::new(alloc),
        }
    }

    /// Makes a call fail; calls are counted from 0.
    pub fn fail_at(&mut self, call: u64) -> Result<(), OutOfMemory>
        ensures ok { OnOk result (self.new ≡ record self.old { calls = fails_at call self.old.calls }) }
        ensures err { OnErr result (self.new ≡ self.old) }
    {
        self.calls.fail_at(call)
    }

    /// What was put so far.
    pub fn bytes(&self) -> &[u8]
        ensures { result.now ≡ self.now.bytes }
    {
        self.put.as_slice()
    }
}

impl Sink for MemSink {
    ghost bytes = { λ s. Some s.bytes };

    ghost faults = { λ s. s.calls.faults };

    fn put(&mut self, piece: &[u8]) -> Result<usize, Failed>
        ensures least { IfOk result (λ n. 0 < length piece.now → 0 < n) }
        ensures cause { HasCause self.old.calls.faults self.new.calls.faults result (λ e. Unit {0}) }

        // A call that was told to fail fails, and else only one that finds no memory. What it takes is all that it may.
        ensures due { OnOk result (is_due self.old.calls ≡ false) }
        ensures answer { IfOk result (λ n. n ≡ min (length piece.now) self.old.most) }
        ensures answered { IfOk result (λ n. self.new ≡ record self.old { bytes = self.old.bytes ++ take n piece.now; calls = answered self.old.calls }) }
        ensures failed { OnErr result (self.new ≡ record self.old { calls = failed self.old.calls }) }
    {
        self.calls.begin()?;
        let n = piece.len().min(self.most);
        let front = piece.split_at(n).0;
        if self.put.extend_from_slice(front).is_err() {
            return Err(self.calls.fail());
        }
        Ok(n)
    }
}

/// A source of given bytes.
#[derive(Debug, Drop)]
pub struct MemSource {
    bytes: Vec<u8>,
    at: usize,
    most: usize,
    calls: Calls,
}

impl Model for MemSource {
    ghost use Rattle.std.specs.Prelude.{◌<◌, ◌≤◌, drop, length};
    ghost use Rattle.hg_stream.specs.Memory.{Memory};

    ghost Value = { Memory };

    ghost view = { λ s. record {
      bytes = drop s.at s.bytes.items;
      most = s.most;
      calls = s.calls;
    } };

    ghost invariant = { λ s. (0 < s.most) × (s.at ≤ length s.bytes.items) };
}

impl MemSource {
    /// A source of these bytes, of which it gives at most so many at each call.
    pub fn new(alloc: Global, bytes: &[u8], most: usize) -> Result<MemSource, OutOfMemory>
        requires { 0 < most }
        ensures { IfOk result (λ source. source ≡ fresh bytes.now most) }
    {
        Ok(MemSource {
            bytes: Vec::from_slice(alloc, bytes)?,
            at: 0,
            most,
            calls: Calls::new(alloc),
        })
    }

    /// Makes a call fail; calls are counted from 0.
    pub fn fail_at(&mut self, call: u64) -> Result<(), OutOfMemory>
        ensures ok { OnOk result (self.new ≡ record self.old { calls = fails_at call self.old.calls }) }
        ensures err { OnErr result (self.new ≡ self.old) }
    {
        self.calls.fail_at(call)
    }
}

impl Source for MemSource {
    ghost left = { λ s. Some s.bytes };

    ghost faults = { λ s. s.calls.faults };

    fn take(&mut self, buf: &mut [u8]) -> Result<usize, Failed>
        ensures taken { IfOk result (λ n. Takes self.old.bytes self.new.bytes buf.old buf.new n) }
        ensures end { IfOk result (λ n. 0 < length buf.old → n ≡ 0 ↔ self.old.bytes ≡ []) }
        ensures cause { HasCause self.old.calls.faults self.new.calls.faults result (λ e. Unit {0}) }

        // A call fails exactly where it was told to. What it gives is all that it may.
        ensures due { is_err result ≡ is_due self.old.calls }
        ensures answer { IfOk result (λ n. n ≡ min (length self.old.bytes) (min (length buf.old) self.old.most)) }
        ensures answered { IfOk result (λ n. self.new ≡ record self.old { bytes = drop n self.old.bytes; calls = answered self.old.calls }) }
        ensures failed { OnErr result (self.new ≡ record self.old { calls = failed self.old.calls }) }
    {
        self.calls.begin()?;
        let left = self.bytes.as_slice().split_at(self.at).1;
        let n = left.len().min(buf.len()).min(self.most);
        buf[..n].copy_from_slice(left.split_at(n).0);
        self.at += n;
        Ok(n)
    }
}
