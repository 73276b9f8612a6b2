//! The streams of a run, and the compiler of its regexps.

use crate::noted::Noted;
use crate::wrong::Wrong;
use hg_base::OutOfMemory;
use hg_ignore::Builds;
use hg_stream::{MemSink, MemSource};
use std::alloc::Global;

/// How the streams and the compiler of regexps answer in the next run.
#[derive(Drop)]
pub(crate) struct Streams {
    pub pieces: usize,
    pub input: Vec<u8>,
    pub in_fails: Option<u64>,
    pub out_fails: Option<u64>,
    pub err_fails: Option<u64>,
    pub regexps_fail: Option<u64>,
}

impl Streams {
    /// Streams that take and give three bytes at each call, without input, and no failing call.
    pub fn new(alloc: Global) -> Streams {
        Streams {
            pieces: 3,
            input: Vec::new(alloc),
            in_fails: None,
            out_fails: None,
            err_fails: None,
            regexps_fail: None,
        }
    }

    /// The same again.
    pub fn clear(&mut self) {
        self.pieces = 3;
        self.input.clear();
        self.forget();
    }

    /// What fails fails in one run.
    pub fn forget(&mut self) {
        self.in_fails = None;
        self.out_fails = None;
        self.err_fails = None;
        self.regexps_fail = None;
    }
}

/// The streams of one run.
#[derive(Drop)]
pub(crate) struct Ends {
    alloc: Global,
    pub input: MemSource,
    pub out: Noted<MemSink>,
    pub err: Noted<MemSink>,
    pub regexps: Builds,
}

fn sink(alloc: Global, pieces: usize) -> Noted<MemSink> {
    Noted::new(alloc, MemSink::new(alloc, pieces.max(1)))
}

impl Ends {
    /// Streams of which nothing is said.
    pub fn new(alloc: Global) -> Result<Ends, OutOfMemory> {
        Ok(Ends {
            alloc,
            input: MemSource::new(alloc, &[], 1)?,
            out: sink(alloc, 1),
            err: sink(alloc, 1),
            regexps: Builds::new(),
        })
    }

    /// Begins a run.
    pub fn begin(&mut self, streams: &Streams, wrong: &mut Wrong) {
        self.begin_input(streams, wrong);
        self.begin_out(streams, wrong);
        self.begin_err(streams, wrong);
        self.regexps = Builds::new();
        if let Some(call) = streams.regexps_fail {
            self.regexps.fail_at(call);
        }
    }

    fn begin_input(&mut self, streams: &Streams, wrong: &mut Wrong) {
        let pieces = streams.pieces.max(1);
        match MemSource::new(self.alloc, streams.input.as_slice(), pieces) {
            Ok(input) => self.input = input,
            Err(_) => wrong.check(false),
        }
        if let Some(call) = streams.in_fails {
            wrong.check(self.input.fail_at(call).is_ok());
        }
    }

    fn begin_out(&mut self, streams: &Streams, wrong: &mut Wrong) {
        self.out = sink(self.alloc, streams.pieces);
        if let Some(call) = streams.out_fails {
            wrong.check(self.out.device.fail_at(call).is_ok());
        }
    }

    fn begin_err(&mut self, streams: &Streams, wrong: &mut Wrong) {
        self.err = sink(self.alloc, streams.pieces);
        if let Some(call) = streams.err_fails {
            wrong.check(self.err.device.fail_at(call).is_ok());
        }
    }
}
