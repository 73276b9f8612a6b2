//! Devices that note the names of the calls that are made of them.

use crate::line::Line;
use hg_base::{Failed, Got, Kind, PathRef, Stat, Time};
use hg_shelf::Shelf;
use hg_stream::Sink;
use hg_tree::{Name, Tree, TreeFault};
use std::alloc::Global;

/// A device, the calls that were made of it with the files that they name, and how many of them came before the last run.
#[derive(Drop)]
pub(crate) struct Noted<D: Drop> {
    pub device: D,
    pub calls: Notes,
}

/// Calls that were made, and how many of them came before the last run.
#[derive(Drop)]
pub(crate) struct Notes {
    alloc: Global,
    lines: Vec<String>,
    before: usize,
}

impl<D: Drop> Noted<D> {
    /// A device of which no call was made yet.
    pub fn new(alloc: Global, device: D) -> Noted<D> {
        Noted {
            device,
            calls: Notes {
                alloc,
                lines: Vec::new(alloc),
                before: 0,
            },
        }
    }
}

impl Notes {
    /// A run begins.
    pub fn begin(&mut self) {
        self.before = self.lines.len();
    }

    /// How many calls were made.
    pub fn made(&self) -> u64 {
        self.lines.len() as u64
    }

    /// How many calls the last run made.
    pub fn made_last(&self) -> u64 {
        self.made().saturating_sub(self.before as u64)
    }

    /// Puts the calls of the last run, a line each.
    pub fn put_last(&self, all: &mut Line) {
        for line in self.lines.iter().skip(self.before) {
            all.put(line.as_str());
            all.put("\n");
        }
    }

    // Notes a call. For want of memory its name is left out, or the call isn't counted.
    fn note(&mut self, call: &str, name: &str) {
        let mut line = String::new(self.alloc);
        let _ = line.push_str(call);
        if !name.is_empty() {
            let _ = line.push(' ');
            let _ = line.push_str(name);
        }
        let _ = self.lines.push(line);
    }

    // Names a second file of the last call.
    fn also(&mut self, name: &str) {
        if let Some(line) = self.lines.last_mut() {
            let _ = line.push(' ');
            let _ = line.push_str(name);
        }
    }
}

impl<T: Tree + Drop> Tree for Noted<T> {
    ghost history = { λ t. T.history t.device };

    ghost faults = { λ t. T.faults t.device };

    fn stat(&mut self, path: PathRef<'_>) -> Result<Option<Stat>, Failed> {
        self.calls.note("stat", "");
        self.device.stat(path)
    }

    fn list(
        &mut self,
        alloc: Global,
        dir: Option<PathRef<'_>>,
    ) -> Result<Option<Vec<Name>>, TreeFault> {
        self.calls.note("list", "");
        self.device.list(alloc, dir)
    }

    fn read(&mut self, path: PathRef<'_>, place: u64, buf: &mut [u8]) -> Result<Got, Failed> {
        self.calls.note("read", "");
        self.device.read(path, place, buf)
    }

    fn now(&mut self) -> Result<Time, Failed> {
        self.calls.note("now", "");
        self.device.now()
    }

    fn unlink(&mut self, path: PathRef<'_>) -> Result<bool, Failed> {
        self.calls.note("unlink", path.text);
        self.device.unlink(path)
    }

    fn put(
        &mut self,
        path: PathRef<'_>,
        kind: Kind,
        exec: bool,
        place: u64,
        bytes: &[u8],
    ) -> Result<bool, Failed> {
        self.calls.note("put", path.text);
        self.device.put(path, kind, exec, place, bytes)
    }
}

impl<S: Shelf + Drop> Shelf for Noted<S> {
    ghost history = { λ s. S.history s.device };

    ghost images = { λ s. S.images s.device };

    ghost faults = { λ s. S.faults s.device };

    ghost held = { λ s. S.held s.device };

    ghost named_leaves = { λ s. S.named_leaves s.device };

    ghost shown_named = { λ s. S.shown_named s.device };

    fn size(&mut self, name: &str) -> Result<Option<u64>, Failed> {
        self.calls.note("size", name);
        self.device.size(name)
    }

    fn read_at(&mut self, name: &str, place: u64, buf: &mut [u8]) -> Result<Got, Failed> {
        self.calls.note("read_at", name);
        self.device.read_at(name, place, buf)
    }

    fn write_at(&mut self, name: &str, place: u64, bytes: &[u8]) -> Result<(), Failed> {
        self.calls.note("write_at", name);
        self.device.write_at(name, place, bytes)
    }

    fn sync(&mut self, name: &str) -> Result<(), Failed> {
        self.calls.note("sync", name);
        self.device.sync(name)
    }

    fn rename(&mut self, from: &str, to: &str) -> Result<(), Failed> {
        self.calls.note("rename", from);
        self.calls.also(to);
        self.device.rename(from, to)
    }

    fn sync_names(&mut self) -> Result<(), Failed> {
        self.calls.note("sync_names", "");
        self.device.sync_names()
    }

    fn remove(&mut self, name: &str) -> Result<(), Failed> {
        self.calls.note("remove", name);
        self.device.remove(name)
    }

    fn lock(&mut self) -> Result<bool, Failed> {
        self.calls.note("lock", "");
        self.device.lock()
    }

    fn unlock(&mut self) -> Result<(), Failed> {
        self.calls.note("unlock", "");
        self.device.unlock()
    }
}

impl<O: Sink + Drop> Sink for Noted<O> {
    ghost bytes = { λ o. O.bytes o.device };

    ghost faults = { λ o. O.faults o.device };

    fn put(&mut self, piece: &[u8]) -> Result<usize, Failed> {
        self.calls.note("put", "");
        self.device.put(piece)
    }
}
