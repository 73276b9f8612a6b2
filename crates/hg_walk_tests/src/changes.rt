// Changes of a working copy, which are drawn. The clock goes on in quarters of a second, or stands.
use crate::draws::Draws;
use crate::parents::Parents;
use crate::places::{PATTERNS, PLACES, TEXTS};
use crate::things::{Standing, What, file_at, put, take};
use hg_base::{OutOfMemory, Time};
use hg_tree::MemTree;
use std::alloc::Global;
use std::test::Fail;

/// A working copy with its clock, how many old times were given in it, whether it may have ignore patterns, and which path was changed last.
#[derive(Drop)]
pub(crate) struct WorkingCopy {
    pub tree: MemTree,
    ticks: u32,
    old: u32,
    has_patterns: bool,
    last: &'static str,
}

fn time_of(ticks: u32) -> Time {
    Time {
        seconds: 1_000 + i64::from(ticks / 4),
        nanos: ticks % 4 * 250_000_000,
    }
}

// A time from long before the clock's first.
fn old_time(number: u32) -> Time {
    Time {
        seconds: i64::from(number % 900),
        nanos: 5,
    }
}

// A file of a size that no other has.
fn grown(alloc: Global, number: u32) -> Result<Vec<u8>, Fail> {
    Ok(vec![in alloc; b'x'; 10 + (number % 50) as usize]?)
}

impl WorkingCopy {
    pub(crate) fn new(alloc: Global, has_patterns: bool) -> Result<WorkingCopy, OutOfMemory> {
        Ok(WorkingCopy {
            tree: MemTree::new(alloc, time_of(0))?,
            ticks: 0,
            old: 0,
            has_patterns,
            last: "a",
        })
    }

    fn now(&self) -> Time {
        time_of(self.ticks)
    }

    // The clock goes on by up to a second, and stands half of the time.
    fn tick(&mut self, draws: &mut Draws) -> Result<(), OutOfMemory> {
        let more = match draws.below(8) {
            4 => 1,
            5 => 2,
            6 => 3,
            7 => 4,
            _ => 0,
        };
        self.ticks = self.ticks.saturating_add(more);
        let now = self.now();
        self.tree.set_clock(now)
    }

    // A number that wasn't given before.
    fn another(&mut self) -> u32 {
        self.old = self.old.saturating_add(1);
        self.old
    }

    // Half of the time the path that was changed last.
    fn some_path(&mut self, draws: &mut Draws) -> &'static str {
        if draws.once_in(2) {
            self.last = draws.one_of(PLACES);
        }
        self.last
    }

    // A thing is made, and has the time of the clock.
    fn make(&mut self, alloc: Global, path: &str, what: What, bytes: &[u8]) -> Result<(), Fail> {
        let now = self.now();
        put(alloc, &mut self.tree, path, what, bytes, now, now)
    }

    // A thing gets another time, and what is told.
    fn set(
        &mut self,
        alloc: Global,
        path: &str,
        what: What,
        bytes: &[u8],
        mtime: Time,
    ) -> Result<(), Fail> {
        let now = self.now();
        put(alloc, &mut self.tree, path, what, bytes, mtime, now)
    }

    // A path is as a parent has it.
    pub(crate) fn restore(
        &mut self,
        alloc: Global,
        draws: &mut Draws,
        parents: &Parents,
        path: &str,
    ) -> Result<(), Fail> {
        match parents.some_file(draws, path)? {
            None => Ok(()),
            Some((what, text)) => self.make(alloc, path, what, text.as_bytes()),
        }
    }

    fn make_patterns(&mut self, alloc: Global, draws: &mut Draws) -> Result<(), Fail> {
        if !self.has_patterns {
            return Ok(());
        }
        let text = draws.one_of(PATTERNS);
        let what = What::File { exec: false };
        self.make(alloc, ".hgignore", what, text.as_bytes())
    }

    // What stands there is changed in part: its time, its bit, its size and not its time, or its bytes. An old time is one that it never had.
    fn alter(
        &mut self,
        alloc: Global,
        draws: &mut Draws,
        path: &str,
        there: &Standing,
    ) -> Result<(), Fail> {
        let number = self.another();
        let bytes = there.bytes.as_slice();
        let text = draws.one_of(TEXTS).as_bytes();
        match draws.below(9) {
            0 => self.make(alloc, path, there.what, bytes),
            1 => self.set(alloc, path, turned(there.what), bytes, there.mtime),
            2 => {
                let bytes = grown(alloc, number)?;
                self.set(alloc, path, there.what, bytes.as_slice(), there.mtime)
            }
            3 => self.set(alloc, path, there.what, bytes, old_time(number)),
            4..=5 => self.set(alloc, path, there.what, text, old_time(number)),
            _ => self.make(alloc, path, there.what, text),
        }
    }

    fn alter_at(&mut self, alloc: Global, draws: &mut Draws, path: &str) -> Result<(), Fail> {
        match file_at(alloc, &mut self.tree, path)? {
            None => Ok(()),
            Some(there) => self.alter(alloc, draws, path, &there),
        }
    }

    /// Something is changed, or nothing.
    pub(crate) fn change(
        &mut self,
        alloc: Global,
        draws: &mut Draws,
        parents: &Parents,
    ) -> Result<(), Fail> {
        self.tick(draws)?;
        let path = self.some_path(draws);
        let text = draws.one_of(TEXTS);
        match draws.below(16) {
            0..=2 => {
                let exec = draws.once_in(3);
                self.make(alloc, path, What::File { exec }, text.as_bytes())
            }
            3 => self.make(alloc, path, What::Link, text.as_bytes()),
            4 => {
                let now = self.now();
                take(&mut self.tree, path, now)
            }
            5 => self.make(alloc, path, What::Dir, b""),
            6 => self.make_patterns(alloc, draws),
            7..=9 => self.restore(alloc, draws, parents, path),
            10..=14 => self.alter_at(alloc, draws, path),
            _ => self.make(alloc, path, What::Other, b""),
        }
    }
}

fn turned(what: What) -> What {
    match what {
        What::File { exec } => What::File { exec: !exec },
        other => other,
    }
}
