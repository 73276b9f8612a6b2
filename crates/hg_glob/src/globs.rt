//! Many globs, asked at once: what the ends of two that follow each other have in common is looked at once.

ghost use Rattle.std.specs.Prelude.{◌≡◌, ◌↔◌, [], List, ℕ, IsTrue, IfOk, ◌≤◌, map, length, chars, reverse};
ghost use Rattle.hg_glob.specs.Many.{SomeStands, AreShared, parts_in};

use crate::fork::{Column, Fork, Reach};
use crate::glob::Glob;
use crate::ordering::{end_order, shared_of};
use crate::part_row::PartRow;
use crate::reach::{begin_reach, follow_far, is_out};
use crate::short::Short;
use crate::subject::Subject;
use crate::trail::{begin, cut, follow, is_dead, stands_at};
use hg_base::OutOfMemory;
use std::alloc::Global;
use std::marker::Model;

/// A glob, and whether it holds from the root alone.
#[derive(Debug, Drop)]
pub struct GlobLine {
    pub rooted: bool,
    pub glob: Glob,
}

/// Globs that are asked together; contracts see them in the order in which they are asked.
#[derive(Drop)]
pub struct Globs {
    pub(crate) lines: Vec<GlobLine>,
    /// The parts of each, so that asking one after another reads on in one place.
    pub(crate) row: PartRow,
    /// How many parts from its end each has in common with the one before, or less; nothing with none.
    pub(crate) shared: Vec<u32>,
}

impl Model for Globs {
    ghost use Rattle.std.specs.Prelude.{List};
    ghost use Rattle.hg_glob.specs.Many.{AreLaid};
    ghost use Rattle.hg_glob.specs.declared.globs.GlobLine.{GlobLine};

    ghost Value = { List GlobLine };

    ghost view = { λ g. g.lines.items };

    ghost invariant = { λ g. AreLaid g.lines.items g.row g.shared.items };
}

/// Whether the end of the path leaves it possible that some glob stands in it.
#[inline(never)]
fn may_stand(lines: &[GlobLine], path: &str) -> bool
    ensures { SomeStands lines.now path.now → IsTrue result }
{
    for line in lines {
        if line.glob.may_match_end(path) {
            return true;
        }
    }
    false
}

/// Whether some glob stands in the path. What each has in common with the one before isn't looked at again; and where no end of the
/// path is accepted from there on, it is passed over.
#[inline(never)]
fn some_short(
    lines: &[GlobLine],
    row: &PartRow,
    shared: &[u32],
    short: &Short,
    whole: usize,
) -> bool
    requires row { row.now ≡ map parts_in lines.now }
    requires shared { AreShared row.now shared.now }
    requires whole { whole ≡ length short.now }
    requires short { whole ≤ 63 }
    ensures { (path : List ℕ) → chars path ≡ reverse short.now → IsTrue result ↔ SomeStands lines.now path }
{
    let none = Column {
        now: 0,
        hit: 0,
        depth: 0,
    };
    let mut columns = [none; 64];
    let mut forks = [Fork { after: 0, found: 0 }; 64];
    begin(&mut columns, short);
    let mut len = 0;
    let mut is_over = false;
    for i in 0..lines.len() {
        let count = shared[i] as usize;
        if is_over && len <= count {
            continue;
        }
        let parts = row.at(i);
        let from = cut(&columns, len.min(count));
        len = follow(parts, from, short, &mut columns, &mut forks);
        let end = columns[len];
        is_over = is_dead(end);
        if !is_over && stands_at(parts, lines[i].rooted, short, whole, len, end) {
            return true;
        }
    }
    false
}

/// The same of a long path, by its last characters; a line that these leave possible is asked by itself.
#[inline(never)]
fn some_long(lines: &[GlobLine], row: &PartRow, shared: &[u32], subject: &Subject<'_>) -> bool
    requires row { row.now ≡ map parts_in lines.now }
    requires shared { AreShared row.now shared.now }
    ensures { IsTrue result ↔ SomeStands lines.now subject.now }
{
    let short = &subject.short;
    let whole = short.len();
    let mut reaches = [Reach {
        now: 0,
        hit: 0,
        beyond: false,
    }; 64];
    begin_reach(&mut reaches, short);
    let mut len = 0;
    let mut is_over = false;
    for i in 0..lines.len() {
        let common = shared[i] as usize;
        if is_over && len <= common {
            continue;
        }
        let parts = row.at(i);
        let from = len.min(common);
        len = follow_far(parts, from, short, whole, &mut reaches);
        is_over = is_out(reaches[len]);
        if !is_over {
            let line = &lines[i];
            if line.glob.matches_end_of(subject, line.rooted) {
                return true;
            }
        }
    }
    false
}

impl Globs {
    /// No globs.
    pub fn new(alloc: Global) -> Globs
        ensures { result ≡ [] }
    {
        Globs {
            lines: Vec::new(alloc),
            row: PartRow::new(alloc),
            shared: Vec::new(alloc),
        }
    }

    /// The globs of a list, in an order in which those stand together that end alike.
    pub fn of(alloc: Global, mut lines: Vec<GlobLine>) -> Result<Globs, OutOfMemory>
        ensures { IfOk result (λ globs. (path : List ℕ) → SomeStands globs path ↔ SomeStands lines.items path) }
    {
        lines.sort_unstable_by(|a, b| end_order(a.glob.text(), b.glob.text()));
        let row = PartRow::of(alloc, lines.as_slice())?;
        let shared = shared_of(alloc, &row)?;
        Ok(Globs { lines, row, shared })
    }

    /// Whether some glob stands in the path. It takes no memory.
    pub fn some_stands(&self, path: &str) -> bool
        ensures { IsTrue result ↔ SomeStands self.now path.now }
    {
        // (of few lines this takes less time than to read the path does)
        if self.lines.len() <= 32 && !may_stand(self.lines.as_slice(), path) {
            return false;
        }
        let subject = Subject::new(path);
        if !subject.is_short {
            return some_long(
                self.lines.as_slice(),
                &self.row,
                self.shared.as_slice(),
                &subject,
            );
        }
        let short = &subject.short;
        some_short(
            self.lines.as_slice(),
            &self.row,
            self.shared.as_slice(),
            short,
            short.len(),
        )
    }
}
