//! The columns of a glob's last parts, each of them kept, so that a glob that ends alike goes on from them.

ghost use Rattle.std.specs.Prelude.{◌≡◌, ◌+◌, ◌<◌, ◌≤◌, ◌↔◌, [], List, ℕ, length, reverse, IsTrue, true, false};
ghost use Rattle.hg_glob.specs.Part.{reading};
ghost use Rattle.hg_glob.specs.Refusal.{closers};
ghost use Rattle.hg_glob.specs.Line.{Stands};
ghost use Rattle.hg_glob.specs.Many.{last_parts};
ghost use Rattle.hg_glob.specs.Trail.{column_at, TrailIs, EndsAt};
ghost use Rattle.hg_glob.specs.declared.part.Part.{Part};

use crate::column::{column_step, slashes};
use crate::fork::{Column, Fork};
use crate::part::Part;
use crate::short::Short;
use crate::sweep::stands_short;
use crate::words::has;

/// Behind the last part: a match ends where the path does.
pub fn begin(columns: &mut [Column], short: &Short)
    requires { 0 < length columns.old }
    ensures { TrailIs short.now [] 0 columns.new }
{
    columns[0] = Column {
        now: 1,
        hit: 0,
        depth: 0,
    };
}

/// At most so many parts, as many as stand outside braces.
pub fn cut(columns: &[Column], len: usize) -> usize
    requires inside { len < length columns.now }
    requires first { (column_at columns.now 0).depth ≡ 0 }
    ensures inside { result ≤ len }
    ensures outside { (column_at columns.now result).depth ≡ 0 }
{
    let mut k = len;
    'cut: while columns[k].depth > 0 {
        k -= 1;
    }
    k
}

/// Whether no end is accepted, and no brace is around in which one might be.
pub fn is_dead(column: Column) -> bool
    ensures { IsTrue result → (column.depth ≡ 0) × (column.now ≡ 0) }
{
    column.depth == 0 && column.now == 0
}

/// Goes on from the last parts that are known, so many, until all are passed or no end is accepted.
pub fn follow(
    parts: &[Part],
    from: usize,
    short: &Short,
    columns: &mut [Column],
    forks: &mut [Fork],
) -> usize
    requires room { 64 ≤ length columns.old }
    requires forks { 64 ≤ length forks.old }
    requires short { length short.now ≤ 63 }
    requires few { from < 64 }
    requires trail { TrailIs short.now parts.now from columns.old }
    requires outside { (column_at columns.old from).depth ≡ 0 }
    ensures few { result < 64 }
    ensures trail { TrailIs short.now parts.now result columns.new }
    ensures end { EndsAt short.now (reading (last_parts result parts.now)) (column_at columns.new result) }
{
    let most = parts.len().min(63);
    let mut k = from;
    let mut column = columns[from];
    'on: while k < most && !is_dead(column) {
        column = column_step(parts[parts.len() - 1 - k], column, forks, short);
        k += 1;
        columns[k] = column;
    }
    k
}

/// Whether the glob stands in the path, by the column of so many of its parts, where these are all. The path has so many
/// characters as `whole` says.
pub fn stands_at(
    parts: &[Part],
    rooted: bool,
    short: &Short,
    whole: usize,
    len: usize,
    end: Column,
) -> bool
    requires few { length parts.now ≤ 4095 }
    requires closed { closers parts.now ≡ 0 }
    requires whole { whole ≡ length short.now }
    requires short { whole ≤ 63 }
    requires inside { len ≤ length parts.now }
    requires end { EndsAt short.now (reading (last_parts len parts.now)) end }
    ensures { IsTrue result ↔ Stands false rooted (reading parts.now).pattern (reverse short.now) }
{
    if len < parts.len() {
        return stands_short(parts, false, rooted, short);
    }
    if rooted {
        return has(end.now, whole);
    }
    has(slashes(end.now, short), whole)
}
