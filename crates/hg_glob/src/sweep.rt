//! Whether a glob stands in a short path: one pass over the parts, over all ends of the path at once.

ghost use Rattle.std.specs.Prelude.{◌≡◌, ◌+◌, ◌*◌, ◌<◌, ◌≤◌, ◌↔◌, length, reverse, IsTrue};
ghost use Rattle.hg_glob.specs.Part.{reading};
ghost use Rattle.hg_glob.specs.Refusal.{closers};
ghost use Rattle.hg_glob.specs.Line.{Stands};
ghost use Rattle.hg_glob.specs.Column.{IsEnd};

use crate::column::{column_step, slashes};
use crate::fork::{Column, Fork};
use crate::part::Part;
use crate::short::Short;
use crate::words::has;

/// The ends at which a match may end: that of no character, and where `inner` is set those that begin with a slash.
fn end(inner: bool, short: &Short) -> u64
    ensures { IsEnd inner short.now result }
{
    if inner { short.slash() | 1 } else { 1 }
}

/// Whether the path is directories, a text in the glob of the parts, and what is below it: no directories in front where the
/// glob is rooted, and nothing below but where `inner` is set. The forks are room for the work, more than half as many as parts.
#[inline(always)]
fn sweep(parts: &[Part], inner: bool, rooted: bool, short: &Short, forks: &mut [Fork]) -> bool
    requires few { length parts.now < 2 * length forks.old }
    requires closed { closers parts.now ≡ 0 }
    ensures { IsTrue result ↔ Stands inner rooted (reading parts.now).pattern (reverse short.now) }
{
    let len = short.len();
    let mut column = Column {
        now: end(inner, short),
        hit: 0,
        depth: 0,
    };
    let mut k = parts.len();
    'pass: while k > 0 {
        k -= 1;
        column = column_step(parts[k], column, forks, short);
    }
    if rooted {
        return has(column.now, len);
    }
    has(slashes(column.now, short), len)
}

/// The same for a glob of very few parts, with room of its own, as little as a short line is worth.
#[inline(never)]
fn sweep_tiny(parts: &[Part], inner: bool, rooted: bool, short: &Short) -> bool
    requires few { length parts.now < 8 }
    requires closed { closers parts.now ≡ 0 }
    ensures { IsTrue result ↔ Stands inner rooted (reading parts.now).pattern (reverse short.now) }
{
    let none = Fork { after: 0, found: 0 };
    let mut forks = [none; 4];
    sweep(parts, inner, rooted, short, &mut forks)
}

/// The same for a glob of few parts.
#[inline(never)]
fn sweep_few(parts: &[Part], inner: bool, rooted: bool, short: &Short) -> bool
    requires few { length parts.now < 128 }
    requires closed { closers parts.now ≡ 0 }
    ensures { IsTrue result ↔ Stands inner rooted (reading parts.now).pattern (reverse short.now) }
{
    let none = Fork { after: 0, found: 0 };
    let mut forks = [none; 64];
    sweep(parts, inner, rooted, short, &mut forks)
}

/// The same for any glob.
#[inline(never)]
fn sweep_many(parts: &[Part], inner: bool, rooted: bool, short: &Short) -> bool
    requires few { length parts.now ≤ 4095 }
    requires closed { closers parts.now ≡ 0 }
    ensures { IsTrue result ↔ Stands inner rooted (reading parts.now).pattern (reverse short.now) }
{
    let none = Fork { after: 0, found: 0 };
    let mut forks = [none; 2048];
    sweep(parts, inner, rooted, short, &mut forks)
}

/// The same, with as much room as the glob wants.
pub fn stands_short(parts: &[Part], inner: bool, rooted: bool, short: &Short) -> bool
    requires few { length parts.now ≤ 4095 }
    requires closed { closers parts.now ≡ 0 }
    ensures { IsTrue result ↔ Stands inner rooted (reading parts.now).pattern (reverse short.now) }
{
    if parts.len() < 8 {
        return sweep_tiny(parts, inner, rooted, short);
    }
    if parts.len() < 128 {
        return sweep_few(parts, inner, rooted, short);
    }
    sweep_many(parts, inner, rooted, short)
}
