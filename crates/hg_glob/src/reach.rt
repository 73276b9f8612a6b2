//! A long path: the columns of a glob's last parts over the last characters of the path, up to the braces.

ghost use Rattle.std.specs.Prelude.{◌≡◌, ◌+◌, ◌<◌, ◌≤◌, [], List, ℕ, length, reverse, IsTrue, true, false};
ghost use Rattle.hg_glob.specs.Part.{Reading, before, reading};
ghost use Rattle.hg_glob.specs.Kept.{HasEnd};
ghost use Rattle.hg_glob.specs.Many.{last_parts};
ghost use Rattle.hg_glob.specs.Reach.{is_brace, ReachIs, ReachesAre, reach_at};

use crate::column::column_step;
use crate::fork::{Column, Fork, Reach};
use crate::part::Part;
use crate::short::Short;
use crate::words::has;

/// Behind the last part: a match ends where the path does.
pub fn begin_reach(reaches: &mut [Reach], short: &Short)
    requires { 0 < length reaches.old }
    ensures { (path : List ℕ) → ReachesAre path short.now [] 0 reaches.new }
{
    let _ = short;
    reaches[0] = Reach {
        now: 1,
        hit: 0,
        beyond: false,
    };
}

fn is_brace(part: Part) -> bool
    ensures { result ≡ is_brace part }
{
    match part {
        Part::Open { at: _ } => true,
        Part::Comma => true,
        Part::Close => true,
        _ => false,
    }
}

/// Whether no end of the path is accepted.
pub fn is_out(reach: Reach) -> bool
    ensures { IsTrue result → (reach.now ≡ 0) × (reach.beyond ≡ false) }
{
    reach.now == 0 && !reach.beyond
}

/// One part more in front. Where an end of all the characters is accepted, from it on or from the part behind it, a longer one may be.
fn reach_step(part: Part, was: Reach, short: &Short, whole: usize) -> Reach
    requires free { is_brace part ≡ false }
    requires whole { whole ≡ length short.now }
    requires short { whole ≤ 63 }
    ensures { (path : List ℕ) (r : Reading) → HasEnd path (reverse short.now) → ReachIs path short.now r was → ReachIs path short.now (before part r) result }
{
    let column = Column {
        now: was.now,
        hit: was.hit,
        depth: 0,
    };
    let mut forks = [Fork { after: 0, found: 0 }; 1];
    let on = column_step(part, column, &mut forks, short);
    let behind = has(was.now, whole);
    let here = has(on.now, whole);
    Reach {
        now: on.now,
        hit: on.hit,
        beyond: was.beyond | (behind | here),
    }
}

/// Goes on from the last parts that are known, so many, until all are passed, a brace comes, or no end is accepted.
pub fn follow_far(
    parts: &[Part],
    from: usize,
    short: &Short,
    whole: usize,
    reaches: &mut [Reach],
) -> usize
    requires room { 64 ≤ length reaches.old }
    requires whole { whole ≡ length short.now }
    requires short { whole ≤ 63 }
    requires few { from < 64 }
    ensures few { result < 64 }
    ensures reaches { (path : List ℕ) → HasEnd path (reverse short.now) → ReachesAre path short.now parts.now from reaches.old → ReachesAre path short.now parts.now result reaches.new }
{
    let most = parts.len().min(63);
    let mut k = from;
    let mut reach = reaches[from];
    'on: while k < most && !is_out(reach) {
        let part = parts[parts.len() - 1 - k];
        if is_brace(part) {
            return k;
        }
        reach = reach_step(part, reach, short, whole);
        k += 1;
        reaches[k] = reach;
    }
    k
}
