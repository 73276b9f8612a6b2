//! One part over all ends of a short path at once.

ghost use Rattle.std.specs.Prelude.{◌≡◌, ◌+◌, ◌-◌, ◌<◌, ◌≤◌, [], ◌∷◌, List, ℕ, length, MatchOption};
ghost use Rattle.hg_glob.specs.declared.fork.Fork.{Fork};
ghost use Rattle.hg_glob.specs.declared.part.Part.TheVariants as a_part;
ghost use Rattle.hg_glob.specs.Column.{stack, StepsTo};

use crate::fork::{Column, Fork};
use crate::part::Part;
use crate::short::Short;
use crate::words::{longer, members, smear, up};

/// The innermost pair of braces.
fn top(forks: &[Fork], depth: usize) -> Option<Fork>
    requires { depth ≤ length forks.now }
    ensures { MatchOption result (stack depth forks.now ≡ []) (λ f. (0 < depth) × (stack depth forks.now ≡ f ∷ stack (depth - 1) forks.now)) }
{
    if depth == 0 {
        return None;
    }
    Some(forks[depth - 1])
}

fn push(forks: &mut [Fork], depth: usize, fork: Fork)
    requires { depth < length forks.old }
    ensures { stack (depth + 1) forks.new ≡ fork ∷ stack depth forks.old }
{
    forks[depth] = fork;
}

/// Directories in front of the ends, or none.
#[inline(always)]
pub fn slashes(now: u64, short: &Short) -> u64
    requires { length short.now ≤ 63 }
    ensures { (hit : ℕ) (forks : List Fork) → StepsTo a_part.Slashes short.now now hit forks result hit forks }
{
    let past = smear(short.slash() & up(now), longer());
    now | past
}

/// At `{`: what was found at the choices behind.
#[inline(always)]
fn open(was: Column, forks: &[Fork]) -> Column
    requires { was.depth ≤ length forks.now }
    ensures step { (at : ℕ) (xs : List ℕ) → StepsTo (a_part.Open at) xs was.now was.hit (stack was.depth forks.now) result.now result.hit (stack result.depth forks.now) }
    ensures depth { result.depth ≤ length forks.now }
{
    match top(forks, was.depth) {
        None => was,
        Some(fork) => Column {
            now: was.now | fork.found,
            hit: was.hit,
            depth: was.depth - 1,
        },
    }
}

/// At `,`: what stands behind the braces, and one choice more is known.
#[inline(always)]
fn comma(was: Column, forks: &mut [Fork]) -> Column
    requires { was.depth ≤ length forks.old }
    ensures step { (xs : List ℕ) → StepsTo a_part.Comma xs was.now was.hit (stack was.depth forks.old) result.now result.hit (stack result.depth forks.new) }
    ensures depth { result.depth ≤ length forks.new }
{
    match top(forks, was.depth) {
        None => was,
        Some(fork) => {
            let known = Fork {
                after: fork.after,
                found: fork.found | was.now,
            };
            push(forks, was.depth - 1, known);
            Column {
                now: fork.after,
                hit: was.hit,
                depth: was.depth,
            }
        }
    }
}

/// At `}`: a pair of braces more.
#[inline(always)]
fn close(was: Column, forks: &mut [Fork]) -> Column
    requires { was.depth < length forks.old }
    ensures step { (xs : List ℕ) → StepsTo a_part.Close xs was.now was.hit (stack was.depth forks.old) result.now result.hit (stack result.depth forks.new) }
    ensures depth { result.depth ≤ length forks.new }
{
    let fork = Fork {
        after: was.now,
        found: 0,
    };
    push(forks, was.depth, fork);
    Column {
        now: was.now,
        hit: was.hit,
        depth: was.depth + 1,
    }
}

/// The column of a part from that of the part behind it.
#[inline(always)]
pub fn column_step(part: Part, was: Column, forks: &mut [Fork], short: &Short) -> Column
    requires room { was.depth < length forks.old }
    requires few { length short.now ≤ 63 }
    ensures step { StepsTo part short.now was.now was.hit (stack was.depth forks.old) result.now result.hit (stack result.depth forks.new) }
    ensures depth { result.depth ≤ length forks.new }
{
    match part {
        Part::Literal(x) => Column {
            now: short.literal(x) & up(was.now),
            hit: was.hit,
            depth: was.depth,
        },
        Part::One => Column {
            now: up(was.now),
            hit: was.hit,
            depth: was.depth,
        },
        Part::Class { negated } => Column {
            now: members(negated, was.hit) & up(was.now),
            hit: 0,
            depth: was.depth,
        },
        Part::Range { at: _, low, high } => Column {
            now: was.now,
            hit: short.between(low, high) | was.hit,
            depth: was.depth,
        },
        Part::Star => Column {
            now: smear(was.now, short.inside()),
            hit: was.hit,
            depth: was.depth,
        },
        Part::Any => Column {
            now: smear(was.now, longer()),
            hit: was.hit,
            depth: was.depth,
        },
        Part::Slashes => Column {
            now: slashes(was.now, short),
            hit: was.hit,
            depth: was.depth,
        },
        Part::Open { at: _ } => open(was, forks),
        Part::Comma => comma(was, forks),
        Part::Close => close(was, forks),
    }
}
