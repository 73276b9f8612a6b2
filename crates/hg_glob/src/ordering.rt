//! Many globs in an order in which those stand together that end alike, and how much the ends of neighbours have in common.

ghost use Rattle.std.specs.Prelude.{◌≡◌, ◌<◌, [], ◌∷◌, IsTrue, IfOk, length, slice_index_or};
ghost use Rattle.hg_glob.specs.Part.{Reading, before};
ghost use Rattle.hg_glob.specs.Many.{AreShared, SharesEnd};

use crate::part::Part;
use crate::part_row::PartRow;
use hg_base::OutOfMemory;
use std::alloc::Global;
use std::cmp::Ordering;

/// The most parts that are counted: no more of them are looked at together.
const MOST: usize = 63;

/// How two texts are ordered, the last byte first.
pub(crate) fn end_order(a: &str, b: &str) -> Ordering {
    a.bytes().rev().cmp(b.bytes().rev())
}

/// Whether two parts stand for the same, wherever they are.
fn is_alike(a: Part, b: Part) -> bool
    ensures { IsTrue result → (behind : Reading) → before a behind ≡ before b behind }
{
    match (a, b) {
        (Part::Literal(c), Part::Literal(d)) => c == d,
        (Part::Class { negated: c }, Part::Class { negated: d }) => c == d,
        (
            Part::Range { low, high, .. },
            Part::Range {
                low: first,
                high: last,
                ..
            },
        ) => low == first && high == last,
        (Part::One, Part::One) => true,
        (Part::Star, Part::Star) => true,
        (Part::Any, Part::Any) => true,
        (Part::Slashes, Part::Slashes) => true,
        (Part::Open { .. }, Part::Open { .. }) => true,
        (Part::Comma, Part::Comma) => true,
        (Part::Close, Part::Close) => true,
        _ => false,
    }
}

/// How many parts two globs have in common from their ends, as far as they are counted.
#[tactic(auto, using(crate::proofs::Neighbours::shares_none))]
fn shared_end(a: &[Part], b: &[Part]) -> u32
    ensures { SharesEnd result a.now b.now }
{
    let most = a.len().min(b.len()).min(MOST);
    for k in 0..most {
        if !is_alike(a[a.len() - 1 - k], b[b.len() - 1 - k]) {
            return k as u32;
        }
    }
    most as u32
}

/// The same of the glob at a place and the one before it, and nothing of the first.
#[tactic(auto, using(crate::proofs::Neighbours::shares_none))]
fn shared_at(row: &PartRow, i: usize) -> u32
    requires { i < length row.now }
    ensures { SharesEnd result (slice_index_or ([] ∷ row.now) i []) (slice_index_or row.now i []) }
{
    if i == 0 {
        return 0;
    }
    shared_end(row.at(i - 1), row.at(i))
}

/// The same of each glob.
pub(crate) fn shared_of(alloc: Global, row: &PartRow) -> Result<Vec<u32>, OutOfMemory>
    ensures { IfOk result (λ shared. AreShared row.now shared.items) }
{
    let mut shared = Vec::with_capacity(alloc, row.len())?;
    for i in 0..row.len() {
        shared.push(shared_at(row, i))?;
    }
    Ok(shared)
}
