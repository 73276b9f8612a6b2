//! The counts that nodes record, compared with those from scratch while the nodes are checked.

ghost use Rattle.std.specs.Prelude.{◌≡◌, ◌*◌, ◌/◌, ◌+◌, ◌<◌, ◌^◌, List, [], Some, if◌then◌else◌, ◌==◌, ◌&&◌};
ghost use Rattle.hg_docket.specs.Docket.{view};
ghost use Rattle.hg_image.specs.Counts as scratch;
ghost use Rattle.hg_image.specs.Rows.{Row};
ghost use Rattle.hg_image.specs.Tally as tallies;
ghost use Rattle.hg_image.specs.Tally.{IsFew, one_of, tally_of, tally_within};

use hg_docket::Docket;
use hg_entry::bits as bit;
use hg_node::Rec;

/// How many nodes there are, and how many of them have an entry, are tracked and have a copy source.
#[derive(Clone, Copy)]
pub struct Tally {
    pub nodes: u32,
    pub entries: u32,
    pub tracked: u32,
    pub copies: u32,
}

/// Whether a docket records the counts of all nodes, where each of these records its own.
pub fn are_right(docket: &Docket<'_>, tally: Option<Tally>) -> bool
    ensures { (rows : List Row) → tally ≡ tally_within (docket.now.used / 44) rows → result ≡ scratch.is_counted (view docket.now) rows }
{
    match tally {
        None => false,
        Some(tally) => docket.entries == tally.entries && docket.copies == tally.copies,
    }
}

/// The tally of no nodes.
#[inline(always)]
pub fn no_nodes() -> Option<Tally>
    ensures { result ≡ Some (tally_of []) }
{
    Some(Tally {
        nodes: 0,
        entries: 0,
        tracked: 0,
        copies: 0,
    })
}

/// The tally of some nodes with one more and those below it, where they are at most so many and it records its counts.
#[inline(always)]
pub fn with_node(sum: Option<Tally>, rec: Rec, under: Option<Tally>, most: u32) -> Option<Tally>
    requires most { 3 * most < 2 ^ 32 }
    requires sum { IsFew most sum }
    requires under { IsFew most under }
    ensures { result ≡ tallies.with_node most sum rec under }
{
    let Some(sum) = sum else {
        return None;
    };
    let Some(under) = under else {
        return None;
    };
    if agrees(rec, under) & (sum.nodes + 1 + under.nodes <= most) {
        return Some(plus(sum, plus(one_node(rec), under)));
    }
    None
}

// The tally of one node, without those below it.
#[inline(always)]
fn one_node(rec: Rec) -> Tally
    ensures { result ≡ one_of rec }
{
    let has_entry = bit::has_entry(rec.flags);
    Tally {
        nodes: 1,
        entries: one_if(has_entry),
        tracked: one_if(bit::has(rec.flags, bit::WDIR_TRACKED)),
        copies: one_if(has_entry & (rec.copy_start != 0)),
    }
}

#[inline(always)]
fn one_if(holds: bool) -> u32
    ensures { result ≡ (if holds then 1 else 0) }
{
    if holds { 1 } else { 0 }
}

// Whether a node records what is counted below it.
#[inline(always)]
fn agrees(rec: Rec, under: Tally) -> bool
    ensures { result ≡ (rec.entries_below == under.entries && rec.tracked_below == under.tracked) }
{
    (rec.entries_below == under.entries) & (rec.tracked_below == under.tracked)
}

#[inline(always)]
fn plus(a: Tally, b: Tally) -> Tally
    requires nodes { a.nodes + b.nodes < 2 ^ 32 }
    requires entries { a.entries + b.entries < 2 ^ 32 }
    requires tracked { a.tracked + b.tracked < 2 ^ 32 }
    requires copies { a.copies + b.copies < 2 ^ 32 }
    ensures { result ≡ tallies.plus a b }
{
    Tally {
        nodes: a.nodes + b.nodes,
        entries: a.entries + b.entries,
        tracked: a.tracked + b.tracked,
        copies: a.copies + b.copies,
    }
}
