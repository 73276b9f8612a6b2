//! What is counted of lists of nodes.

ghost use Rattle.std.specs.Prelude.{◌≡◌};
ghost use Rattle.hg_mixed.specs.Child.{shown_child};
ghost use Rattle.hg_nodes.specs.Clash as clash;
ghost use Rattle.hg_entry.specs.Entry.{view};
ghost use Rattle.std.specs.Option.{option_map};
ghost use Rattle.hg_append.specs.Put as puts;

use hg_entry::Entry;
use hg_mixed::Child;

/// How far the bytes go, how many nodes a list has, and how many of them and of those below have an entry, are tracked and have a
/// copy source. A number that would be greater than the greatest of 64 bits stays at that.
#[derive(Clone, Copy)]
pub struct Sums {
    pub end: u64,
    pub count: u64,
    pub entries: u64,
    pub tracked: u64,
    pub copies: u64,
}

/// The sums of no nodes.
pub fn none(end: u64) -> Sums
    ensures end { result.end ≡ end }
    ensures count { result.count ≡ 0 }
    ensures entries { result.entries ≡ 0 }
    ensures tracked { result.tracked ≡ 0 }
    ensures copies { result.copies ≡ 0 }
{
    Sums {
        end,
        count: 0,
        entries: 0,
        tracked: 0,
        copies: 0,
    }
}

fn one_if(holds: bool) -> u64
    ensures { result ≡ puts.one_if holds }
{
    if holds { 1 } else { 0 }
}

fn is_tracked(entry: Option<Entry>) -> bool
    ensures { result ≡ clash.is_tracked_entry (option_map view entry) }
{
    match entry {
        None => false,
        Some(entry) => entry.w,
    }
}

/// The sums of a list with one node more, of whose path and copy source so much is put.
pub fn with_node(child: &Child<'_>, path: &[u8], source: &[u8], under: Sums, sums: Sums) -> Sums
    ensures { result ≡ puts.with_node (shown_child child.now) path.now source.now under sums }
{
    Sums {
        end: under
            .end
            .saturating_add(path.len() as u64)
            .saturating_add(source.len() as u64),
        count: sums.count.saturating_add(1),
        entries: sums
            .entries
            .saturating_add(under.entries)
            .saturating_add(one_if(child.entry.is_some())),
        tracked: sums
            .tracked
            .saturating_add(under.tracked)
            .saturating_add(one_if(is_tracked(child.entry))),
        copies: sums
            .copies
            .saturating_add(under.copies)
            .saturating_add(one_if(child.source.is_some())),
    }
}

/// The sums of a list with its records.
pub fn ended(sums: Sums) -> Sums
    ensures { result ≡ puts.ended sums }
{
    Sums {
        end: sums.end.saturating_add(sums.count.saturating_mul(44)),
        ..sums
    }
}
