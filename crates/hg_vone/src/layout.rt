//! The nodes of the entries, laid out behind the bytes of the file.
//!
//! The texts stay where the file has them: a node's path is that of an entry, or the beginning of the path of an entry below it. Only records are put,
//! the lists of child nodes before the list that names them. So the data file is as long as the file read and 44 bytes for each node.

ghost use Rattle.std.specs.Prelude.{◌≡◌, ◌≤◌, length};

use crate::agreeing::flags;
use crate::item::Item;
use hg_base::OutOfMemory;
use hg_node::Rec;
use std::alloc::Global;
use std::cmp::Ordering;

/// How many lists may stand one below the other: a path has at most 2,048 components.
const LEVELS: u32 = 2048;

/// Where the text of an entry begins behind its first byte.
const HEAD: u32 = 17;

/// A list of nodes that was put.
#[derive(Clone, Copy, Debug)]
pub(crate) struct Put {
    /// Where its records begin, in bytes of the data file.
    pub start: u32,
    /// How many nodes it has.
    pub count: u32,
    /// How many entries there are in it and below it.
    pub entries: u32,
    /// How many of these are tracked.
    pub tracked: u32,
    /// How many copy sources there are.
    pub copies: u32,
}

/// The list of no nodes.
pub(crate) const NO_NODES: Put = Put {
    start: 0,
    count: 0,
    entries: 0,
    tracked: 0,
    copies: 0,
};

// A byte of a path in the order of a walk: a slash before all others, so that what is below a directory stands right behind it.
fn rank(byte: u8) -> u8 {
    if byte == b'/' { 0 } else { byte }
}

// How two paths are ordered in a walk.
fn walk_order(a: &str, b: &str) -> Ordering {
    a.bytes().map(rank).cmp(b.bytes().map(rank))
}

// Where the component ends that begins at a place.
fn end_of(path: &[u8], from: usize) -> usize
    ensures { result ≤ length path.now }
{
    if from > path.len() {
        return path.len();
    }
    match path.split_at(from).1.iter().position(|b| *b == b'/') {
        Some(at) => from + at,
        None => path.len(),
    }
}

// The bytes from a place up to another, none where they aren't there.
fn between(path: &[u8], from: usize, end: usize) -> &[u8] {
    if end > path.len() || from > end {
        return &[];
    }
    path.split_at(end).0.split_at(from).1
}

// Whether a path has this component there and ends with it, or goes on below it.
fn goes_through(path: &[u8], name: &[u8], from: usize, end: usize) -> bool {
    if path.len() < end {
        return false;
    }
    if path.len() > end && path[end] != b'/' {
        return false;
    }
    between(path, from, end) == name
}

// How many items there are at the front that go through one component, the first item's.
fn members(items: &[Item<'_>], from: usize, end: usize) -> usize
    requires { 1 ≤ length items.now }
    ensures some { 1 ≤ result }
    ensures most { result ≤ length items.now }
{
    let name = between(items[0].path.text.as_bytes(), from, end);
    let mut n = 1;
    while n < items.len() {
        if !goes_through(items[n].path.text.as_bytes(), name, from, end) {
            break;
        }
        n += 1;
    }
    n
}

// The length of a text, of which a path has at most 65,535 bytes.
fn short(len: usize) -> u16 {
    if len > 65_535 {
        return 65_535;
    }
    len as u16
}

// The record of a node without an entry, whose path is the beginning of an item's.
fn bare(item: &Item<'_>, from: usize, end: usize, under: Put) -> Rec {
    Rec {
        place: 0,
        path_start: item.at.saturating_add(HEAD),
        path_len: short(end),
        base_at: short(from),
        copy_start: 0,
        copy_len: 0,
        kids_start: under.start,
        kids_count: under.count,
        entries_below: under.entries,
        tracked_below: under.tracked,
        flags: 0,
        size: 0,
        seconds: 0,
        nanos: 0,
    }
}

// The record of an item's own node. (a NUL stands between the path and the copy source)
fn own(item: &Item<'_>, from: usize, end: usize, under: Put) -> Rec {
    let rec = Rec {
        flags: flags(item.marks),
        ..bare(item, from, end, under)
    };
    match item.source {
        None => rec,
        Some(source) => Rec {
            copy_start: rec.path_start.saturating_add(rec.path_len as u32 + 1),
            copy_len: short(source.text.len()),
            ..rec
        },
    }
}

fn one_if(holds: bool) -> u32
    ensures { result ≤ 1 }
{
    if holds { 1 } else { 0 }
}

// The counts of a list with one node more and what is below that; the item is given where the node is its own.
fn with_node(sums: Put, item: Option<&Item<'_>>, under: Put) -> Put {
    let (entries, tracked, copies) = match item {
        None => (0, 0, 0),
        Some(item) => (1, one_if(item.marks.w), one_if(item.source.is_some())),
    };
    Put {
        start: sums.start,
        count: sums.count.saturating_add(1),
        entries: sums
            .entries
            .saturating_add(entries)
            .saturating_add(under.entries),
        tracked: sums
            .tracked
            .saturating_add(tracked)
            .saturating_add(under.tracked),
        copies: sums
            .copies
            .saturating_add(copies)
            .saturating_add(under.copies),
    }
}

// Puts the records of a list behind.
fn put_records(sums: Put, records: &[u8], nodes: &mut Vec<u8>) -> Result<Put, OutOfMemory> {
    let start = nodes.len();
    if start > 4_294_967_295 {
        return Err(OutOfMemory);
    }
    nodes.extend_from_slice(records)?;
    Ok(Put {
        start: start as u32,
        ..sums
    })
}

// Puts the list of one directory, whose items these are in the order of a walk: their names in it begin at a place of their paths.
fn put_list(
    alloc: Global,
    items: &[Item<'_>],
    from: usize,
    levels: u32,
    nodes: &mut Vec<u8>,
) -> Result<Put, OutOfMemory> {
    if items.is_empty() {
        return Ok(NO_NODES);
    }
    if levels == 0 {
        return Err(OutOfMemory);
    }
    let mut records = Vec::new(alloc);
    let mut sums = NO_NODES;
    let mut at = 0;
    while at < items.len() {
        let rest = items.split_at(at).1;
        let first = &rest[0];
        let end = end_of(first.path.text.as_bytes(), from);
        let group = rest.split_at(members(rest, from, end)).0;
        at += group.len();
        if first.path.text.len() == end {
            let below = group.split_at(1).1;
            let under = put_list(alloc, below, end + 1, levels - 1, nodes)?;
            records.extend_from_slice(&own(first, from, end, under).write())?;
            sums = with_node(sums, Some(first), under);
        } else {
            let under = put_list(alloc, group, end + 1, levels - 1, nodes)?;
            records.extend_from_slice(&bare(first, from, end, under).write())?;
            sums = with_node(sums, None, under);
        }
    }
    put_records(sums, records.as_slice(), nodes)
}

// The items in the order of a walk.
fn in_order<'a>(alloc: Global, items: &[Item<'a>]) -> Result<Vec<Item<'a>>, OutOfMemory> {
    let mut sorted = Vec::with_capacity(alloc, items.len())?;
    for item in items {
        sorted.push(*item)?;
    }
    sorted.sort_unstable_by(|a, b| walk_order(a.path.text, b.path.text));
    Ok(sorted)
}

/// Lays out the nodes of the items of a file behind its bytes; no items take no bytes.
pub(crate) fn lay_out(
    alloc: Global,
    bytes: &[u8],
    items: &[Item<'_>],
    nodes: &mut Vec<u8>,
) -> Result<Put, OutOfMemory>
    ensures { length items.now ≡ 0 → nodes.new.items ≡ nodes.old.items }
{
    if items.is_empty() {
        return Ok(NO_NODES);
    }
    let sorted = in_order(alloc, items)?;
    nodes.extend_from_slice(bytes)?;
    put_list(alloc, sorted.as_slice(), 0, LEVELS, nodes)
}
