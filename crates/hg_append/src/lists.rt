//! How nodes are put into the bytes of a data file.

ghost use Rattle.std.specs.Prelude.{◌≡◌, ◌≤◌, ◌<◌, ◌^◌, ◌+◌, ◌++◌, take, drop, length, IfOk, OnOk, Some, true, ℕ, List, option_map};
ghost use Rattle.hg_node.specs.Node.{bytes_of};
ghost use Rattle.hg_mixed.specs.Child.{shown_child};
ghost use Rattle.hg_mixed.specs.Children.{AreChildren, IsChild};
ghost use Rattle.hg_mixed.specs.Walk.{IsBelow, ListIsOf, ListsAreOf, walked};
ghost use Rattle.hg_nodes.specs.Written.{fields_for};
ghost use Rattle.std.specs.Str.{is_utf8};
ghost use Rattle.hg_base.specs.PathText.{is_path, parent_of};
ghost use Rattle.hg_append.specs.Keeps.{keeps_by, new_text, text_start};
ghost use Rattle.hg_append.specs.Layout as layout;
ghost use Rattle.hg_append.specs.Put as puts;
ghost use Rattle.hg_append.specs.Put.{AreFew, AreFields, HasPut, IsFew, IsPut, IsPutUnder, IsWritable, Puts, base_by, rec_with};

use crate::ends::LAST;
use crate::kept::{Kept, kept_list};
use crate::sums::{Sums, ended, none, with_node};
use crate::way::Way;
use hg_base::{OutOfMemory, PathRef};
use hg_entry::Fields;
use hg_mixed::{Below, Child, Mixed, Walk};
use hg_node::Rec;

/// A list that was put: where its records begin, and its sums.
#[derive(Clone, Copy)]
pub struct Put {
    pub start: u64,
    pub sums: Sums,
}

// The numbers that are written for a node.
fn fields(child: &Child<'_>) -> Fields
    ensures { AreFields (shown_child child.now) result }
{
    child.fields()
}

// The bytes of a path.
fn path_bytes<'t>(path: PathRef<'t>) -> &'t [u8]
    ensures bytes { result.now ≡ path.entry.text.now }
    ensures path { is_path path.entry.text.now ≡ true }
    ensures utf8 { is_utf8 path.entry.text.now ≡ true }
{
    path.text.as_bytes()
}

// The bytes of a copy source, nothing where there is none.
fn source_bytes<'t>(source: Option<PathRef<'t>>) -> &'t [u8]
    ensures bytes { result.now ≡ layout.source_text (option_map (λ s. s.text.now) source.entry) }
    ensures sound { (text : List ℕ) → option_map (λ s. s.text.now) source.entry ≡ Some text → ((is_path text ≡ true) × (is_utf8 text ≡ true)) }
{
    match source {
        None => &[],
        Some(path) => path_bytes(path),
    }
}

// The length of a path, which 16 bits can name.
fn length(path: PathRef<'_>) -> u16
    ensures { result ≡ length path.entry.text.now }
{
    path.text.len() as u16
}

fn source_length(source: Option<PathRef<'_>>) -> u16
    ensures { result ≡ length (layout.source_text (option_map (λ s. s.text.now) source.entry)) }
{
    match source {
        None => 0,
        Some(path) => length(path),
    }
}

// The place of a lent text, where it is used again.
fn place_of(mixed: &Mixed<'_>, way: Way, at: Option<u32>) -> Option<u32>
    ensures { result ≡ (keeps_by mixed.now way).text at }
{
    match way {
        Way::Append => at,
        Way::Rewrite => None,
    }
}

// What is put of a text that may be at a place already.
fn unless_at<'t>(at: Option<u32>, text: &'t [u8]) -> &'t [u8]
    ensures { result.now ≡ new_text at text.entry.now }
{
    match at {
        None => text,
        Some(_) => &[],
    }
}

// Where a text begins.
fn start_at(at: Option<u32>, place: u64) -> u32
    requires { place < 2 ^ 32 }
    ensures { result ≡ text_start at place }
{
    match at {
        None => place as u32,
        Some(at) => at,
    }
}

// Where a copy source begins, where there is one.
fn copy_start(source: Option<PathRef<'_>>, at: Option<u32>, place: u64) -> u32
    requires { place < 2 ^ 32 }
    ensures { result ≡ layout.copy_start (option_map (λ s. s.text.now) source.entry) (text_start at place) }
{
    match source {
        None => 0,
        Some(_) => start_at(at, place),
    }
}

// What is put of the path of a node.
fn path_put<'t>(mixed: &Mixed<'_>, way: Way, child: &Child<'t>) -> &'t [u8]
    ensures bytes { result.now ≡ layout.path_put (keeps_by mixed.now way) (shown_child child.now) }
    ensures path { is_path child.now.path.text.now ≡ true }
    ensures utf8 { is_utf8 child.now.path.text.now ≡ true }
{
    let path = path_bytes(child.path);
    unless_at(place_of(mixed, way, child.text_at), path)
}

// What is put of its copy source.
fn source_put<'t>(mixed: &Mixed<'_>, way: Way, child: &Child<'t>) -> &'t [u8]
    ensures bytes { result.now ≡ layout.source_put (keeps_by mixed.now way) (shown_child child.now) }
    ensures sound { (text : List ℕ) → (shown_child child.now).source ≡ Some text → ((is_path text ≡ true) × (is_utf8 text ≡ true)) }
{
    let source = source_bytes(child.source);
    unless_at(place_of(mixed, way, child.source_at), source)
}

// The record of a node, of whose path so many bytes are put.
fn rec_of(
    mixed: &Mixed<'_>,
    way: Way,
    child: &Child<'_>,
    fields: Fields,
    base_at: usize,
    under: Put,
    put: usize,
) -> Rec
    requires fields { fields ≡ fields_for (shown_child child.now).entry (shown_child child.now).cache }
    requires few { IsFew under }
    requires base { base_at ≤ length child.now.path.text.now }
    requires put { put ≡ length (layout.path_put (keeps_by mixed.now way) (shown_child child.now)) }
    requires inside { under.sums.end + put < 2 ^ 32 }
    ensures { result ≡ rec_with (keeps_by mixed.now way) (shown_child child.now) base_at under }
{
    let path_at = place_of(mixed, way, child.text_at);
    let source_at = place_of(mixed, way, child.source_at);
    Rec {
        place: 0,
        path_start: start_at(path_at, under.sums.end),
        path_len: length(child.path),
        base_at: base_at as u16,
        copy_start: copy_start(child.source, source_at, under.sums.end + put as u64),
        copy_len: source_length(child.source),
        kids_start: under.start as u32,
        kids_count: under.sums.count as u32,
        entries_below: under.sums.entries as u32,
        tracked_below: under.sums.tracked as u32,
        flags: fields.flags,
        size: fields.size,
        seconds: fields.seconds,
        nanos: fields.nanos,
    }
}

// Keeps a record.
fn keep(rec: Rec, records: &mut Vec<u8>) -> Result<(), OutOfMemory>
    ensures { OnOk result (records.new.items ≡ records.old.items ++ bytes_of rec) }
{
    records.extend_from_slice(&rec.write())?;
    Ok(())
}

// Puts a text behind. (most nodes have no copy source, and in an append many paths stay where they are)
fn put_text(text: &[u8], bytes: &mut Vec<u8>) -> Result<(), OutOfMemory>
    ensures { OnOk result (bytes.new.items ≡ bytes.old.items ++ text.now) }
{
    if text.is_empty() {
        return Ok(());
    }
    bytes.extend_from_slice(text)?;
    Ok(())
}

// Puts the texts of a node, and keeps its record. Where they would end behind the last place, it only counts.
#[inline(always)]
fn put_node(
    mixed: &Mixed<'_>,
    way: Way,
    child: &Child<'_>,
    fields: Fields,
    base_at: usize,
    under: Put,
    sums: Sums,
    bytes: &mut Vec<u8>,
    records: &mut Vec<u8>,
) -> Result<Sums, OutOfMemory>
    requires fields { AreFields (shown_child child.now) fields }
    requires few { IsFew under }
    requires base { base_at ≤ length child.now.path.text.now }
    ensures sums { IfOk result (λ s. s ≡ puts.with_node (shown_child child.now) (layout.path_put (keeps_by mixed.now way) (shown_child child.now)) (layout.source_put (keeps_by mixed.now way) (shown_child child.now)) under.sums sums) }
    ensures sound { IsWritable (shown_child child.now) }
    ensures bytes { IfOk result (λ s. Puts s.end (layout.path_put (keeps_by mixed.now way) (shown_child child.now) ++ layout.source_put (keeps_by mixed.now way) (shown_child child.now)) bytes.old.items bytes.new.items) }
    ensures records { IfOk result (λ s. Puts s.end (bytes_of (rec_with (keeps_by mixed.now way) (shown_child child.now) base_at under)) records.old.items records.new.items) }
{
    let path = path_put(mixed, way, child);
    let source = source_put(mixed, way, child);
    let sums = with_node(child, path, source, under.sums, sums);
    if sums.end > LAST {
        return Ok(sums);
    }
    put_text(path, bytes)?;
    put_text(source, bytes)?;
    let rec = rec_of(mixed, way, child, fields, base_at, under, path.len());
    keep(rec, records)?;
    Ok(sums)
}

// Where the records of a list begin.
fn start_of(sums: Sums) -> u64
    ensures { result ≡ puts.start_with sums }
{
    if sums.count == 0 { 0 } else { sums.end }
}

// Puts the records of a list, which were kept from one on.
fn put_records(
    sums: Sums,
    from: usize,
    bytes: &mut Vec<u8>,
    records: &mut Vec<u8>,
) -> Result<Put, OutOfMemory>
    requires { (puts.ended sums).end < 2 ^ 32 → from ≤ length records.old.items }
    ensures sums { IfOk result (λ p. p.sums ≡ puts.ended sums) }
    ensures start { IfOk result (λ p. p.start ≡ puts.start_with sums) }
    ensures bytes { IfOk result (λ p. Puts p.sums.end (drop from records.old.items) bytes.old.items bytes.new.items) }
    ensures records { IfOk result (λ p. p.sums.end < 2 ^ 32 → records.new.items ≡ take from records.old.items) }
{
    let start = start_of(sums);
    let sums = ended(sums);
    if sums.end > LAST {
        return Ok(Put { start, sums });
    }
    bytes.extend_from_slice(records.as_slice().split_at(from).1)?;
    records.truncate(from);
    Ok(Put { start, sums })
}

// Where the last component of what stands in a directory begins.
fn base_at(dir: Option<PathRef<'_>>) -> usize
    ensures { result ≡ puts.base_in (option_map (λ d. d.text.now) dir.entry) }
{
    match dir {
        None => 0,
        Some(dir) => dir.text.len() + 1,
    }
}

// A list that is kept is there already: nothing is put.
fn stays(list: Kept, at: u64) -> Put
    ensures start { result.start ≡ list.start }
    ensures end { result.sums.end ≡ at }
    ensures count { result.sums.count ≡ list.count }
    ensures entries { result.sums.entries ≡ list.entries }
    ensures tracked { result.sums.tracked ≡ list.tracked }
    ensures copies { result.sums.copies ≡ 0 }
    ensures few { IsFew result }
{
    Put {
        start: list.start as u64,
        sums: Sums {
            end: at,
            count: list.count as u64,
            entries: list.entries as u64,
            tracked: list.tracked as u64,
            copies: 0,
        },
    }
}

// Puts a node, and before it the list of its children, where it has any. (A node without children, as most are, goes a way of its own, on which
// there is nothing to add up.)
#[cycle(putting)]
#[inline(always)]
fn put_child<'t>(
    mixed: &'t Mixed<'_>,
    way: Way,
    child: &Child<'t>,
    base_at: usize,
    sums: Sums,
    bytes: &mut Vec<u8>,
    records: &mut Vec<u8>,
) -> Result<Sums, OutOfMemory>
    requires child { IsChild mixed.now (parent_of child.now.path.text.now) (shown_child child.now) }
    requires list { ListIsOf mixed.now child.now }
    requires base { base_at ≤ length child.now.path.text.now }
    requires few { AreFew mixed.now (keeps_by mixed.now way) (base_by mixed.now way) }
    requires room { base_by mixed.now way ≤ sums.end }
    ensures { IfOk result (λ s. HasPut mixed.now (keeps_by mixed.now way) (shown_child child.now) base_at sums s bytes.old.items bytes.new.items records.old.items records.new.items) }
{
    let fields = fields(child);
    if !child.has_kids {
        let under = Put {
            start: 0,
            sums: none(sums.end),
        };
        let now = put_node(
            mixed, way, child, fields, base_at, under, sums, bytes, records,
        )?;
        return Ok(now);
    }
    let under = put_below(mixed, way, child.below(), sums.end, bytes, records)?;
    let now = put_node(
        mixed, way, child, fields, base_at, under, sums, bytes, records,
    )?;
    Ok(now)
}

// Puts the list of a node's children, unless it is kept. (A walk is more room than should be cleared for each node that has none.)
#[cycle(putting)]
#[inline(never)]
fn put_below<'t>(
    mixed: &'t Mixed<'_>,
    way: Way,
    below: Below<'t>,
    at: u64,
    bytes: &mut Vec<u8>,
    records: &mut Vec<u8>,
) -> Result<Put, OutOfMemory>
    requires below { IsBelow mixed.now below }
    requires few { AreFew mixed.now (keeps_by mixed.now way) (base_by mixed.now way) }
    requires room { base_by mixed.now way ≤ at }
    ensures put { IfOk result (λ p. IsPutUnder mixed.now (keeps_by mixed.now way) ((keeps_by mixed.now way).list below.entry.path.text.now) below.entry.path.text.now at p bytes.old.items bytes.new.items records.old.items records.new.items) }
    ensures few { IfOk result IsFew }
{
    if let Some(list) = kept_list(mixed, way, below.path) {
        return Ok(stays(list, at));
    }
    let kids = mixed.walk_in(below);
    let put = put_list(mixed, way, Some(below.path), kids, at, bytes, records)?;
    Ok(put)
}

/// Puts the list of a directory's children, which are walked, at a place, none for the root, with all that stands below it but the lists that are kept;
/// `records` keeps the records of lists that aren't done.
#[cycle(putting)]
pub fn put_list<'t>(
    mixed: &'t Mixed<'_>,
    way: Way,
    dir: Option<PathRef<'_>>,
    mut children: Walk<'t, '_>,
    at: u64,
    bytes: &mut Vec<u8>,
    records: &mut Vec<u8>,
) -> Result<Put, OutOfMemory>
    requires children { AreChildren mixed.now (option_map (λ d. d.text.now) dir) (walked children) }
    requires lists { ListsAreOf mixed.now children }
    requires few { AreFew mixed.now (keeps_by mixed.now way) (base_by mixed.now way) }
    requires room { base_by mixed.now way ≤ at }
    ensures { IfOk result (λ p. IsPut mixed.now (keeps_by mixed.now way) (option_map (λ d. d.text.now) dir.entry) at p bytes.old.items bytes.new.items records.old.items records.new.items) }
{
    let from = records.as_slice().len();
    let base_at = base_at(dir);
    let mut sums = none(at);
    while let Some(child) = children.next() {
        sums = put_child(mixed, way, &child, base_at, sums, bytes, records)?;
    }
    let put = put_records(sums, from, bytes, records)?;
    Ok(put)
}
