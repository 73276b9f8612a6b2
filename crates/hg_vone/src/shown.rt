//! A dirstate of the first version, shown as one of the second.

ghost use Rattle.std.specs.Prelude.{◌≡◌, ◌+◌, ◌≤◌, ◌<◌, ◌^◌, [], if◌then◌else◌, take, drop, length, map, codes, true, IfOk, IfErr, IsTrue, nat_eq};
ghost use Rattle.std.specs.BTreeSet.{contains_text};
ghost use Rattle.hg_docket.specs.Docket as dockets;
ghost use Rattle.hg_docket.specs.Docket.{empty_hash};
ghost use Rattle.hg_vone.specs.Agreeing.{AreThePaths};
ghost use Rattle.hg_docket.specs.Written as written;
ghost use Rattle.hg_docket.specs.Written.{is_writable};
ghost use Rattle.hg_vone.specs.Format.{is_vone};
ghost use Rattle.hg_vone.specs.Items.{reading};
ghost use Rattle.hg_vone.specs.Refusing.{Refuses};
ghost use Rattle.hg_vone.specs.Shown.{IsShown, Shows};
ghost use Rattle.hg_vone.specs.Showing.{IsSound, reading_with, with_more};
ghost use Rattle.hg_vone.specs.View.{item};

use crate::agreeing::agrees;
use crate::fault::VoneFault;
use crate::items::{Items, read_items};
use crate::layout::{Put, lay_out};
use hg_base::{Id20, OutOfMemory};
use hg_docket::Docket;
use hg_image::Image;
use std::alloc::Global;

/// The SHA-1 of no bytes: the hash of no ignore patterns.
const EMPTY_HASH: [u8; 20] = [
    0xda, 0x39, 0xa3, 0xee, 0x5e, 0x6b, 0x4b, 0x0d, 0x32, 0x55, 0xbf, 0xef, 0x95, 0x60, 0x18, 0x90,
    0xaf, 0xd8, 0x07, 0x09,
];

/// A docket and a data file that say what a dirstate of the first version says.
#[derive(Debug, Drop)]
pub struct Shown {
    /// The bytes of the docket.
    pub docket: Vec<u8>,
    /// The bytes of the data file.
    pub nodes: Vec<u8>,
}

// The parent that stands at a place.
fn parent_at(bytes: &[u8], at: usize) -> Id20
    requires { at + 20 ≤ length bytes.now }
    ensures { result.0 ≡ take 20 (drop at bytes.now) }
{
    let mut id = [0; 20];
    id.copy_from_slice(bytes.split_at(at).1.split_at(20).0);
    Id20(id)
}

// The docket of nodes that were laid out for some entries, with the entries that there are.
fn plain_docket(bytes: &[u8], entries: usize, laid: Put, used: u32) -> Docket<'static>
    requires parents { 40 ≤ length bytes.now }
    requires few { entries ≤ 67108864 }
    ensures p1 { result.p1.0 ≡ take 20 bytes.now }
    ensures p2 { result.p2.0 ≡ take 20 (drop 20 bytes.now) }
    ensures hash { result.hash ≡ empty_hash }
    ensures entries { result.entries ≡ entries }
    ensures waste { result.unreachable ≡ 0 }
    ensures used { result.used ≡ used }
    ensures id { result.id.now ≡ (if nat_eq entries 0 then [] else codes "v1") }
{
    let id: &'static [u8] = if entries == 0 { b"" } else { b"v1" };
    Docket {
        p1: parent_at(bytes, 0),
        p2: parent_at(bytes, 20),
        root_start: laid.start,
        root_count: laid.count,
        entries: entries as u32,
        copies: laid.copies,
        unreachable: 0,
        hash: EMPTY_HASH,
        used,
        id,
    }
}

// Whether nodes and their docket are sound, and tell the entries.
fn is_sound(docket: &Docket<'_>, nodes: &[u8], read: &Items<'_>) -> bool
    requires { AreThePaths (contains_text read.now.paths) (map item read.now.items.items) }
    ensures { result ≡ true → IsSound (dockets.view docket.now) nodes.now (map item read.now.items.items) }
{
    match Image::open(docket, nodes) {
        Err(_) => false,
        Ok(image) => agrees(&image, read.items.as_slice(), &read.paths),
    }
}

// How many entries more than there are a docket tells.
fn more(entries: usize) -> u32
    ensures { result ≡ (if nat_eq entries 0 then 0 else 1) }
{
    if entries == 0 { 0 } else { 1 }
}

// The bytes of a docket that tells so many entries more.
fn docket_bytes(alloc: Global, docket: Docket<'_>, more: u32) -> Result<Vec<u8>, OutOfMemory>
    requires entries { docket.entries + more < 2 ^ 32 }
    requires writable { IsTrue (is_writable (dockets.view docket)) }
    requires id { length docket.id.now ≤ 2 }
    ensures reads { IfOk result (λ v. written.ReadsAs v.items (with_more (dockets.view docket.entry) more)) }
    ensures few { IfOk result (λ v. length v.items ≤ 512) }
{
    let docket = Docket {
        entries: docket.entries + more,
        ..docket
    };
    let mut out = Vec::new(alloc);
    docket.write(&mut out)?;
    Ok(out)
}

// The bytes of the docket that goes with nodes, where these tell the entries. (What is laid out does; where it didn't, no docket would be given out.)
fn told_docket(
    alloc: Global,
    bytes: &[u8],
    read: &Items<'_>,
    laid: Put,
    nodes: &[u8],
) -> Result<Vec<u8>, OutOfMemory>
    requires parents { 40 ≤ length bytes.now }
    requires few { length read.now.items.items ≤ 67108864 }
    requires paths { AreThePaths (contains_text read.now.paths) (map item read.now.items.items) }
    requires empty { length read.now.items.items ≡ 0 → nodes.now ≡ [] }
    ensures { IfOk result (λ d. IsShown (reading_with bytes.now (map item read.now.items.items)) d.items nodes.now) }
{
    let used = nodes.len();
    if used > 4_294_967_295 {
        return Err(OutOfMemory);
    }
    let entries = read.items.len();
    let docket = plain_docket(bytes, entries, laid, used as u32);
    if !is_sound(&docket, nodes, read) {
        return Err(OutOfMemory);
    }
    let told = docket_bytes(alloc, docket, more(entries))?;
    Ok(told)
}

// What the entries of a file are shown as.
fn show(alloc: Global, bytes: &[u8], read: &Items<'_>) -> Result<Shown, OutOfMemory>
    requires parents { 40 ≤ length bytes.now }
    requires few { length read.now.items.items ≤ 67108864 }
    requires paths { AreThePaths (contains_text read.now.paths) (map item read.now.items.items) }
    ensures { IfOk result (λ s. IsShown (reading_with bytes.now (map item read.now.items.items)) s.docket.items s.nodes.items) }
{
    let mut nodes = Vec::new(alloc);
    let laid = lay_out(alloc, bytes, read.items.as_slice(), &mut nodes)?;
    let docket = told_docket(alloc, bytes, read, laid, nodes.as_slice())?;
    Ok(Shown { docket, nodes })
}

/// Reads a dirstate of the first version, of at most 67,108,864 bytes: what it says as a docket and a data file of the second version, in memory. Nothing of
/// a file's mode, size and time is taken over, so the next status looks at each file.
pub fn read_vone(alloc: Global, bytes: &[u8]) -> Result<Shown, VoneFault>
    requires version { is_vone bytes.now ≡ true }
    requires most { length bytes.now ≤ 67108864 }
    // A fault is the first of the reading; want of memory has no cause.
    ensures fault { IfErr result (Refuses (reading bytes.now)) }
    // What is shown is the reading, which then has no fault.
    ensures shown { IfOk result (λ s. Shows (reading bytes.now) s.docket.items s.nodes.items) }
{
    if bytes.len() < 40 {
        return Err(VoneFault::V1Short { at: 0 });
    }
    let read = read_items(alloc, bytes)?;
    let shown = show(alloc, bytes, &read)?;
    Ok(shown)
}
