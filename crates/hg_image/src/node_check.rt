//! The check of one node: the rows of the table of faults, from the top.

ghost use Rattle.std.specs.Prelude.{◌≡◌, ◌+◌, ◌<◌, ◌≤◌, ◌^◌, length, IfOk, option_map};
ghost use Rattle.std.specs.Result.{result_err};
ghost use Rattle.hg_base.specs.PathText as paths;
ghost use Rattle.hg_base.specs.PathText.{is_same_dir, parent_of};
ghost use Rattle.hg_image.specs.Node as node;
ghost use Rattle.hg_image.specs.Node.{path_of, name_of, path_fault, node_fault, fields_of};
ghost use Rattle.hg_image.specs.Walk.{depth_of, levels};
ghost use Rattle.hg_entry.specs.Entry as entry;

use crate::below::{Found, find_below};
use crate::fault::NodeFault;
use crate::parts::read_text;
use hg_base::{PathFault, PathRef, child_name};
use hg_entry::bits as bit;
use hg_node::Rec;
use std::cmp::Ordering;

/// The path of a node and its name, in a directory that has room for so many levels of lists, none for the root, behind the name before
/// it in its list; else the first fault.
#[inline(always)]
#[tactic(auto, unfolding(crate::specs::Node::node_fault))]
pub fn check_node<'a>(
    bytes: &'a [u8],
    dir: Option<PathRef<'_>>,
    depth: u32,
    before: Option<&str>,
    rec: Rec,
) -> Result<Found<'a>, NodeFault>
    requires used { length bytes.now < 2 ^ 32 }
    requires levels { depth_of (option_map (λ d. d.text.now) dir) + depth ≤ levels }
    ensures fault { result_err result ≡ node_fault bytes.entry.now (option_map (λ d. d.text.now) dir.entry) (option_map (λ b. b.now) before.entry) rec }
    ensures path { IfOk result (λ f. f.path.text.now ≡ path_of bytes.entry.now rec) }
    ensures name { IfOk result (λ f. f.name.now ≡ name_of bytes.entry.now rec) }
{
    let node = rec.place;
    let found = find_path(bytes, dir, depth, rec)?;
    if rec.base_at as usize + found.name.len() != found.path.text.len() {
        return Err(NodeFault::Base { node });
    }
    if !found.stands {
        return Err(NodeFault::Parent { node });
    }
    if !is_after(before, found.name) {
        return Err(NodeFault::Order { node });
    }
    if !is_sourced(bytes, rec) {
        return Err(NodeFault::Copy { node });
    }
    if !is_timely(rec) {
        return Err(NodeFault::Times { node });
    }
    Ok(found)
}

// The path that a node names: by its name alone where that is enough, else from its beginning.
#[inline(always)]
fn find_path<'a>(
    bytes: &'a [u8],
    dir: Option<PathRef<'_>>,
    depth: u32,
    rec: Rec,
) -> Result<Found<'a>, NodeFault>
    requires used { length bytes.now < 2 ^ 32 }
    requires levels { depth_of (option_map (λ d. d.text.now) dir) + depth ≤ levels }
    ensures fault { result_err result ≡ path_fault bytes.entry.now rec }
    ensures path { IfOk result (λ f. f.path.text.now ≡ path_of bytes.entry.now rec) }
    ensures name { IfOk result (λ f. f.name.now ≡ name_of bytes.entry.now rec) }
    ensures stands { IfOk result (λ f. f.stands ≡ is_same_dir (option_map (λ d. d.text.now) dir.entry) (parent_of (path_of bytes.entry.now rec))) }
{
    if let Some(found) = find_below(bytes, dir, depth, rec) {
        return Ok(found);
    }
    let path = read_path(bytes, rec)?;
    Ok(Found {
        path,
        name: path.base(),
        stands: stands_in(dir, path),
    })
}

// The path that a node names.
fn read_path<'a>(bytes: &'a [u8], rec: Rec) -> Result<PathRef<'a>, NodeFault>
    requires { length bytes.now < 2 ^ 32 }
    ensures fault { result_err result ≡ path_fault bytes.entry.now rec }
    ensures path { IfOk result (λ p. p.text.now ≡ path_of bytes.entry.now rec) }
{
    let node = rec.place;
    let Some(text) = read_text(bytes, rec.path_start, rec.path_len) else {
        return Err(NodeFault::Text { node });
    };
    match PathRef::read(text) {
        Ok(path) => Ok(path),
        Err(PathFault::TooDeep { n: _ }) => Err(NodeFault::Deep { node }),
        Err(_) => Err(NodeFault::Name { node }),
    }
}

// Whether the path stands right in the directory.
fn stands_in(dir: Option<PathRef<'_>>, path: PathRef<'_>) -> bool
    ensures { result ≡ is_same_dir (option_map (λ d. d.text.now) dir.entry) (parent_of path.entry.text.now) }
{
    let dir = match dir {
        Some(dir) => Some(dir.text),
        None => None,
    };
    match child_name(dir, path.text) {
        Some(_) => true,
        None => false,
    }
}

// Whether the name is greater than the one before, where there is one.
#[inline(always)]
fn is_after(before: Option<&str>, name: &str) -> bool
    ensures { result ≡ node.is_after (option_map (λ b. b.now) before.entry) name.now }
{
    match before {
        None => true,
        Some(before) => matches!(before.cmp(name), Ordering::Less),
    }
}

// Whether the copy source is a path, where one is named.
#[inline(always)]
fn is_sourced(bytes: &[u8], rec: Rec) -> bool
    requires { length bytes.now < 2 ^ 32 }
    ensures { result ≡ node.is_sourced bytes.now rec }
{
    if rec.copy_start == 0 {
        return true;
    }
    match read_text(bytes, rec.copy_start, rec.copy_len) {
        None => false,
        Some(text) => is_path(text),
    }
}

// Whether the text is a path.
#[tactic(auto, using(crate::proofs::Texts::path_false))]
fn is_path(text: &str) -> bool
    ensures { result ≡ paths.is_path text.now }
{
    match PathRef::read(text) {
        Ok(_) => true,
        Err(_) => false,
    }
}

// Whether the time is in range, where one is recorded.
#[inline(always)]
fn is_timely(rec: Rec) -> bool
    ensures { result ≡ entry.is_timely (fields_of rec) }
{
    if !bit::has(rec.flags, bit::HAS_MTIME) {
        return true;
    }
    rec.seconds < 1 << 31 && rec.nanos < 1_000_000_000
}
