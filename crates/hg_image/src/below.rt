//! The path of a node, seen by its name alone: what is before the name is the directory's path, which is known to be one.

ghost use Rattle.std.specs.Prelude.{◌≡◌, ◌+◌, ◌∷◌, ◌++◌, ◌<◌, ◌≤◌, ◌^◌, None, length, true, IsTrue, IfSome, option_map};
ghost use Rattle.std.specs.Str as text;
ghost use Rattle.hg_base.specs.PathText as paths;
ghost use Rattle.hg_base.specs.PathText.{joined, is_same_dir, parent_of};
ghost use Rattle.hg_image.specs.Node.{path_of, name_of, path_fault};
ghost use Rattle.hg_image.specs.Walk.{depth_of, levels};

use crate::parts::{part, sound_text};
use hg_base::{PathRef, valid_name};
use hg_node::{Rec, within};

/// The path of a node, its name, and whether it stands right in the directory.
#[derive(Clone, Copy)]
pub struct Found<'a> {
    pub path: PathRef<'a>,
    pub name: &'a str,
    pub stands: bool,
}

/// The path of a node right in a directory that has room for so many levels of lists, where a look at the name shows that it is one.
#[inline(always)]
pub fn find_below<'a>(
    bytes: &'a [u8],
    dir: Option<PathRef<'_>>,
    depth: u32,
    rec: Rec,
) -> Option<Found<'a>>
    requires used { length bytes.now < 2 ^ 32 }
    requires levels { depth_of (option_map (λ d. d.text.now) dir) + depth ≤ levels }
    ensures fault { IfSome result (λ f. path_fault bytes.entry.now rec ≡ None) }
    ensures path { IfSome result (λ f. f.path.text.now ≡ path_of bytes.entry.now rec) }
    ensures name { IfSome result (λ f. f.name.now ≡ name_of bytes.entry.now rec) }
    ensures stands { IfSome result (λ f. f.stands ≡ is_same_dir (option_map (λ d. d.text.now) dir.entry) (parent_of (path_of bytes.entry.now rec))) }
{
    if !within(rec.path_start, rec.path_len as u64, bytes.len() as u32) {
        return None;
    }
    let text = part(bytes, rec.path_start, rec.path_len);
    let Some(name) = name_in(dir, text) else {
        return None;
    };
    if !makes_path(dir, depth, name) {
        return None;
    }
    let path = PathRef {
        text: sound_text(bytes, rec.path_start, rec.path_len),
    };
    Some(Found {
        path,
        name,
        stands: true,
    })
}

// The name that makes a text with the directory, none for the root, where the text begins so.
#[inline(always)]
fn name_in<'a>(dir: Option<PathRef<'_>>, bytes: &'a [u8]) -> Option<&'a str>
    ensures whole { IfSome result (λ name. bytes.now ≡ joined (option_map (λ d. d.text.now) dir.entry) name.now) }
    ensures utf8 { IfSome result (λ name. text.is_utf8 bytes.now ≡ true) }
    ensures component { IfSome result (λ name. paths.is_component name.now ≡ true) }
{
    match dir {
        None => valid_name(bytes),
        Some(dir) => name_behind(dir.text, bytes),
    }
}

// The name behind the directory and a slash.
#[inline(always)]
fn name_behind<'a>(dir: &str, bytes: &'a [u8]) -> Option<&'a str>
    ensures whole { IfSome result (λ name. bytes.now ≡ dir.now ++ 47 ∷ name.now) }
    ensures utf8 { IfSome result (λ name. text.is_utf8 bytes.now ≡ true) }
    ensures component { IfSome result (λ name. paths.is_component name.now ≡ true) }
{
    let Some(rest) = behind(dir.as_bytes(), bytes) else {
        return None;
    };
    let Some(name) = valid_name(rest) else {
        return None;
    };
    Some(name)
}

// What is behind the directory and a slash.
#[inline(always)]
fn behind<'a>(dir: &[u8], bytes: &'a [u8]) -> Option<&'a [u8]>
    ensures { IfSome result (λ name. bytes.now ≡ dir.now ++ 47 ∷ name.now) }
{
    if dir.len() >= bytes.len() {
        return None;
    }
    let (front, rest) = bytes.split_at(dir.len());
    if rest[0] != b'/' {
        return None;
    }
    if front != dir {
        return None;
    }
    Some(rest.split_at(1).1)
}

// Whether the name, a component, is seen to make a path in the directory, where it makes a text that isn't too long.
#[inline(always)]
#[tactic(auto, using(crate::proofs::Seen::seen_below))]
fn makes_path(dir: Option<PathRef<'_>>, depth: u32, name: &str) -> bool
    requires short { length (joined (option_map (λ d. d.text.now) dir) name.now) ≤ 65535 }
    requires levels { depth_of (option_map (λ d. d.text.now) dir) + depth ≤ levels }
    requires component { paths.is_component name.now ≡ true }
    ensures { result ≡ true → IsTrue (paths.is_path (joined (option_map (λ d. d.text.now) dir.entry) name.now)) }
{
    if depth < 2 {
        return false;
    }
    match dir {
        None => name != ".hg",
        Some(_) => true,
    }
}
