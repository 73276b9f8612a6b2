//! The rules of paths as tests on texts.

ghost use Rattle.std.specs.Prelude.{◌≡◌, ◌≤◌, ◌<◌, ◌^◌, ◌-◌, length, option_map};
ghost use Rattle.hg_base.specs.Cut.{IsCut, IsLastCut};
ghost use Rattle.hg_base.specs.PathText.{components};
ghost use Rattle.hg_base.specs.PathRefusal as rule;
ghost use Rattle.hg_base.specs.PathText as paths;

use crate::path::PathFault;

/// What is before and behind the first slash.
pub(crate) fn cut(text: &str) -> Option<(&str, &str)>
    ensures { IsCut text.now result }
{
    text.split_once('/')
}

/// What is before and behind the last slash.
pub(crate) fn cut_last(text: &str) -> Option<(&str, &str)>
    ensures { IsLastCut text.now result }
{
    text.rsplit_once('/')
}

/// Whether a NUL stands in the text.
fn has_nul(text: &str) -> bool
    ensures { result ≡ paths.has_nul text.now }
{
    text.bytes().any(|b| b == 0)
}

/// Whether a slash stands in the text.
fn has_slash(text: &str) -> bool
    ensures { result ≡ paths.has_slash text.now }
{
    text.bytes().any(|b| b == b'/')
}

/// Whether the name may stand between two slashes of a path: not empty, `.` or `..`, without NUL and without a slash.
pub fn is_component(name: &str) -> bool
    ensures { result ≡ paths.is_component name.now }
{
    !(name.is_empty() || name == "." || name == ".." || has_nul(name) || has_slash(name))
}

/// Whether the first component is `.hg`, which a path must not have.
#[tactic(auto, using(crate::proofs::Cuts::reserved_cut, crate::proofs::Cuts::reserved_plain))]
fn is_reserved(text: &str) -> bool
    ensures { result ≡ paths.is_reserved (components text.now) }
{
    match cut(text) {
        Some((first, _)) => first == ".hg",
        None => text == ".hg",
    }
}

/// The byte at which the first piece begins that is no component.
#[tactic(auto, using(crate::proofs::Cuts::bad_found, crate::proofs::Cuts::bad_last, crate::proofs::Cuts::cut_length))]
fn bad_place(text: &str) -> Option<u32>
    requires { length text.now < 2 ^ 32 }
    ensures { result ≡ rule.bad_place 0 (components text.now) }
{
    let mut at = 0;
    let mut rest = text;
    while let Some((front, behind)) = cut(rest) {
        if !is_component(front) {
            return Some(at);
        }
        at += front.len() as u32 + 1;
        rest = behind;
    }
    if is_component(rest) { None } else { Some(at) }
}

/// How many components a text has.
#[tactic(auto, using(crate::proofs::Cuts::one_more_than_slashes))]
pub(crate) fn depth(text: &str) -> u32
    requires { length text.now < 2 ^ 32 - 1 }
    ensures { result ≡ length (components text.now) }
{
    let slashes = text.bytes().filter(|b| *b == b'/').count();
    slashes as u32 + 1
}

/// Why a text is no path, if it isn't: the first rule that it breaks.
pub(crate) fn refused(text: &str) -> Option<PathFault>
    ensures { result ≡ rule.refusal text.now }
{
    if text.is_empty() {
        return Some(PathFault::Empty);
    }
    if text.len() > 65_535 {
        return Some(PathFault::TooLong {
            len: text.len() as u64,
        });
    }
    if let Some(at) = bad_place(text) {
        return Some(PathFault::Component { at });
    }
    if is_reserved(text) {
        return Some(PathFault::Reserved);
    }
    let n = depth(text);
    if n > 2048 {
        return Some(PathFault::TooDeep { n });
    }
    None
}

/// Whether the path stands below the directory: it begins with the directory and a slash.
#[tactic(auto, using(crate::proofs::Below::below_at, crate::proofs::Below::below_other, crate::proofs::Below::below_short))]
pub fn is_below(dir: &str, path: &str) -> bool
    ensures { result ≡ paths.is_below dir.now path.now }
{
    let (dir, path) = (dir.as_bytes(), path.as_bytes());
    if dir.len() >= path.len() {
        return false;
    }
    if path[dir.len()] != b'/' {
        return false;
    }
    path.starts_with(dir)
}

/// The name of the path in the directory, where it stands right in it.
pub fn child_name<'a>(dir: Option<&str>, path: &'a str) -> Option<&'a str>
    ensures { option_map (λ name. name.now) result ≡ paths.child_of (option_map (λ d. d.now) dir.entry) path.now }
{
    match cut_last(path) {
        None => match dir {
            None => Some(path),
            Some(_) => None,
        },
        Some((parent, name)) => match dir {
            None => None,
            Some(dir) => { if dir == parent { Some(name) } else { None } }
        },
    }
}
