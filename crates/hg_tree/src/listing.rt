//! The names in a directory of the tree in memory.

ghost use Rattle.std.specs.Prelude.{◌≡◌, IfOk, option_map};
ghost use Rattle.std.specs.BTreeMap.{get_by_text};
ghost use Rattle.hg_base.specs.PathText.{child_of};
ghost use Rattle.hg_tree.specs.Children.{AreChildren};
ghost use Rattle.hg_tree.specs.Moment.{AreAtPaths, is_listed};

use crate::name::Name;
use crate::thing::Placed;
use crate::things::is_dir;
use hg_base::{OutOfMemory, PathRef, child_name};
use std::alloc::Global;
use std::collections::BTreeMap;

/// Whether a directory stands there; the root is one.
pub fn is_listed(things: &BTreeMap<String, Placed>, dir: Option<PathRef<'_>>) -> bool
    ensures { result ≡ is_listed (get_by_text things.now) (option_map (λ d. d.text.now) dir.entry) }
{
    match dir {
        Some(dir) => is_dir(things, dir.text),
        None => true,
    }
}

// The name of the path in the directory, where it stands right in it.
fn child<'a>(dir: Option<PathRef<'_>>, path: &'a str) -> Option<&'a str>
    ensures { option_map (λ name. name.now) result ≡ child_of (option_map (λ d. d.text.now) dir.entry) path.now }
{
    match dir {
        Some(dir) => child_name(Some(dir.text), path),
        None => child_name(None, path),
    }
}

/// The names of what stands right in the directory.
pub fn names_in(
    alloc: Global,
    things: &BTreeMap<String, Placed>,
    dir: Option<PathRef<'_>>,
) -> Result<Vec<Name>, OutOfMemory>
    requires { AreAtPaths (get_by_text things.now) }
    ensures { IfOk result (λ names. AreChildren (get_by_text things.now) (option_map (λ d. d.text.now) dir.entry) names.items) }
{
    let mut names = Vec::new(alloc);
    for key in things.keys() {
        if let Some(name) = child(dir, key.as_str()) {
            let name = Name::of(alloc, name)?;
            names.push(name)?;
        }
    }
    Ok(names)
}
