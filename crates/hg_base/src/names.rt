//! Names in a directory.

ghost use Rattle.std.specs.Prelude.{◌≡◌, ◌&&◌, IsTrue, Some, option_map};
ghost use Rattle.hg_base.specs.PathText as paths;

use crate::path::PathRef;
use crate::rules::{depth, is_component};

// A component that is no path is `.hg`, or too long.
#[tactic(auto, using(crate::proofs::Joined::path_at_root))]
fn is_path_at_root(name: &str) -> bool
    requires { IsTrue (paths.is_component name.now) }
    ensures { result ≡ paths.is_path name.now }
{
    !(name == ".hg" || name.len() > 65_535)
}

#[tactic(auto, using(crate::proofs::Joined::path_below))]
fn is_path_below(dir: PathRef<'_>, name: &str) -> bool
    requires { IsTrue (paths.is_component name.now) }
    ensures { result ≡ paths.is_path (paths.joined (Some dir.entry.text.now) name.now) }
{
    let room = 65_535 - dir.text.len();
    !(name.len() >= room || depth(dir.text) >= 2048)
}

/// Whether the name is a component that makes a path in the directory, where no directory is the root.
pub fn makes_path(dir: Option<PathRef<'_>>, name: &str) -> bool
    ensures { result ≡ (paths.is_component name.now && paths.is_path (paths.joined (option_map (λ d. d.text.now) dir.entry) name.now)) }
{
    if !is_component(name) {
        return false;
    }
    match dir {
        None => is_path_at_root(name),
        Some(dir) => is_path_below(dir, name),
    }
}
