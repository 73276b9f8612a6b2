//! The paths of a table that have an entry.

ghost use Rattle.std.specs.Prelude.{OnOk, IfOk, option_map};
ghost use Rattle.hg_base.specs.PathText.{is_below, parent_of};
ghost use Rattle.hg_base.specs.Within.{is_above};
ghost use Rattle.hg_mixed.specs.Child.{shown_child};
ghost use Rattle.hg_mixed.specs.Children.{IsChild};
ghost use Rattle.hg_nodes.specs.Edits.{IsFormed};
ghost use Rattle.hg_mixed.specs.Held.{table};
ghost use Rattle.hg_ops.specs.Collected.{Collects, CollectsAt, path_of};
ghost use Rattle.hg_ops.specs.Setting.{AreAll};

use hg_base::{OutOfMemory, Path, PathRef};
use hg_mixed::{Child, Mixed};
use std::alloc::Global;

// Takes the path of a child that has an entry.
fn add_own(alloc: Global, paths: &mut Vec<Path>, child: &Child<'_>) -> Result<(), OutOfMemory>
    ensures { OnOk result (CollectsAt child.now paths.old.items paths.new.items) }
{
    if child.entry.is_some() {
        paths.push(Path::of(alloc, child.path)?)?;
    }
    Ok(())
}

// Takes the paths below a child.
#[cycle(collecting)]
fn add_below(
    alloc: Global,
    paths: &mut Vec<Path>,
    mixed: &Mixed<'_>,
    child: &Child<'_>,
) -> Result<(), OutOfMemory>
    requires formed { IsFormed (table mixed.now) }
    requires child { IsChild mixed.now (parent_of (path_of child.now)) (shown_child child.now) }
    ensures { OnOk result (Collects mixed.now (is_below (path_of child.now)) paths.old.items paths.new.items) }
{
    if !child.has_kids {
        return Ok(());
    }
    add_children(alloc, paths, mixed, Some(child.path))
}

// Takes the paths below a directory, where no directory is the root.
#[cycle(collecting)]
fn add_children(
    alloc: Global,
    paths: &mut Vec<Path>,
    mixed: &Mixed<'_>,
    dir: Option<PathRef<'_>>,
) -> Result<(), OutOfMemory>
    requires { IsFormed (table mixed.now) }
    ensures { OnOk result (Collects mixed.now (is_above (option_map (λ d. d.text.now) dir.entry)) paths.old.items paths.new.items) }
{
    let mut children = mixed.children(dir);
    while let Some(child) = children.next() {
        add_own(alloc, paths, &child)?;
        add_below(alloc, paths, mixed, &child)?;
    }
    Ok(())
}

/// All paths of a table that have an entry, in no stated order.
pub fn paths_with_entry(alloc: Global, mixed: &Mixed<'_>) -> Result<Vec<Path>, OutOfMemory>
    ensures all { IfOk result (λ paths. AreAll (table mixed.now) paths.items) }
    ensures formed { IsFormed (table mixed.now) }
{
    let mut paths = Vec::new(alloc);
    let _ = mixed.parents();
    add_children(alloc, &mut paths, mixed, None)?;
    Ok(paths)
}
