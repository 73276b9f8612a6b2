//! All nodes of a table.

ghost use Rattle.std.specs.Prelude.{◌≡◌, ◌++◌, ◌∷◌, [], None, OnOk, IfOk, option_map};
ghost use Rattle.std.specs.List.Sorted.{IsStrictlySortedBy};
ghost use Rattle.std.specs.Ordering.{nat_cmp};
ghost use Rattle.std.specs.Cmp.Lexicographic.{slice_cmp};
ghost use Rattle.hg_base.specs.PathText.{is_below, parent_of};
ghost use Rattle.hg_base.specs.Within.{is_above};
ghost use Rattle.hg_mixed.specs.Child.{shown_child};
ghost use Rattle.hg_mixed.specs.Children.{AreChildren, IsChild};
ghost use Rattle.hg_nodes.specs.Edits.{IsFormed};
ghost use Rattle.hg_mixed.specs.Gathered.{AreGathered, Gathers, line_of, path_of, paths_of};
ghost use Rattle.hg_mixed.specs.Held.{table};
ghost use Rattle.hg_mixed.specs.Walk.{IsBelow, ListIsOf, ListsAreOf, walked};

use crate::below::Below;
use crate::child::Child;
use crate::line::Line;
use crate::mixed::Mixed;
use crate::walk::Walk;
use hg_base::{OutOfMemory, PathRef};
use std::alloc::Global;

// Takes a child.
fn add_own<'t>(rows: &mut Vec<Line<'t>>, child: &Child<'t>) -> Result<(), OutOfMemory>
    ensures { OnOk result (rows.new.items ≡ rows.old.items ++ line_of child.now ∷ []) }
{
    rows.push(Line::of(child))?;
    Ok(())
}

// Takes what stands below a child.
#[cycle(gathering)]
#[inline(always)]
fn add_below<'t>(
    mixed: &'t Mixed<'_>,
    child: &Child<'t>,
    rows: &mut Vec<Line<'t>>,
) -> Result<(), OutOfMemory>
    requires formed { IsFormed (table mixed.now) }
    requires child { IsChild mixed.now (parent_of child.now.path.text.now) (shown_child child.now) }
    requires list { ListIsOf mixed.now child.now }
    ensures { OnOk result (Gathers mixed.now (is_below child.now.path.text.now) rows.old.items rows.new.items) }
{
    if !child.has_kids {
        return Ok(());
    }
    add_in(mixed, child.below(), rows)
}

// Takes what stands below a child that has children. (A walk is more room than should be cleared for each node that has none.)
#[cycle(gathering)]
#[inline(never)]
fn add_in<'t>(
    mixed: &'t Mixed<'_>,
    below: Below<'t>,
    rows: &mut Vec<Line<'t>>,
) -> Result<(), OutOfMemory>
    requires formed { IsFormed (table mixed.now) }
    requires below { IsBelow mixed.now below }
    ensures { OnOk result (Gathers mixed.now (is_below below.entry.path.text.now) rows.old.items rows.new.items) }
{
    let children = mixed.walk_in(below);
    add_children(mixed, Some(below.path), children, rows)
}

// Takes what stands below a directory, whose children are walked, where no directory is the root.
#[cycle(gathering)]
fn add_children<'t>(
    mixed: &'t Mixed<'_>,
    dir: Option<PathRef<'t>>,
    mut children: Walk<'t, '_>,
    rows: &mut Vec<Line<'t>>,
) -> Result<(), OutOfMemory>
    requires formed { IsFormed (table mixed.now) }
    requires children { AreChildren mixed.now (option_map (λ d. d.text.now) dir) (walked children) }
    requires lists { ListsAreOf mixed.now children }
    ensures { OnOk result (Gathers mixed.now (is_above (option_map (λ d. d.text.now) dir.entry)) rows.old.items rows.new.items) }
{
    while let Some(child) = children.next() {
        add_own(rows, &child)?;
        add_below(mixed, &child, rows)?;
    }
    Ok(())
}

// Room for as many lines as the docket counts entries, and for an eighth more, since directories have one too; but for no more than the image has records.
fn room<'t>(alloc: Global, mixed: &Mixed<'_>) -> Result<Vec<Line<'t>>, OutOfMemory>
    ensures { IfOk result (λ rows. rows.items ≡ []) }
{
    let docket = mixed.image().docket;
    let lines = docket.entries as u64 + docket.entries as u64 / 8;
    let rows = Vec::with_capacity(alloc, lines.min(docket.used as u64 / 44) as usize)?;
    Ok(rows)
}

/// All nodes, ascending by the bytes of their paths, each with its entry, its copy source and its cache, where it has them.
pub fn gather<'t>(alloc: Global, mixed: &'t Mixed<'_>) -> Result<Vec<Line<'t>>, OutOfMemory>
    requires { IsFormed (table mixed.now) }
    ensures gathered { IfOk result (λ rows. AreGathered mixed.now (is_above None) rows.items) }
    ensures ascending { IfOk result (λ rows. IsStrictlySortedBy (slice_cmp nat_cmp) (paths_of rows.items)) }
{
    let mut rows = room(alloc, mixed)?;
    add_children(mixed, None, mixed.walk(None), &mut rows)?;
    rows.sort_by(|a, b| a.path.text.cmp(b.path.text))?;
    Ok(rows)
}
