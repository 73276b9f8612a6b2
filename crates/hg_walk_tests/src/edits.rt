// Changes of a record by commands, which are drawn.
use crate::draws::Draws;
use crate::parents::{FIRST, NULL, Parents, SECOND};
use crate::places::PLACES;
use hg_append::{Encoded, Way, encode};
use hg_base::Id20;
use hg_docket::Docket;
use hg_image::Image;
use hg_mixed::Mixed;
use hg_ops::{Parent, add, copy, forget, remove, set_parents};
use hg_tree::MemTree;
use std::alloc::Global;
use std::test::Fail;

/// The docket of a record.
pub(crate) fn docket_of(record: &Encoded) -> Result<Docket<'_>, Fail> {
    if record.docket.len() > 512 {
        return Err("a long docket".into());
    }
    Ok(Docket::read(&record.docket)?)
}

/// A table as a record of its own.
pub(crate) fn written(alloc: Global, mixed: &Mixed<'_>) -> Result<Encoded, Fail> {
    Ok(encode(alloc, mixed, Way::Rewrite)?)
}

// The calls, each by itself: what they promise isn't carried through a step.
fn track(alloc: Global, mixed: &mut Mixed<'_>, tree: &mut MemTree, path: &str) -> Result<(), Fail> {
    add(alloc, mixed, tree, path)?;
    Ok(())
}

fn untrack(alloc: Global, mixed: &mut Mixed<'_>, path: &str) -> Result<(), Fail> {
    forget(alloc, mixed, path)?;
    Ok(())
}

fn copy_file(
    alloc: Global,
    mixed: &mut Mixed<'_>,
    tree: &mut MemTree,
    from: &str,
    to: &str,
) -> Result<(), Fail> {
    copy(alloc, mixed, tree, from, to)?;
    Ok(())
}

fn remove_file(
    alloc: Global,
    mixed: &mut Mixed<'_>,
    tree: &mut MemTree,
    parents: &mut Parents,
    path: &str,
    after: bool,
) -> Result<(), Fail> {
    let (p1, _) = mixed.parents();
    let shelf = &mut parents.shelf;
    remove(alloc, mixed, tree, shelf, &mut Parent::of(p1), path, after)?;
    Ok(())
}

// One parent, or both.
fn reparent(
    alloc: Global,
    mixed: &mut Mixed<'_>,
    parents: &Parents,
    which: usize,
) -> Result<(), Fail> {
    let (first, second, none) = (&parents.first, &parents.second, &parents.none);
    match which {
        0 => set_parents(alloc, mixed, SECOND, NULL, second, none)?,
        1 => set_parents(alloc, mixed, FIRST, SECOND, first, second)?,
        _ => set_parents(alloc, mixed, FIRST, NULL, first, none)?,
    }
    Ok(())
}

fn change(
    alloc: Global,
    draws: &mut Draws,
    mixed: &mut Mixed<'_>,
    tree: &mut MemTree,
    parents: &mut Parents,
) -> Result<(), Fail> {
    let path = draws.one_of(PLACES);
    match draws.below(8) {
        0..=2 => track(alloc, mixed, tree, path),
        3 => untrack(alloc, mixed, path),
        4 => copy_file(alloc, mixed, tree, path, draws.one_of(PLACES)),
        5 => remove_file(alloc, mixed, tree, parents, path, draws.once_in(2)),
        _ => reparent(alloc, mixed, parents, draws.below(5)),
    }
}

/// The record behind a command.
pub(crate) fn edited(
    alloc: Global,
    draws: &mut Draws,
    record: &Encoded,
    tree: &mut MemTree,
    parents: &mut Parents,
) -> Result<Encoded, Fail> {
    let docket = docket_of(record)?;
    let mut mixed = Mixed::open(Image::open(&docket, &record.bytes)?);
    change(alloc, draws, &mut mixed, tree, parents)?;
    written(alloc, &mixed)
}

// Tracks most of the paths.
fn track_most(
    alloc: Global,
    draws: &mut Draws,
    mixed: &mut Mixed<'_>,
    tree: &mut MemTree,
) -> Result<(), Fail> {
    for path in PLACES {
        if !draws.once_in(6) {
            track(alloc, mixed, tree, *path)?;
        }
    }
    Ok(())
}

/// A first record: most of what stands there is tracked.
pub(crate) fn first_record(
    alloc: Global,
    draws: &mut Draws,
    tree: &mut MemTree,
    parents: &Parents,
) -> Result<Encoded, Fail> {
    let docket = Docket::read(b"")?;
    let mut mixed = Mixed::open(Image::open(&docket, b"")?);
    reparent(alloc, &mut mixed, parents, 2)?;
    track_most(alloc, draws, &mut mixed, tree)?;
    written(alloc, &mixed)
}
