//! Reading the flat map from a data file: a walk over all its nodes.

ghost use Rattle.std.specs.Prelude.{◌≡◌, ◌∷◌, [], IfOk, OnOk, option_map};
ghost use Rattle.hg_entry.specs.Entry as record_of;
ghost use Rattle.hg_entry.specs.Table.{flat_of};
ghost use Rattle.hg_image.specs.Reading.{table_in};
ghost use Rattle.hg_image.specs.View.{row, rows_below, rows_in};
ghost use Rattle.hg_flat.specs.Kept.{shown_row};
ghost use Rattle.hg_flat.specs.Recorded.{Adds, Records};
ghost use Rattle.hg_flat.specs.Shown.{flat_in, rows_of};

use crate::flat::Flat;
use crate::kept::FlatRow;
use hg_base::{OutOfMemory, Path, PathRef};
use hg_entry::Entry;
use hg_image::{Image, List, NodeRef};
use std::alloc::Global;

// A row of its own for a path with an entry.
fn row_for(
    alloc: Global,
    path: PathRef<'_>,
    entry: Entry,
    source: Option<PathRef<'_>>,
) -> Result<FlatRow, OutOfMemory>
    ensures path { IfOk result (λ r. r.path ≡ path.entry.text.now) }
    ensures shown { IfOk result (λ r. shown_row r ≡ (record_of.view entry, option_map (λ s. s.text.now) source.entry)) }
{
    let path = Path::of(alloc, path)?;
    let source = owned(alloc, source)?;
    Ok(FlatRow {
        path,
        entry,
        source,
    })
}

fn owned(alloc: Global, path: Option<PathRef<'_>>) -> Result<Option<Path>, OutOfMemory>
    ensures { IfOk result (λ owned. owned ≡ option_map (λ p. p.text.now) path.entry) }
{
    match path {
        None => Ok(None),
        Some(path) => Ok(Some(Path::of(alloc, path)?)),
    }
}

// Puts what a node records of its own path.
fn add_own(alloc: Global, found: &mut Vec<FlatRow>, node: NodeRef<'_>) -> Result<(), OutOfMemory>
    ensures { OnOk result (Adds (row node.entry ∷ []) found.old.items found.new.items) }
{
    if let Some(entry) = node.entry() {
        found.push(row_for(alloc, node.path(), entry, node.source())?)?;
    }
    Ok(())
}

// Puts what a node and the nodes below it record.
#[cycle(reading)]
fn add_node(alloc: Global, found: &mut Vec<FlatRow>, node: NodeRef<'_>) -> Result<(), OutOfMemory>
    ensures { OnOk result (Adds (row node.entry ∷ rows_below node.entry) found.old.items found.new.items) }
{
    add_own(alloc, found, node)?;
    add_list(alloc, found, node.children())
}

#[cycle(reading)]
fn add_list(alloc: Global, found: &mut Vec<FlatRow>, list: List<'_>) -> Result<(), OutOfMemory>
    ensures { OnOk result (Adds (rows_in list.entry) found.old.items found.new.items) }
{
    for i in 0..list.len() {
        add_node(alloc, found, list.get(i))?;
    }
    Ok(())
}

impl Flat {
    /// What a record says of each path: the parents of its docket, and each node with an entry.
    pub fn read(alloc: Global, image: &Image<'_>) -> Result<Flat, OutOfMemory>
        // Of each path with an entry the entry and its source are those of the table.
        ensures records { IfOk result (λ flat. Records (table_in image.now) (rows_of flat)) }
        // So are the parents, and by path the marks and the sources.
        ensures flat { IfOk result (λ flat. flat_in flat ≡ flat_of (table_in image.now)) }
    {
        let docket = image.docket();
        // The docket's count may be wrong: no more room is taken at once than for nodes that stand side by side in the used bytes.
        let room = docket.entries.min(docket.used / 44);
        let mut found = Vec::with_capacity(alloc, room as usize)?;
        add_list(alloc, &mut found, image.root())?;
        Flat::of(docket.p1, docket.p2, found)
    }
}
