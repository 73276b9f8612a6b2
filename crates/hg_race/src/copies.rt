//! Rows that are copied: all, those in front, or one for each path.

ghost use Rattle.std.specs.Prelude.{◌≡◌, ◌||◌, ◌++◌, map, take, is_none, IfOk};
ghost use Rattle.std.specs.List.{list_any};
ghost use Rattle.std.specs.Str.{bytes_eq};
ghost use Rattle.hg_race.specs.Edit.{row_of};
ghost use Rattle.hg_race.specs.Rows.{HoldsEach, map_of, names};

use crate::edits::{Edit, Edits};
use hg_base::{OutOfMemory, Path};
use std::alloc::Global;

/// A copy of all rows.
pub fn copied(alloc: Global, rows: &Edits) -> Result<Edits, OutOfMemory>
    ensures { IfOk result (λ copy. copy ≡ rows.now) }
{
    let mut copy = Edits::new(alloc);
    copy.add(alloc, rows.as_slice())?;
    Ok(copy)
}

/// A copy of the first rows, as many as are used.
pub fn front(alloc: Global, rows: &Edits, used: usize) -> Result<Edits, OutOfMemory>
    ensures { IfOk result (λ copy. copy ≡ take used rows.now) }
{
    let mut copy = Edits::new(alloc);
    let edits = rows.as_slice();
    let end = used.min(edits.len());
    copy.add(alloc, edits.split_at(end).0)?;
    Ok(copy)
}

// Whether an edit has that path.
fn is_named(path: &Path, rows: &[Edit]) -> bool
    ensures { result ≡ list_any (λ row. bytes_eq row.path path.now) rows.now }
{
    rows.iter().any(|row| row.path == *path)
}

// Whether a row gives nothing: its path comes again later, or it has no entry.
#[tactic(auto, using(crate::proofs::Copying::names_mapped))]
fn gives_nothing(row: &Edit, later: &[Edit]) -> bool
    ensures { result ≡ (names row.now.path (map row_of later.now) || is_none (row_of row.now).entry) }
{
    is_named(&row.path, later) | row.entry.is_none()
}

/// One row for each path that has an entry behind all rows: of each path the last one. (Each looks at those behind it: a machine that is stepped
/// in proofs and tests has few rows.)
pub fn compact(alloc: Global, rows: &Edits) -> Result<Edits, OutOfMemory>
    ensures { IfOk result (λ made. HoldsEach made (map_of rows.now)) }
{
    let mut made = Edits::new(alloc);
    let mut left = rows.as_slice();
    while let Some((row, rest)) = left.split_first() {
        if !gives_nothing(row, rest) {
            let copy = row.copy(alloc)?;
            made.push(copy)?;
        }
        left = rest;
    }
    Ok(made)
}
