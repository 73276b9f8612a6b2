//! The rows of a status.

ghost use Rattle.std.specs.Prelude.{◌≡◌, ◌<◌, ◌++◌, ◌∷◌, [], Some, length, OnOk, OnErr};
ghost use Rattle.std.specs.List.{slice_get};

use hg_base::{OutOfMemory, Path};
use hg_compare::Letter;
use std::alloc::Global;
use std::marker::Model;

/// One line of a status: a path, its letter, and what it was copied from where that is recorded.
#[derive(Debug, Drop)]
pub struct Row {
    pub letter: Letter,
    pub path: Path,
    pub source: Option<Path>,
}

/// A list of rows.
#[derive(Debug, Drop)]
pub struct Rows {
    rows: Vec<Row>,
}

impl Model for Rows {
    ghost use Rattle.std.specs.Prelude.{List};
    ghost use Rattle.hg_listing.specs.declared.row.Row.{Row};

    ghost Value = { List Row };

    ghost view = { λ r. r.rows.items };
}

impl Rows {
    /// No rows.
    pub fn new(alloc: Global) -> Rows
        ensures { result ≡ [] }
    {
        Rows {
            rows: Vec::new(alloc),
        }
    }

    /// These rows.
    pub fn of(rows: Vec<Row>) -> Rows
        ensures { result ≡ rows.items }
    {
        Rows { rows }
    }

    /// Puts the row last.
    pub fn push(&mut self, item: Row) -> Result<(), OutOfMemory>
        ensures ok { OnOk result (self.new ≡ self.old ++ item ∷ []) }
        ensures err { OnErr result (self.new ≡ self.old) }
    {
        self.rows.push(item)?;
        Ok(())
    }

    pub fn len(&self) -> usize
        ensures { result ≡ length self.now }
    {
        self.rows.len()
    }

    /// The row at a place below the length.
    pub fn at(&self, i: usize) -> &Row
        requires { i < length self.now }
        ensures { slice_get self.now i ≡ Some result.now }
    {
        &self.rows[i]
    }
}

/// Which letters a status is asked for; `d` is `!`, `u` is `?`.
#[derive(Clone, Copy, Debug, PartialEq, Eq)]
pub struct Wanted {
    pub m: bool,
    pub a: bool,
    pub r: bool,
    pub d: bool,
    pub u: bool,
    pub i: bool,
    pub c: bool,
}
