//! The rows of a new manifest.

ghost use Rattle.std.specs.Prelude.{◌≡◌, ◌<◌, ◌++◌, ◌∷◌, [], Some, length, OnOk, OnErr};
ghost use Rattle.std.specs.List.{slice_get};

use hg_base::{OutOfMemory, Path};
use hg_manifest::FileRow;
use std::alloc::Global;
use std::marker::Model;

/// A path, and what a manifest says of it.
#[derive(Debug, Drop)]
pub struct NewRow {
    pub path: Path,
    pub row: FileRow,
}

/// A list of rows. A manifest that is to be read back has them ascending by path.
#[derive(Debug, Drop)]
pub struct NewRows {
    rows: Vec<NewRow>,
}

impl Model for NewRows {
    ghost use Rattle.std.specs.Prelude.{List};
    ghost use Rattle.hg_store.specs.declared.rows.NewRow.{NewRow};

    ghost Value = { List NewRow };

    ghost view = { λ r. r.rows.items };
}

impl NewRows {
    /// No rows.
    pub fn new(alloc: Global) -> NewRows
        ensures { result ≡ [] }
    {
        NewRows {
            rows: Vec::new(alloc),
        }
    }

    /// Puts the row last.
    pub fn push(&mut self, item: NewRow) -> Result<(), OutOfMemory>
        ensures ok { OnOk result (self.new ≡ self.old ++ item ∷ []) }
        ensures err { OnErr result (self.new ≡ self.old) }
    {
        self.rows.push(item)?;
        Ok(())
    }

    pub fn len(&self) -> usize
        ensures { result ≡ length self.now }
    {
        self.rows.len()
    }

    /// The row at a place below the length.
    pub fn at(&self, i: usize) -> &NewRow
        requires { i < length self.now }
        ensures { slice_get self.now i ≡ Some result.now }
    {
        &self.rows[i]
    }
}
