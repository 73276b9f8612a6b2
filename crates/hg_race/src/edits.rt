//! A change of the record, as a list of paths and what each has from then on.

ghost use Rattle.std.specs.Prelude.{◌≡◌, ◌<◌, ◌++◌, ◌∷◌, [], Some, length, map, IfOk, OnOk, OnErr};
ghost use Rattle.std.specs.List.{slice_get};
ghost use Rattle.hg_race.specs.Edit.{row_of};

use hg_base::{OutOfMemory, Path};
use hg_entry::Entry;
use std::alloc::Global;
use std::marker::Model;

/// A path, and the entry that it has from then on; `None` takes its entry away.
#[derive(Debug, Drop)]
pub struct Edit {
    pub path: Path,
    pub entry: Option<Entry>,
}

/// A list of edits, of which the later ones win. Contracts see it as rows, and a file of the machine is such a list too.
#[derive(Debug, Drop)]
pub struct Edits {
    edits: Vec<Edit>,
}

impl Model for Edits {
    ghost use Rattle.std.specs.Prelude.{List, map};
    ghost use Rattle.hg_race.specs.Rows.{Row};

    ghost Value = { List Row };

    ghost use Rattle.hg_race.specs.Edit.{row_of};

    ghost view = { λ e. map row_of e.edits.items };
}

impl Edits {
    /// No edits.
    pub fn new(alloc: Global) -> Edits
        ensures { result ≡ [] }
    {
        Edits {
            edits: Vec::new(alloc),
        }
    }

    /// Puts the edit last.
    pub fn push(&mut self, item: Edit) -> Result<(), OutOfMemory>
        ensures ok { OnOk result (self.new ≡ self.old ++ row_of item ∷ []) }
        ensures err { OnErr result (self.new ≡ self.old) }
    {
        self.edits.push(item)?;
        Ok(())
    }

    pub fn len(&self) -> usize
        ensures { result ≡ length self.now }
    {
        self.edits.len()
    }

    /// The edit at a place below the length.
    pub fn at(&self, i: usize) -> &Edit
        requires { i < length self.now }
        ensures { slice_get self.now i ≡ Some (row_of result.now) }
    {
        &self.edits[i]
    }

    // All edits.
    pub(crate) fn as_slice(&self) -> &[Edit]
        ensures { map row_of result.now ≡ self.now }
    {
        self.edits.as_slice()
    }

    // Puts copies of edits last.
    pub(crate) fn add(&mut self, alloc: Global, more: &[Edit]) -> Result<(), OutOfMemory>
        ensures { OnOk result (self.new ≡ self.old ++ map row_of more.now) }
    {
        for edit in more {
            let copy = edit.copy(alloc)?;
            self.push(copy)?;
        }
        Ok(())
    }
}

impl Edit {
    // The same edit once more.
    pub(crate) fn copy(&self, alloc: Global) -> Result<Edit, OutOfMemory>
        ensures { IfOk result (λ copy. row_of copy ≡ row_of self.now) }
    {
        let path = Path::of(alloc, self.path.as_ref())?;
        Ok(Edit {
            path,
            entry: self.entry,
        })
    }
}
