//! What a reader of an ignore text is warned of.

ghost use Rattle.std.specs.Prelude.{◌≡◌, ◌<◌, ◌++◌, ◌∷◌, [], Some, length, OnOk, OnErr};
ghost use Rattle.std.specs.List.{slice_get};

use hg_base::{OutOfMemory, Text};
use std::alloc::Global;
use std::marker::Model;

/// A line names a syntax that isn't known. Lines are counted from 1.
#[derive(Debug, Drop)]
pub struct Warning {
    pub line: u32,
    pub name: Text,
}

/// A list of warnings.
#[derive(Debug, Drop)]
pub struct Warnings {
    warnings: Vec<Warning>,
}

impl Model for Warnings {
    ghost use Rattle.std.specs.Prelude.{List};
    ghost use Rattle.hg_ignore.specs.declared.warnings.Warning.{Warning};

    ghost Value = { List Warning };

    ghost view = { λ w. w.warnings.items };
}

impl Warnings {
    /// No warnings.
    pub fn new(alloc: Global) -> Warnings
        ensures { result ≡ [] }
    {
        Warnings {
            warnings: Vec::new(alloc),
        }
    }

    /// Puts the warning last.
    pub fn push(&mut self, item: Warning) -> Result<(), OutOfMemory>
        ensures ok { OnOk result (self.new ≡ self.old ++ item ∷ []) }
        ensures err { OnErr result (self.new ≡ self.old) }
    {
        self.warnings.push(item)?;
        Ok(())
    }

    pub fn len(&self) -> usize
        ensures { result ≡ length self.now }
    {
        self.warnings.len()
    }

    /// The warning at a place below the length.
    pub fn at(&self, i: usize) -> &Warning
        requires { i < length self.now }
        ensures { slice_get self.now i ≡ Some result.now }
    {
        &self.warnings[i]
    }
}
