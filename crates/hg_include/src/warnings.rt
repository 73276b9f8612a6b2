//! What a reader of ignore texts is warned of.

ghost use Rattle.std.specs.Prelude.{◌≡◌, ◌<◌, ◌++◌, ◌∷◌, [], Some, length, OnOk, OnErr};
ghost use Rattle.std.specs.List.{slice_get};

use hg_base::{OutOfMemory, Path, Text};
use std::alloc::Global;
use std::marker::Model;

/// A line of a file names a syntax that isn't known; or, where it is `missing`, it names a file and no regular file stands there. Lines are counted
/// from 1, and the name is what the line says.
#[derive(Debug, Drop)]
pub struct Warning {
    pub file: Path,
    pub line: u32,
    pub missing: bool,
    pub name: Text,
}

/// A list of warnings.
#[derive(Debug, Drop)]
pub struct Warnings {
    warnings: Vec<Warning>,
}

impl Model for Warnings {
    ghost use Rattle.std.specs.Prelude.{List};
    ghost use Rattle.hg_include.specs.declared.warnings.Warning.{Warning};

    ghost Value = { List Warning };

    ghost view = { λ w. w.warnings.items };
}

impl Warnings {
    /// No warnings.
    pub fn new(alloc: Global) -> Warnings
        ensures { result ≡ [] }
    {
        Warnings {
            warnings: Vec::new(alloc),
        }
    }

    /// Puts the warning last.
    pub fn push(&mut self, item: Warning) -> Result<(), OutOfMemory>
        ensures ok { OnOk result (self.new ≡ self.old ++ item ∷ []) }
        ensures err { OnErr result (self.new ≡ self.old) }
    {
        self.warnings.push(item)?;
        Ok(())
    }

    pub fn len(&self) -> usize
        ensures { result ≡ length self.now }
    {
        self.warnings.len()
    }

    /// The warning at a place below the length.
    pub fn at(&self, i: usize) -> &Warning
        requires { i < length self.now }
        ensures { slice_get self.now i ≡ Some result.now }
    {
        &self.warnings[i]
    }
}
