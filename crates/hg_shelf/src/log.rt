// What was done to the files of a shelf in memory, beside the files as they are now.
ghost use Rattle.std.specs.Prelude.{◌≡◌, ◌∷◌, ◌++◌, [], option_map, OnOk, OnErr};
ghost use Rattle.hg_shelf.specs.Memory.{empty, replayed};

use crate::files::step;
use crate::outside::Change;
use hg_base::{Blob, OutOfMemory};
use std::alloc::Global;
use std::collections::BTreeMap;
use std::marker::Model;

/// Changes in the order in which they were made. Contracts see the list of them; the files are what they make of none.
#[derive(Debug, Drop)]
pub struct Log {
    alloc: Global,
    files: BTreeMap<String, Blob>,
    changes: Vec<Change>,
}

impl Model for Log {
    ghost use Rattle.std.specs.Prelude.{List};
    ghost use Rattle.std.specs.BTreeMap.{get_by_text};
    ghost use Rattle.hg_shelf.specs.Memory.{AreLeft};
    ghost use Rattle.hg_shelf.specs.declared.outside.Change.{Change};

    ghost Value = { List Change };

    ghost view = { λ l. l.changes.items };

    ghost invariant = { λ l. AreLeft l.changes.items (get_by_text l.files) };
}

impl Log {
    /// No change and no file.
    pub fn new(alloc: Global) -> Log
        ensures { result ≡ [] }
    {
        Log {
            alloc,
            files: BTreeMap::new(alloc),
            changes: Vec::new(alloc),
        }
    }

    /// The changes so far.
    pub fn changes(&self) -> &[Change]
        ensures { result.now ≡ self.now }
    {
        self.changes.as_slice()
    }

    /// The bytes of a file, `None` where it is absent.
    pub fn get(&self, name: &str) -> Option<&[u8]>
        ensures { option_map (λ bytes. bytes.now) result ≡ (replayed self.now empty).files name.now }
    {
        match self.files.get(name) {
            Some(bytes) => Some(bytes.as_bytes()),
            None => None,
        }
    }

    /// Makes a change, or leaves all as it was.
    pub fn make(&mut self, change: Change) -> Result<(), OutOfMemory>
        ensures ok { OnOk result (self.new ≡ self.old ++ change ∷ []) }
        ensures err { OnErr result (self.new ≡ self.old) }
    {
        self.changes.reserve(1)?;
        step(self.alloc, &mut self.files, &change.what)?;
        self.changes.push(change).unwrap();
        Ok(())
    }
}
