//! What others are to change just before calls of the tree in memory.

ghost use Rattle.std.specs.Prelude.{◌≡◌, ◌++◌, ◌∷◌, [], ℕ, IsTrue, IfOk, OnOk, OnErr, IfSome, length, slice_get};
ghost use Rattle.hg_tree.specs.Coming.{changes_of, due_at, is_short_change};

use crate::asked::{Due, Outside};
use hg_base::{OutOfMemory, Path};
use std::alloc::Global;
use std::marker::Model;

/// Changes that are due, in the order in which they were told.
#[derive(Debug, Drop)]
pub struct Coming {
    due: Vec<Due>,
}

impl Model for Coming {
    ghost use Rattle.std.specs.Prelude.{List, All};
    ghost use Rattle.hg_tree.specs.declared.asked.Due.{Due};
    ghost use Rattle.hg_tree.specs.Coming.{IsShortDue};

    ghost Value = { List Due };

    ghost view = { λ c. c.due.items };

    ghost invariant = { λ c. All IsShortDue c.due.items };
}

impl Coming {
    /// Nothing is due.
    pub fn new(alloc: Global) -> Coming
        ensures { result ≡ [] }
    {
        Coming {
            due: Vec::new(alloc),
        }
    }

    /// One more is due.
    pub fn push(&mut self, call: u64, change: Outside) -> Result<(), OutOfMemory>
        requires { IsTrue (is_short_change change) }
        ensures ok { OnOk result (self.new ≡ self.old ++ record { call = call; change = change } ∷ []) }
        ensures err { OnErr result (self.new ≡ self.old) }
    {
        self.due.push(Due { call, change })?;
        Ok(())
    }

    pub fn len(&self) -> usize
        ensures { result ≡ length self.now }
    {
        self.due.len()
    }

    /// A copy of what is due at the call by the one at that index.
    pub fn at(&self, alloc: Global, index: usize, call: u64) -> Result<Option<Outside>, OutOfMemory>
        ensures found { IfOk result (λ found. changes_of found ≡ due_at call (slice_get self.now index)) }
        ensures short { IfOk result (λ found. IfSome found (λ what. IsTrue (is_short_change what))) }
        ensures there { OnErr result (length (due_at call (slice_get self.now index)) ≡ 1) }
    {
        let Some(due) = self.due.get(index) else {
            return Ok(None);
        };
        if due.call != call {
            return Ok(None);
        }
        let change = copy_of(alloc, &due.change)?;
        Ok(Some(change))
    }
}

fn copy_of(alloc: Global, change: &Outside) -> Result<Outside, OutOfMemory>
    ensures { IfOk result (λ copy. copy ≡ change.now) }
{
    match change {
        Outside::Place { path, thing, mtime } => {
            let path = Path::of(alloc, path.as_ref())?;
            let thing = thing.copy(alloc)?;
            Ok(Outside::Place {
                path,
                thing,
                mtime: *mtime,
            })
        }
        Outside::Take { path } => {
            let path = Path::of(alloc, path.as_ref())?;
            Ok(Outside::Take { path })
        }
        Outside::Clock { to } => Ok(Outside::Clock { to: *to }),
    }
}
