//! A working copy in memory that nobody but its caller changes.

ghost use Rattle.std.specs.Prelude.{◌≡◌, []};

use hg_base::{Failed, Got, Kind, PathRef, Stat, Time};
use hg_tree::{Asked, MemTree, Name, Tree, TreeFault};
use std::alloc::Global;

/// A working copy in memory for which no change of others is due. Its moments begin behind the last change that another made.
#[derive(Drop)]
pub struct AloneTree {
    pub tree: MemTree,
    ghost alone: { tree.due ≡ [] },
}

impl AloneTree {
    /// A working copy that others placed things into, and from now on don't touch.
    pub fn of(tree: MemTree) -> AloneTree
        requires { tree.due ≡ [] }
        ensures { result.tree ≡ tree }
    {
        AloneTree { tree }
    }

    /// What it was asked so far, the first call first.
    pub fn asked(&self) -> &[Asked]
        ensures { result.now ≡ self.now.tree.asked }
    {
        self.tree.asked()
    }
}

impl Tree for AloneTree {
    ghost use Rattle.hg_alone.specs.Alone.{tree_alone};

    ghost history = { λ t. tree_alone t.tree };

    ghost faults = { λ t. t.tree.calls.faults };

    fn stat(&mut self, path: PathRef<'_>) -> Result<Option<Stat>, Failed> {
        self.tree.stat(path)
    }

    fn list(
        &mut self,
        alloc: Global,
        dir: Option<PathRef<'_>>,
    ) -> Result<Option<Vec<Name>>, TreeFault> {
        self.tree.list(alloc, dir)
    }

    fn read(&mut self, path: PathRef<'_>, place: u64, buf: &mut [u8]) -> Result<Got, Failed> {
        self.tree.read(path, place, buf)
    }

    fn now(&mut self) -> Result<Time, Failed> {
        self.tree.now()
    }

    fn unlink(&mut self, path: PathRef<'_>) -> Result<bool, Failed> {
        self.tree.unlink(path)
    }

    fn put(
        &mut self,
        path: PathRef<'_>,
        kind: Kind,
        exec: bool,
        place: u64,
        bytes: &[u8],
    ) -> Result<bool, Failed> {
        self.tree.put(path, kind, exec, place, bytes)
    }
}
