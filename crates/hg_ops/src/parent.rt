//! The first parent, as far as a command has come to need it.

ghost use Rattle.hg_ops.specs.Parent.{KeepsParent};
ghost use Rattle.hg_shelf.specs.History as shelves;

use hg_base::Id20;
use hg_compare::Room;
use hg_manifest::Manifest;

/// A manifest, and the room for comparisons with its files.
#[derive(Drop)]
pub(crate) struct Loaded {
    pub manifest: Manifest,
    pub room: Room,
}

/// The first parent of a working copy. Its manifest is loaded for the first file that is compared with it, and kept for those behind.
#[derive(Drop)]
pub struct Parent {
    pub(crate) id: Id20,
    pub(crate) loaded: Option<Loaded>,
}

impl Parent {
    /// The parent of that identifier.
    pub fn of(id: Id20) -> Parent
        ensures { (h : shelves.History) → KeepsParent (record { id = id; old = h; new = h }) result }
    {
        Parent { id, loaded: None }
    }
}
