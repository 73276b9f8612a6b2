//! The first parent, as far as a status has come to need it.

use hg_base::Id20;
use hg_compare::Room;
use hg_manifest::Manifest;

/// A manifest, and the room for comparisons with its files.
#[derive(Drop)]
pub(crate) struct Loaded {
    pub manifest: Manifest,
    pub room: Room,
}

/// The first parent of a status. Its manifest is loaded for the first path that is compared, and kept for the others.
#[derive(Drop)]
pub struct Parent {
    pub(crate) id: Id20,
    pub(crate) loaded: Option<Loaded>,
}

impl Parent {
    ghost use Rattle.std.specs.Prelude.{◌≡◌, None};
    ghost use Rattle.hg_shelf.specs.History as shelves;
    ghost use Rattle.hg_tree.specs.History as trees;
    ghost use Rattle.hg_flat.specs.Course.{Proceeds};
    ghost use Rattle.hg_flat.specs.Met.{Status};

    /// The parent with this identifier, of which nothing is loaded.
    pub fn new(id: &Id20) -> Parent
        ensures id { result.id ≡ id.now }
        ensures none { result.loaded ≡ None }
        // A status that has asked nothing below `.hg` so far goes on from it.
        ensures starts { (s : Status) → id.now ≡ s.id
            → trees.Passes s.tree_old s.tree_new
            → shelves.Passes s.shelf_old s.shelf_new
            → s.shelf_new.asked ≡ s.shelf_old.asked
            → Proceeds s result }
    {
        Parent {
            id: *id,
            loaded: None,
        }
    }
}
