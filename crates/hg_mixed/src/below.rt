//! What a walk into a child goes by.

ghost use Rattle.std.specs.Prelude.{◌≡◌};
ghost use Rattle.hg_mixed.specs.Held.{Held};
ghost use Rattle.hg_mixed.specs.Walk.{IsBelow, ListIsOf};

use crate::child::Child;
use hg_base::PathRef;
use hg_image::List;

/// The path of a child, and the image's list of what stands right in it, where that is known.
#[derive(Clone, Copy, Debug)]
pub struct Below<'t> {
    pub path: PathRef<'t>,
    pub(crate) list: Option<List<'t>>,
}

impl<'t> Child<'t> {
    /// What a walk into it goes by.
    #[inline(always)]
    pub fn below(&self) -> Below<'t>
        ensures path { result.path.text.now ≡ self.now.path.text.now }
        ensures list { (held : Held) → ListIsOf held self.now → IsBelow held result }
    {
        Below {
            path: self.path,
            list: self.list,
        }
    }
}
