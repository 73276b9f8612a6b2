//! All that stands near a path is taken into memory.

ghost use Rattle.std.specs.Prelude.{OnOk};
ghost use Rattle.hg_docket.specs.Docket as docket;
ghost use Rattle.hg_mixed.specs.Own.{memory_table};
ghost use Rattle.hg_mixed.specs.Near.{IsNear};
ghost use Rattle.hg_mixed.specs.Parted.{IsMoved, IsParted, image_rows};

use crate::lent::Lent;
use crate::own::Own;
use crate::taking::{take_all, take_for};
use hg_base::{OutOfMemory, PathRef};
use hg_image::Image;
use std::alloc::Global;

/// Takes the lists of all directories above a path into memory, and all lists where something stands below it.
pub fn take_near<'a>(
    alloc: Global,
    memory: &mut Own<'a>,
    left: &mut Lent<'a>,
    image: Image<'a>,
    path: PathRef<'_>,
) -> Result<(), OutOfMemory>
    requires { IsParted (docket.view image.docket) (image_rows image) left.old (memory_table memory.old) }
    // Where memory is wanting too, the table stays.
    ensures moved { IsMoved (docket.view image.entry.docket) (image_rows image.entry) left.old memory.old left.new memory.new }
    ensures near { OnOk result (IsNear (docket.view image.entry.docket) (image_rows image.entry) left.new (memory_table memory.new) path.entry.text.now) }
{
    take_for(alloc, memory, left, image, path)?;
    if !memory.has_kids(path.text) {
        return Ok(());
    }
    take_all(alloc, memory, left, image)
}
