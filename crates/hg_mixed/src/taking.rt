//! Lists of an image are taken into memory.

ghost use Rattle.std.specs.Prelude.{◌≡◌, Some, false, OnOk};
ghost use Rattle.hg_docket.specs.Docket as docket;
ghost use Rattle.hg_image.specs.View.{dir_of, rows_in};
ghost use Rattle.hg_mixed.specs.Lent.{CoversNone, as_dir, covers, lent_at};
ghost use Rattle.hg_nodes.specs.Lists.{or_root};
ghost use Rattle.hg_mixed.specs.Own.{memory_table};
ghost use Rattle.hg_mixed.specs.Parted.{IsFree, IsMoved, IsParted, image_rows};
ghost use Rattle.hg_mixed.specs.Taken.{AreServed, CoversLess, IsBared, IsOpen, IsOut, IsServedKid, LendsKid, LendsKids};

use crate::lent::Lent;
use crate::own::Own;
use hg_base::{OutOfMemory, PathRef};
use hg_image::{Image, List, NodeRef};
use std::alloc::Global;

// Lends the list of a node's children, where it has any.
fn lend_kid<'a>(alloc: Global, left: &mut Lent<'a>, node: NodeRef<'a>) -> Result<(), OutOfMemory>
    ensures lends { LendsKid node.entry left.old left.new }
    ensures served { OnOk result (IsServedKid node.entry left.new) }
{
    let kids = node.children();
    if kids.len() == 0 {
        return Ok(());
    }
    left.put(alloc, node.path().text, kids)
}

// Lends the lists of the children of each node.
fn lend_kids<'a>(alloc: Global, left: &mut Lent<'a>, list: List<'a>) -> Result<(), OutOfMemory>
    ensures lends { LendsKids list.entry left.old left.new }
    ensures served { OnOk result (AreServed list.entry list.entry.count left.new) }
{
    for i in 0..list.len() {
        lend_kid(alloc, left, list.get(i))?;
    }
    Ok(())
}

// Takes a list that is left in the image into memory, without what stands below its nodes, which is left there by lists of its own.
fn take_list<'a>(
    alloc: Global,
    memory: &mut Own<'a>,
    left: &mut Lent<'a>,
    image: Image<'a>,
    dir: &str,
    list: List<'a>,
) -> Result<(), OutOfMemory>
    requires parted { IsParted (docket.view image.docket) (image_rows image) left.old (memory_table memory.old) }
    requires lent { lent_at left.old dir.now ≡ Some (rows_in list) }
    requires dir { or_root (dir_of list) ≡ dir.now }
    requires free { IsOpen left.old (as_dir dir.now) }
    ensures moved { IsMoved (docket.view image.entry.docket) (image_rows image.entry) left.old memory.old left.new memory.new }
    ensures out { OnOk result (IsOut dir.now left.old left.new) }
{
    // (It may be noted where it is left still.)
    memory.keep(alloc, dir, list)?;
    lend_kids(alloc, left, list)?;
    memory.add_kids(alloc, list)?;
    left.remove(dir);
    Ok(())
}

// Takes the list of a directory into memory, where it is lent.
fn take<'a>(
    alloc: Global,
    memory: &mut Own<'a>,
    left: &mut Lent<'a>,
    image: Image<'a>,
    dir: &str,
) -> Result<(), OutOfMemory>
    requires parted { IsParted (docket.view image.docket) (image_rows image) left.old (memory_table memory.old) }
    requires free { IsOpen left.old (as_dir dir.now) }
    ensures moved { IsMoved (docket.view image.entry.docket) (image_rows image.entry) left.old memory.old left.new memory.new }
    ensures out { OnOk result (IsOut dir.now left.old left.new) }
{
    match left.get(dir) {
        None => Ok(()),
        Some(list) => take_list(alloc, memory, left, image, dir, list),
    }
}

// Takes the lists of all directories above a path into memory.
#[cycle(taking)]
fn take_above<'a>(
    alloc: Global,
    memory: &mut Own<'a>,
    left: &mut Lent<'a>,
    image: Image<'a>,
    path: PathRef<'_>,
) -> Result<(), OutOfMemory>
    requires { IsParted (docket.view image.docket) (image_rows image) left.old (memory_table memory.old) }
    ensures moved { IsMoved (docket.view image.entry.docket) (image_rows image.entry) left.old memory.old left.new memory.new }
    ensures free { OnOk result (covers left.new path.entry.text.now ≡ false) }
{
    match path.parent() {
        None => take(alloc, memory, left, image, ""),
        Some(dir) => take_for(alloc, memory, left, image, dir),
    }
}

/// Takes the lists of all directories above a path into memory, and that of the path itself where it is a directory.
#[cycle(taking)]
pub fn take_for<'a>(
    alloc: Global,
    memory: &mut Own<'a>,
    left: &mut Lent<'a>,
    image: Image<'a>,
    path: PathRef<'_>,
) -> Result<(), OutOfMemory>
    requires { IsParted (docket.view image.docket) (image_rows image) left.old (memory_table memory.old) }
    // Where memory is wanting too, the table stays.
    ensures moved { IsMoved (docket.view image.entry.docket) (image_rows image.entry) left.old memory.old left.new memory.new }
    ensures free { OnOk result (IsFree left.new path.entry.text.now) }
{
    take_above(alloc, memory, left, image, path)?;
    take(alloc, memory, left, image, path.text)
}

// Takes a list and all lists below it.
fn take_whole<'a>(
    alloc: Global,
    memory: &mut Own<'a>,
    left: &mut Lent<'a>,
    image: Image<'a>,
    list: List<'a>,
) -> Result<(), OutOfMemory>
    requires parted { IsParted (docket.view image.docket) (image_rows image) left.old (memory_table memory.old) }
    requires free { IsOpen left.old (dir_of list) }
    ensures moved { IsMoved (docket.view image.entry.docket) (image_rows image.entry) left.old memory.old left.new memory.new }
    ensures less { OnOk result (CoversLess left.old left.new) }
    ensures bared { OnOk result (IsBared list.entry left.new) }
{
    take(alloc, memory, left, image, dir_text(list))?;
    for i in 0..list.len() {
        take_whole(alloc, memory, left, image, list.get(i).children())?;
    }
    Ok(())
}

// The text of a list's directory, empty for the root.
fn dir_text<'a>(list: List<'a>) -> &'a str
    ensures { result.now ≡ or_root (dir_of list.entry) }
{
    match list.dir {
        None => "",
        Some(dir) => dir.text,
    }
}

/// Takes all lists into memory.
pub fn take_all<'a>(
    alloc: Global,
    memory: &mut Own<'a>,
    left: &mut Lent<'a>,
    image: Image<'a>,
) -> Result<(), OutOfMemory>
    requires { IsParted (docket.view image.docket) (image_rows image) left.old (memory_table memory.old) }
    ensures moved { IsMoved (docket.view image.entry.docket) (image_rows image.entry) left.old memory.old left.new memory.new }
    ensures all { OnOk result (CoversNone left.new) }
{
    if left.is_empty() {
        return Ok(());
    }
    take_whole(alloc, memory, left, image, image.root())?;
    memory.stays_formed();
    // (What is lent still has nothing.)
    left.clear();
    Ok(())
}
