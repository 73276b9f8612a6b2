//! What others do just before a call of the next run.

ghost use Rattle.std.specs.Prelude.{IsTrue};
ghost use Rattle.hg_tree.specs.Moment.{is_short_thing};
ghost use Rattle.hg_tree.specs.Coming.{is_short_change};

use crate::commands::content;
use crate::tokens::{joined, number_at, path_at, time_at, word_at};
use crate::world::World;
use crate::wrong::Wrong;
use hg_base::{Blob, Path, Text};
use hg_shelf::Outside;
use hg_tree::{Outside as OutsideTree, Thing};
use std::alloc::Global;

/// Others do something just before a call: of the working copy, or else of the files below `.hg`.
pub(crate) fn lay_due(world: &mut World, tokens: &[Vec<u8>]) {
    if word_at(tokens, 1, &mut world.wrong) == "tree" {
        lay_due_thing(world, tokens);
        return;
    }
    let call = number_at(tokens, 1, &mut world.wrong);
    let call = world.shelf.device.calls().saturating_add(call);
    match file_change(world.alloc, tokens, &mut world.wrong) {
        Some(change) => world
            .wrong
            .check(world.shelf.device.due(call, change).is_ok()),
        None => world.wrong.check(false),
    }
}

// They put a file, or take it away.
fn file_change(alloc: Global, tokens: &[Vec<u8>], wrong: &mut Wrong) -> Option<Outside> {
    let name = Text::of(alloc, word_at(tokens, 2, wrong)).ok()?;
    if tokens.len() < 4 {
        return Some(Outside::Remove { name });
    }
    placed(alloc, name, tokens, wrong)
}

fn placed(alloc: Global, name: Text, tokens: &[Vec<u8>], wrong: &mut Wrong) -> Option<Outside> {
    let bytes = Blob::of(alloc, joined(alloc, tokens, 3, wrong).as_slice()).ok()?;
    Some(Outside::Place { name, bytes })
}

// They set the clock, put a thing, or take away what stands there.
fn lay_due_thing(world: &mut World, tokens: &[Vec<u8>]) {
    let call = number_at(tokens, 2, &mut world.wrong);
    let call = world.tree.calls.made().saturating_add(call);
    match word_at(tokens, 3, &mut world.wrong) {
        "clock" => {
            let to = time_at(tokens, 4, &mut world.wrong);
            make_due(world, call, OutsideTree::Clock { to });
        }
        "take" => take_due(world, call, tokens),
        "dir" => place_due(world, call, tokens, Thing::Dir),
        "file" => file_due(world, call, tokens),
        _ => world.wrong.set("no such thing for others"),
    }
}

fn make_due(world: &mut World, call: u64, change: OutsideTree)
    requires { IsTrue (is_short_change change) }
{
    world
        .wrong
        .check(world.tree.device.due(call, change).is_ok());
}

fn owned(world: &mut World, tokens: &[Vec<u8>]) -> Option<Path> {
    let path = path_at(tokens, 4, &mut world.wrong)?;
    Path::of(world.alloc, path).ok()
}

fn take_due(world: &mut World, call: u64, tokens: &[Vec<u8>]) {
    if let Some(path) = owned(world, tokens) {
        make_due(world, call, OutsideTree::Take { path });
    }
}

fn place_due(world: &mut World, call: u64, tokens: &[Vec<u8>], thing: Thing)
    requires { IsTrue (is_short_thing thing) }
{
    let mtime = world.time;
    match owned(world, tokens) {
        Some(path) => make_due(world, call, OutsideTree::Place { path, thing, mtime }),
        None => {}
    }
}

fn file_due(world: &mut World, call: u64, tokens: &[Vec<u8>]) {
    if let Some(bytes) = content(world.alloc, tokens, 5, &mut world.wrong) {
        place_due(world, call, tokens, Thing::File { exec: false, bytes });
    }
}
