//! The lines that lay out what stands before a run.

ghost use Rattle.std.specs.Prelude.{IsTrue};
ghost use Rattle.hg_tree.specs.Moment.{is_short_thing};

use crate::due::lay_due;
use crate::line::Line;
use crate::tokens::{joined, number_at, path_at, time_at, word_at};
use crate::world::World;
use crate::wrong::Wrong;
use hg_base::{Blob, PathRef};
use hg_shelf::MemShelf;
use hg_tree::Thing;
use std::alloc::Global;

/// Does what a line says.
pub(crate) fn lay(world: &mut World, tokens: &[Vec<u8>]) {
    match word_at(tokens, 0, &mut world.wrong) {
        "$" => world.run(tokens, 1),
        "?" => world.data.ended = true,
        "data" | "node" | "tower" => lay_data(world, tokens),
        "docket" => lay_docket(world, tokens),
        "file" | "files" | "exec" | "link" | "dir" | "other" | "take" => lay_thing(world, tokens),
        "hg" | "patch" | "cut" | "longer" => lay_file(world, tokens),
        "manifest" => lay_manifest(world, tokens),
        "contents" => lay_contents(world, tokens),
        _ => lay_device(world, tokens),
    }
}

fn lay_data(world: &mut World, tokens: &[Vec<u8>]) {
    world.data.begin();
    match word_at(tokens, 0, &mut world.wrong) {
        "data" => lay_text(world, tokens),
        "node" => world.data.put_node(tokens, &mut world.wrong),
        _ => {
            let levels = number_at(tokens, 1, &mut world.wrong);
            world.data.put_tower(levels, &mut world.wrong);
        }
    }
}

fn lay_text(world: &mut World, tokens: &[Vec<u8>]) {
    let bytes = joined(world.alloc, tokens, 1, &mut world.wrong);
    world.data.put(bytes.as_slice(), &mut world.wrong);
}

fn lay_docket(world: &mut World, tokens: &[Vec<u8>]) {
    world.data.make_docket(tokens, 1, &mut world.wrong);
    world.data.ended = true;
    let docket = world.data.docket.as_slice();
    world
        .wrong
        .check(world.shelf.device.place("dirstate", docket).is_ok());
    if !world.data.alone {
        lay_data_file(world);
    }
}

fn lay_data_file(world: &mut World) {
    let mut name = Line::new(world.alloc);
    name.put("dirstate.");
    name.put(world.data.id.as_str());
    put_file(
        &mut world.shelf.device,
        name.as_str(),
        world.data.bytes.as_slice(),
        &mut world.wrong,
    );
}

fn put_file(shelf: &mut MemShelf, name: &str, bytes: &[u8], wrong: &mut Wrong) {
    wrong.check(shelf.place(name, bytes).is_ok());
}

fn lay_thing(world: &mut World, tokens: &[Vec<u8>]) {
    match word_at(tokens, 0, &mut world.wrong) {
        "files" => lay_files(world, tokens),
        "file" => lay_bytes(world, tokens, false),
        "exec" => lay_bytes(world, tokens, true),
        "link" => lay_link(world, tokens),
        "dir" => lay_at(world, tokens, Thing::Dir),
        "other" => lay_at(world, tokens, Thing::Other),
        _ => take(world, tokens),
    }
}

fn take(world: &mut World, tokens: &[Vec<u8>]) {
    if let Some(path) = path_at(tokens, 1, &mut world.wrong) {
        world.wrong.check(world.tree.device.take(path).is_ok());
    }
}

fn place(world: &mut World, path: PathRef<'_>, thing: Thing)
    requires { IsTrue (is_short_thing thing) }
{
    let time = world.time;
    world
        .wrong
        .check(world.tree.device.place(path, thing, time).is_ok());
}

fn lay_at(world: &mut World, tokens: &[Vec<u8>], thing: Thing)
    requires { IsTrue (is_short_thing thing) }
{
    match path_at(tokens, 1, &mut world.wrong) {
        Some(path) => place(world, path, thing),
        None => {}
    }
}

fn lay_files(world: &mut World, tokens: &[Vec<u8>]) {
    for at in 1..tokens.len() {
        if let Some(path) = path_at(tokens, at, &mut world.wrong) {
            lay_plain(world, path);
        }
    }
}

// A file of the byte `b`.
fn lay_plain(world: &mut World, path: PathRef<'_>) {
    match Blob::of(world.alloc, b"b") {
        Ok(bytes) => place(world, path, Thing::File { exec: false, bytes }),
        Err(_) => world.wrong.check(false),
    }
}

/// The text of a thing, from that token on: the byte `b` where none is named.
pub(crate) fn content(
    alloc: Global,
    tokens: &[Vec<u8>],
    from: usize,
    wrong: &mut Wrong,
) -> Option<Blob> {
    let blob = if tokens.len() <= from {
        Blob::of(alloc, b"b").ok()
    } else {
        Blob::of(alloc, joined(alloc, tokens, from, wrong).as_slice()).ok()
    };
    wrong.check(blob.is_some());
    blob
}

fn lay_bytes(world: &mut World, tokens: &[Vec<u8>], exec: bool) {
    if let Some(bytes) = content(world.alloc, tokens, 2, &mut world.wrong) {
        lay_at(world, tokens, Thing::File { exec, bytes });
    }
}

fn lay_link(world: &mut World, tokens: &[Vec<u8>]) {
    if let Some(target) = content(world.alloc, tokens, 2, &mut world.wrong) {
        lay_target(world, tokens, target);
    }
}

fn lay_target(world: &mut World, tokens: &[Vec<u8>], target: Blob) {
    if target.as_bytes().len() > 4_095 {
        world.wrong.set("a target that is too long");
    } else {
        lay_at(world, tokens, Thing::Link { target });
    }
}

fn lay_file(world: &mut World, tokens: &[Vec<u8>]) {
    let name = word_at(tokens, 1, &mut world.wrong);
    let bytes = match word_at(tokens, 0, &mut world.wrong) {
        "hg" => joined(world.alloc, tokens, 2, &mut world.wrong),
        _ => changed(world, name, tokens),
    };
    put_file(
        &mut world.shelf.device,
        name,
        bytes.as_slice(),
        &mut world.wrong,
    );
}

// The bytes of a file that is there, as a line changes them.
fn changed(world: &mut World, name: &str, tokens: &[Vec<u8>]) -> Vec<u8> {
    match world.file(name) {
        Some(bytes) => changed_bytes(world, bytes, tokens),
        None => {
            world.wrong.set("no such file below .hg");
            Vec::new(world.alloc)
        }
    }
}

fn changed_bytes(world: &mut World, bytes: Vec<u8>, tokens: &[Vec<u8>]) -> Vec<u8> {
    let mut bytes = bytes;
    match word_at(tokens, 0, &mut world.wrong) {
        "patch" => patch(world, &mut bytes, tokens),
        "cut" => bytes.truncate(number_at(tokens, 2, &mut world.wrong) as usize),
        _ => extend(world, &mut bytes, tokens),
    }
    bytes
}

fn extend(world: &mut World, bytes: &mut Vec<u8>, tokens: &[Vec<u8>]) {
    for token in tokens.iter().skip(2) {
        world
            .wrong
            .check(bytes.extend_from_slice(token.as_slice()).is_ok());
    }
}

// Bytes in place of others, or behind the last.
fn patch(world: &mut World, bytes: &mut Vec<u8>, tokens: &[Vec<u8>]) {
    let place = number_at(tokens, 2, &mut world.wrong) as usize;
    let patch = joined(world.alloc, tokens, 3, &mut world.wrong);
    for (i, byte) in patch.as_slice().iter().enumerate() {
        put_byte(bytes, place.saturating_add(i), *byte, &mut world.wrong);
    }
}

fn put_byte(bytes: &mut Vec<u8>, at: usize, byte: u8, wrong: &mut Wrong) {
    match bytes.get_mut(at) {
        Some(place) => *place = byte,
        None => wrong.check(bytes.push(byte).is_ok()),
    }
}

// So often these digits that they are forty.
fn put_forty(line: &mut Line, digits: &str) {
    for digit in digits.chars().cycle().take(40) {
        line.put_char(digit);
    }
}

fn lay_manifest(world: &mut World, tokens: &[Vec<u8>]) {
    let mut name = Line::new(world.alloc);
    let mut text = Line::new(world.alloc);
    name.put("plain/m-");
    put_forty(&mut name, word_at(tokens, 1, &mut world.wrong));
    for at in 2..tokens.len() {
        put_row(
            &mut text,
            word_at(tokens, at, &mut world.wrong),
            &mut world.wrong,
        );
    }
    put_file(
        &mut world.shelf.device,
        name.as_str(),
        text.as_str().as_bytes(),
        &mut world.wrong,
    );
}

// A row of a manifest: the path, NUL, forty digits, and the flag.
fn put_row(text: &mut Line, row: &str, wrong: &mut Wrong) {
    let Some((path, value)) = row.split_once('=') else {
        wrong.set("no row of a manifest");
        return;
    };
    let (digit, flag) = value.split_at_checked(1).unwrap_or(("", value));
    text.put(path);
    text.put("\0");
    put_forty(text, digit);
    text.put(flag);
    text.put("\n");
}

fn lay_contents(world: &mut World, tokens: &[Vec<u8>]) {
    let mut name = Line::new(world.alloc);
    name.put("plain/f-");
    put_forty(&mut name, word_at(tokens, 1, &mut world.wrong));
    let bytes = joined(world.alloc, tokens, 2, &mut world.wrong);
    put_file(
        &mut world.shelf.device,
        name.as_str(),
        bytes.as_slice(),
        &mut world.wrong,
    );
}

fn lay_device(world: &mut World, tokens: &[Vec<u8>]) {
    match word_at(tokens, 0, &mut world.wrong) {
        "fail" => fail(world, tokens),
        "due" => lay_due(world, tokens),
        "time" => world.time = time_at(tokens, 1, &mut world.wrong),
        "clock" => set_clock(world, tokens),
        "held" => world.shelf.device.hold(true),
        "free" => world.shelf.device.hold(false),
        "pieces" => world.streams.pieces = number_at(tokens, 1, &mut world.wrong) as usize,
        "input" => world.streams.input = joined(world.alloc, tokens, 1, &mut world.wrong),
        "counted" => world.counted = true,
        _ => world.wrong.set("no such word"),
    }
}

fn set_clock(world: &mut World, tokens: &[Vec<u8>]) {
    let clock = time_at(tokens, 1, &mut world.wrong);
    world
        .wrong
        .check(world.tree.device.set_clock(clock).is_ok());
}

fn fail(world: &mut World, tokens: &[Vec<u8>]) {
    let call = number_at(tokens, 2, &mut world.wrong);
    let device = word_at(tokens, 1, &mut world.wrong);
    fail_at(world, device, call);
}

/// That call of the next run fails.
pub(crate) fn fail_at(world: &mut World, device: &str, call: u64) {
    match device {
        "tree" => fail_tree(world, call),
        "shelf" => fail_shelf(world, call),
        "in" => world.streams.in_fails = Some(call),
        "out" => world.streams.out_fails = Some(call),
        "err" => world.streams.err_fails = Some(call),
        "regexps" => world.streams.regexps_fail = Some(call),
        _ => world.wrong.set("no such device"),
    }
}

fn fail_tree(world: &mut World, call: u64) {
    let call = world.tree.calls.made().saturating_add(call);
    world.wrong.check(world.tree.device.fail_at(call).is_ok());
}

fn fail_shelf(world: &mut World, call: u64) {
    let call = world.shelf.device.calls().saturating_add(call);
    world.wrong.check(world.shelf.device.fail_at(call).is_ok());
}
