//! Tables of one command: where each call of a device fails in turn, where each call is the last one before a crash, and where a file is cut at each
//! length, or has another byte at each place.

use crate::commands::fail_at;
use crate::line::Line;
use crate::play::lay_all;
use crate::printed::put_numberless;
use crate::tokens::word_at;
use crate::world::World;
use std::alloc::Global;

// Lines by number, of which those that are the same stand once; the line that is being written; and the record where nothing fails, before and behind
// the command.
#[derive(Drop)]
struct Table {
    lines: Line,
    first: u64,
    next: u64,
    last: Line,
    line: Line,
    before: Line,
    after: Line,
}

// How many calls of each device a command makes.
#[derive(Clone, Copy, Drop)]
struct Calls {
    tree: u64,
    shelf: u64,
    out: u64,
    err: u64,
}

impl Table {
    fn new(alloc: Global) -> Table {
        Table {
            lines: Line::new(alloc),
            first: 0,
            next: 0,
            last: Line::new(alloc),
            line: Line::new(alloc),
            before: Line::new(alloc),
            after: Line::new(alloc),
        }
    }

    // Ends the line that is being written.
    fn end_line(&mut self) {
        if self.last.as_str() != self.line.as_str() {
            self.flush();
            self.last.copy(&self.line);
            self.first = self.next;
        }
        self.next = self.next.saturating_add(1);
        self.line.clear();
    }

    fn flush(&mut self) {
        if self.first == self.next {
            return;
        }
        let last = self.next.saturating_sub(1);
        self.lines.put_number(self.first);
        if self.first != last {
            self.lines.put("-");
            self.lines.put_number(last);
        }
        self.lines.put(": ");
        self.lines.put(self.last.as_str());
        self.lines.put("\n");
    }

    // Writes a record.
    fn put_record(&mut self, record: &str) {
        if record == self.before.as_str() {
            self.line.put("before");
        } else if record == self.after.as_str() {
            self.line.put("after");
        } else {
            self.line.put_on_one(record);
        }
    }
}

// Ends a table: what stood there stands there again, and the lines are told.
fn end(lines: &[&str], laid: &[usize], world: &mut World, table: &mut Table) {
    table.flush();
    lay_all(lines, laid, world);
    world.told.line.copy(&table.lines);
}

// Runs a command where nothing fails.
fn usually(
    lines: &[&str],
    laid: &[usize],
    world: &mut World,
    tokens: &[Vec<u8>],
    from: usize,
    table: &mut Table,
) -> Calls {
    lay_all(lines, laid, world);
    world.tell_record();
    table.before.copy(&world.told.line);
    world.run(tokens, from);
    let calls = Calls {
        tree: world.tree.calls.made_last(),
        shelf: world.shelf.calls.made_last(),
        out: world.ends.out.calls.made(),
        err: world.ends.err.calls.made(),
    };
    world.tell_record();
    table.after.copy(&world.told.line);
    calls
}

impl Calls {
    // How many calls of a device are made.
    fn of(self, device: &str) -> u64 {
        match device {
            "tree" => self.tree,
            "shelf" => self.shelf,
            "out" => self.out,
            "err" => self.err,
            _ => 0,
        }
    }
}

// Tells what record is left, and the record behind the same command once more where that isn't the one behind it.
fn put_left(world: &mut World, tokens: &[Vec<u8>], from: usize, table: &mut Table) {
    world.tell_record();
    table.put_record(world.told.line.as_str());
    world.run_plainly(tokens, from);
    world.tell_record();
    if world.told.line.as_str() != table.after.as_str() {
        table.line.put(", and again ");
        table.put_record(world.told.line.as_str());
    }
}

// Tells what a crash leaves just before a call, by each pick.
fn put_images(world: &mut World, tokens: &[Vec<u8>], from: usize, call: u64, table: &mut Table) {
    for pick in 0..3u8 {
        if pick > 0 {
            table.line.put(" ");
        }
        put_image(world, tokens, from, call, pick, table);
    }
}

fn put_image(
    world: &mut World,
    tokens: &[Vec<u8>],
    from: usize,
    call: u64,
    pick: u8,
    table: &mut Table,
) {
    world.crash(call, pick);
    world.turn();
    put_left(world, tokens, from, table);
    world.turn();
}

// Tells how it goes where a call of a device fails.
fn put_failing(
    lines: &[&str],
    laid: &[usize],
    world: &mut World,
    tokens: &[Vec<u8>],
    call: u64,
    table: &mut Table,
) {
    let device = word_at(tokens, 2, &mut world.wrong);
    lay_all(lines, laid, world);
    fail_at(world, device, call);
    world.run(tokens, 3);
    table.line.put_on_one(world.told.line.as_str());
    if device == "shelf" {
        table.line.put("; a crash leaves ");
        let made = world.shelf.device.calls();
        put_images(world, tokens, 3, made, table);
    }
    table.line.put("; ");
    put_left(world, tokens, 3, table);
    table.end_line();
}

/// Tells a line for each call of a device that fails.
pub(crate) fn fails(lines: &[&str], laid: &[usize], world: &mut World, tokens: &[Vec<u8>]) {
    let mut table = Table::new(world.alloc);
    let calls = usually(lines, laid, world, tokens, 3, &mut table);
    for call in 0..calls.of(word_at(tokens, 2, &mut world.wrong)) {
        put_failing(lines, laid, world, tokens, call, &mut table);
    }
    end(lines, laid, world, &mut table);
}

/// Tells a line for a crash just before each call of the files below `.hg`, and behind the last.
pub(crate) fn crashes(lines: &[&str], laid: &[usize], world: &mut World, tokens: &[Vec<u8>]) {
    let mut table = Table::new(world.alloc);
    usually(lines, laid, world, tokens, 2, &mut table);
    lay_all(lines, laid, world);
    let begun = world.shelf.device.calls();
    world.run(tokens, 2);
    for call in begun..world.shelf.device.calls().saturating_add(1) {
        put_images(world, tokens, 2, call, &mut table);
        table.end_line();
    }
    end(lines, laid, world, &mut table);
}

/// Tells a line for each length that a file is cut at, or for each of its bytes that is spoilt.
pub(crate) fn damaged(lines: &[&str], laid: &[usize], world: &mut World, tokens: &[Vec<u8>]) {
    let name = word_at(tokens, 2, &mut world.wrong);
    match world.file(name) {
        Some(bytes) => damage(lines, laid, world, tokens, bytes.as_slice()),
        None => world.wrong.set("no such file below .hg"),
    }
}

fn damage(lines: &[&str], laid: &[usize], world: &mut World, tokens: &[Vec<u8>], bytes: &[u8]) {
    let mut table = Table::new(world.alloc);
    let is_cut = word_at(tokens, 1, &mut world.wrong) == "cut";
    for at in 0..bytes.len() {
        lay_all(lines, laid, world);
        let (front, rest) = bytes.split_at(at);
        let last = if is_cut { &[] } else { rest };
        lay_damaged(world, tokens, front, last);
        world.run(tokens, 3);
        put_damaged(world, &mut table);
    }
    end(lines, laid, world, &mut table);
}

// Lays a file, the bytes in front of a place, and those from it on, of which the first is spoilt.
fn lay_damaged(world: &mut World, tokens: &[Vec<u8>], front: &[u8], rest: &[u8]) {
    let mut all = Vec::new(world.alloc);
    world.wrong.check(all.extend_from_slice(front).is_ok());
    world.wrong.check(all.extend_from_slice(rest).is_ok());
    if let Some(byte) = all.get_mut(front.len()) {
        *byte = 0xff;
    }
    let name = word_at(tokens, 2, &mut world.wrong);
    world
        .wrong
        .check(world.shelf.device.place(name, all.as_slice()).is_ok());
}

fn put_damaged(world: &mut World, table: &mut Table) {
    let mut lines = Line::new(world.alloc);
    put_numberless(&mut lines, world.told.line.as_str());
    table.line.put_on_one(lines.as_str());
    table.end_line();
}
