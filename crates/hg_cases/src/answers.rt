//! What a line behind `?` asks of what stands there.

use crate::line::Line;
use crate::tables::{crashes, damaged, fails};
use crate::tokens::{token_at, word_at};
use crate::world::World;
use hg_tree::Asked;

/// Tells what a line is answered.
pub(crate) fn answer(lines: &[&str], laid: &[usize], world: &mut World, tokens: &[Vec<u8>]) {
    match word_at(tokens, 0, &mut world.wrong) {
        "?" => question(lines, laid, world, tokens),
        _ => world.run(tokens, 1),
    }
}

fn question(lines: &[&str], laid: &[usize], world: &mut World, tokens: &[Vec<u8>]) {
    match word_at(tokens, 1, &mut world.wrong) {
        "fails" => fails(lines, laid, world, tokens),
        "crashes" => crashes(lines, laid, world, tokens),
        "cut" | "spoilt" => damaged(lines, laid, world, tokens),
        _ => look(world, tokens),
    }
    world.data.ended = true;
}

fn look(world: &mut World, tokens: &[Vec<u8>]) {
    world.told.line.clear();
    match word_at(tokens, 1, &mut world.wrong) {
        "calls" => world.shelf.calls.put_last(&mut world.told.line),
        "asked" => put_all_asked(world),
        "record" => world.tell_record(),
        "bytes" => tell_bytes(world, tokens),
        "same" => tell_same(world, tokens),
        "locked" => tell_locked(world),
        _ => world.wrong.set("no such question"),
    }
}

fn tell(world: &mut World, is_so: bool) {
    world.told.line.put(if is_so { "yes\n" } else { "no\n" });
}

// Whether the caller of the shelf has its lock, as the shelf notes it.
fn tell_locked(world: &mut World) {
    let noted = format!(in world.alloc; "{:?}", world.shelf.device);
    let is_locked = match noted {
        Ok(noted) => noted.as_str().contains("ours: true"),
        Err(_) => false,
    };
    tell(world, is_locked);
}

// What the last run asked of the working copy, a line each.
fn put_all_asked(world: &mut World) {
    for asked in world.tree.device.asked().iter().skip(world.asked) {
        put_asked(&mut world.told.line, asked);
    }
}

fn put_asked(lines: &mut Line, asked: &Asked) {
    match asked {
        Asked::Read { path } => {
            lines.put("read ");
            lines.put(path.as_str());
        }
        Asked::List { dir } => {
            lines.put("list ");
            lines.put(match dir {
                Some(dir) => dir.as_str(),
                None => ".",
            });
        }
    }
    lines.put("\n");
}

// The bytes of a file, as lines.
fn tell_bytes(world: &mut World, tokens: &[Vec<u8>]) {
    let name = word_at(tokens, 2, &mut world.wrong);
    match world.file(name) {
        Some(bytes) => world.told.put("", bytes.as_slice()),
        None => world.told.line.put("absent\n"),
    }
}

// Whether a file has the bytes that the lines before lay out.
fn tell_same(world: &mut World, tokens: &[Vec<u8>]) {
    let name = word_at(tokens, 2, &mut world.wrong);
    match world.file(name) {
        Some(bytes) => tell_alike(world, tokens, bytes.as_slice()),
        None => world.told.line.put("absent\n"),
    }
}

fn tell_alike(world: &mut World, tokens: &[Vec<u8>], bytes: &[u8]) {
    let is_same = match token_at(tokens, 3, &mut world.wrong) {
        b"docket" => {
            world.data.make_docket(tokens, 4, &mut world.wrong);
            bytes == world.data.docket.as_slice()
        }
        _ => bytes == world.data.bytes.as_slice(),
    };
    tell(world, is_same);
}
