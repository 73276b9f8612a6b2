//! Plays the lines of a case file, and compares what comes of them with what stands below them.

use crate::answers::answer;
use crate::commands::lay;
use crate::line::Line;
use crate::tokens::{tokens, word_at};
use crate::world::World;
use std::alloc::Global;

/// Lays out anew what stands there: the lines of a file at these places say it.
pub(crate) fn lay_all(lines: &[&str], laid: &[usize], world: &mut World) {
    world.clear();
    for place in laid {
        lay_line(world, line_at(lines, *place));
    }
}

fn lay_line(world: &mut World, line: &str) {
    let tokens = tokens(world.alloc, line, &mut world.wrong);
    lay(world, tokens.as_slice());
}

// How far a file is played: the places of the lines that say what stands there, how many of them there were at `start`, how many answers
// were compared, how many were as expected, a line for each other one, and the number of the line that is played.
#[derive(Drop)]
struct Played {
    laid: Vec<usize>,
    kept: usize,
    answers: u64,
    right: u64,
    others: Line,
    line: u64,
}

impl Played {
    fn new(alloc: Global) -> Played {
        Played {
            laid: Vec::new(alloc),
            kept: 0,
            answers: 0,
            right: 0,
            others: Line::new(alloc),
            line: 0,
        }
    }

    // Plays the line at a place, where no line before it was wrong.
    fn play(&mut self, world: &mut World, lines: &[&str], place: usize) {
        let line = line_at(lines, place);
        if world.wrong.why.is_some() {
            return;
        }
        self.line = (place as u64).saturating_add(1);
        match line.bytes().next() {
            None | Some(b' ' | b'#') => {}
            Some(_) => self.play_line(world, lines, place, line),
        }
    }

    fn play_line(&mut self, world: &mut World, lines: &[&str], place: usize, line: &str) {
        let tokens = tokens(world.alloc, line, &mut world.wrong);
        self.play_tokens(world, lines, place, tokens.as_slice());
    }

    fn play_tokens(&mut self, world: &mut World, lines: &[&str], place: usize, tokens: &[Vec<u8>]) {
        match word_at(tokens, 0, &mut world.wrong) {
            "new" => {
                self.laid.clear();
                self.kept = 0;
                world.clear();
            }
            "again" => {
                self.laid.truncate(self.kept);
                lay_all(lines, self.laid.as_slice(), world);
            }
            "start" => self.kept = self.laid.len(),
            "$" | "?" => self.ask(world, lines, place, tokens),
            _ => {
                lay(world, tokens);
                self.keep(world, place);
            }
        }
    }

    // That line says what stands there too.
    fn keep(&mut self, world: &mut World, place: usize) {
        world.wrong.check(self.laid.push(place).is_ok());
    }

    // Compares what comes of a line with what stands below it.
    fn ask(&mut self, world: &mut World, lines: &[&str], place: usize, tokens: &[Vec<u8>]) {
        answer(lines, self.laid.as_slice(), world, tokens);
        self.keep(world, place);
        self.compare(lines, place, world.told.line.as_str());
    }

    fn compare(&mut self, lines: &[&str], place: usize, got: &str) {
        self.answers = self.answers.saturating_add(1);
        if is_expected(lines, place, got) {
            self.right = self.right.saturating_add(1);
            return;
        }
        self.others.put("  line ");
        self.others.put_number(self.line);
        self.others.put(": ");
        self.others.put_on_one(got);
        self.others.put("\n");
    }

    // Tells how it went.
    fn tell(&self, world: &mut World, name: &str) {
        let told = &mut world.told.line;
        told.clear();
        told.put(name);
        told.put(": ");
        match world.wrong.why {
            Some(why) => self.tell_wrong(told, why),
            None => self.tell_right(told),
        }
    }

    fn tell_right(&self, told: &mut Line) {
        told.put_number(self.right);
        told.put(" of ");
        told.put_number(self.answers);
        told.put("\n");
        told.put(self.others.as_str());
    }

    fn tell_wrong(&self, told: &mut Line, why: &str) {
        told.put("line ");
        told.put_number(self.line);
        told.put(": ");
        told.put(why);
        told.put("\n");
    }
}

// Whether these lines, and no other, stand behind two spaces each below a line.
fn is_expected(lines: &[&str], place: usize, got: &str) -> bool {
    let mut next = place.saturating_add(1);
    for line in got.lines() {
        if expected(lines, next) != Some(line) {
            return false;
        }
        next = next.saturating_add(1);
    }
    expected(lines, next).is_none()
}

// What stands behind the two spaces of a line.
fn expected<'a>(lines: &[&'a str], place: usize) -> Option<&'a str> {
    line_at(lines, place).strip_prefix("  ")
}

// The line at a place, an empty one behind the last.
fn line_at<'a>(lines: &[&'a str], place: usize) -> &'a str {
    lines.get(place).copied().unwrap_or("")
}

/// Plays a file, and tells how many answers were as expected, and what each other was; or which line can't be played.
pub(crate) fn play(world: &mut World, name: &str, text: &str) {
    let mut lines = Vec::new(world.alloc);
    world.clear();
    world.wrong.why = None;
    for line in text.lines() {
        world.wrong.check(lines.push(line).is_ok());
    }
    play_lines(world, name, lines.as_slice());
}

fn play_lines(world: &mut World, name: &str, lines: &[&str]) {
    let mut played = Played::new(world.alloc);
    for place in 0..lines.len() {
        played.play(world, lines, place);
    }
    played.tell(world, name);
}
