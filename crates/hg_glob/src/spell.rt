//! The parts that a text spells, from left to right, a function for each kind.

ghost use Rattle.std.specs.Prelude.{ℕ, ◌≡◌, ◌+◌, ◌^◌, ◌<◌, ◌≤◌, ◌++◌, length, IfOk, Option, Some, None, IsTrue, IfSome, position, ◌==◌};
ghost use Rattle.hg_glob.specs.Part.{begins, single, escaped, starred, range_high, range_more, ranges, members, bracket, bracketed, spelled, depth_after, parts_of, Puts};

use crate::part::Part;
use hg_base::OutOfMemory;
use std::alloc::Global;

fn begins(x: char, text: &[char]) -> bool
    ensures { result ≡ begins x text.now }
{
    match text.first() {
        None => false,
        Some(c) => *c == x,
    }
}

/// A part of one character.
fn push_single(parts: &mut Vec<Part>, part: Part) -> Result<usize, OutOfMemory>
    ensures { Puts (single part) parts.old.items parts.new.items result }
{
    parts.push(part)?;
    Ok(0)
}

/// Behind a backslash.
fn push_escaped(parts: &mut Vec<Part>, rest: &[char]) -> Result<usize, OutOfMemory>
    ensures { Puts (escaped rest.now) parts.old.items parts.new.items result }
{
    match rest.split_first() {
        None => push_single(parts, Part::Literal('\\')),
        Some((c, _)) => {
            parts.push(Part::Literal(*c))?;
            Ok(1)
        }
    }
}

/// Behind a star.
#[tactic(auto, using(crate::proofs::Spelled::begins_len))]
fn push_starred(parts: &mut Vec<Part>, rest: &[char]) -> Result<usize, OutOfMemory>
    ensures { Puts (starred rest.now) parts.old.items parts.new.items result }
{
    if !begins('*', rest) {
        return push_single(parts, Part::Star);
    }
    if !begins('/', rest.split_at(1).1) {
        parts.push(Part::Any)?;
        return Ok(1);
    }
    parts.push(Part::Slashes)?;
    Ok(2)
}

/// The end of a range whose first character stands in front, and where it is none, that character.
fn range_end(low: char, rest: &[char]) -> (char, usize)
    ensures { (result.0 ≡ range_high low rest.now) × (result.1 ≡ range_more rest.now) }
{
    if rest.len() < 2 || rest[0] != '-' {
        return (low, 0);
    }
    (rest[1], 2)
}

/// The members of a class, the first at that place.
fn push_ranges(parts: &mut Vec<Part>, at: u32, text: &[char]) -> Result<(), OutOfMemory>
    requires { at + length text.now < 2 ^ 32 }
    ensures { IfOk result (λ _. parts.new.items ≡ parts.old.items ++ ranges at text.now) }
{
    let mut place = at;
    let mut left = text;
    while let Some((low, rest)) = left.split_first() {
        let (high, more) = range_end(*low, rest);
        parts.push(Part::Range {
            at: place,
            low: *low,
            high,
        })?;
        place += 1 + more as u32;
        left = rest.split_at(more).1;
    }
    Ok(())
}

/// The first `]`.
fn bracket_at(text: &[char]) -> Option<usize>
    ensures at { result ≡ position (λ c. c == 93) text.now }
    ensures within { IfSome result (λ n. n < length text.now) }
{
    text.iter().position(|c| *c == ']')
}

/// How many characters a class has before the `]` that ends it.
fn members(text: &[char]) -> Option<usize>
    ensures members { result ≡ members text.now }
    ensures within { IfSome result (λ n. n < length text.now) }
{
    match text.split_first() {
        None => None,
        Some((_, rest)) => match bracket_at(rest) {
            None => None,
            Some(n) => Some(n + 1),
        },
    }
}

/// A class, or a bracket that is itself.
fn push_bracket(
    parts: &mut Vec<Part>,
    negated: bool,
    at: u32,
    skipped: usize,
    text: &[char],
) -> Result<usize, OutOfMemory>
    requires room { at + length text.now < 2 ^ 32 }
    requires few { skipped ≤ 1 }
    ensures { Puts (bracket negated at skipped text.now (members text.now)) parts.old.items parts.new.items result }
{
    match members(text) {
        None => push_single(parts, Part::Literal('[')),
        Some(n) => {
            parts.push(Part::Class { negated })?;
            push_ranges(parts, at, text.split_at(n).0)?;
            Ok(skipped + n + 1)
        }
    }
}

/// Behind a bracket.
#[tactic(auto, using(crate::proofs::Spelled::begins_len))]
fn push_bracketed(parts: &mut Vec<Part>, at: u32, rest: &[char]) -> Result<usize, OutOfMemory>
    requires { at + length rest.now + 2 < 2 ^ 32 }
    ensures { Puts (bracketed at rest.now) parts.old.items parts.new.items result }
{
    if begins('!', rest) {
        return push_bracket(parts, true, at + 2, 1, rest.split_at(1).1);
    }
    push_bracket(parts, false, at + 1, 0, rest)
}

/// The part that begins with the character `c`, at that place in so many open braces. It answers how many characters of the
/// rest belong to it.
fn push_spelled(
    parts: &mut Vec<Part>,
    depth: u32,
    at: u32,
    c: char,
    rest: &[char],
) -> Result<usize, OutOfMemory>
    requires { at + length rest.now + 2 < 2 ^ 32 }
    ensures { Puts (spelled depth at c rest.now) parts.old.items parts.new.items result }
{
    if c == '\\' {
        return push_escaped(parts, rest);
    }
    if c == '*' {
        return push_starred(parts, rest);
    }
    if c == '?' {
        return push_single(parts, Part::One);
    }
    if c == '[' {
        return push_bracketed(parts, at, rest);
    }
    if c == '{' {
        return push_single(parts, Part::Open { at });
    }
    if c == ',' && depth > 0 {
        return push_single(parts, Part::Comma);
    }
    if c == '}' && depth > 0 {
        return push_single(parts, Part::Close);
    }
    push_single(parts, Part::Literal(c))
}

/// How many braces are open behind a part that begins with the character.
fn depth_after(depth: u32, c: char) -> u32
    requires { depth + 1 < 2 ^ 32 }
    ensures after { result ≡ depth_after depth c }
    ensures most { result ≤ depth + 1 }
{
    match c {
        '{' => depth + 1,
        '}' => depth.saturating_sub(1),
        _ => depth,
    }
}

/// The parts of a text.
pub fn spell(alloc: Global, text: &[char]) -> Result<Vec<Part>, OutOfMemory>
    requires { length text.now ≤ 4095 }
    ensures parts { IfOk result (λ parts. parts.items ≡ parts_of text.now) }
    ensures few { IfOk result (λ parts. length parts.items ≤ length text.now) }
{
    let mut parts = Vec::new(alloc);
    let mut depth = 0;
    let mut at = 0;
    let mut left = text;
    while let Some((c, rest)) = left.split_first() {
        let more = push_spelled(&mut parts, depth, at, *c, rest)?;
        depth = depth_after(depth, *c);
        at += 1 + more as u32;
        left = rest.split_at(more).1;
    }
    Ok(parts)
}
