//! Globs: read from a text, and asked for a text.

ghost use Rattle.std.specs.Prelude.{true, false, ◌≡◌, ◌+◌, ◌≤◌, ◌↔◌, ◌++◌, [], List, ℕ, Bool, length, reverse, IsTrue, IfOk, chars, encode_utf8_all, string_bytes};
ghost use Rattle.std.specs.Result.{result_err};
ghost use Rattle.hg_glob.specs.Part.{parts_of, glob_of, head_of, tail_from, literal_of, ended};
ghost use Rattle.hg_glob.specs.Line.{Stands};
ghost use Rattle.hg_glob.specs.Pattern.{InGlob};
ghost use Rattle.hg_glob.specs.Refusal.{refusal, Refuses, closers};

use crate::edge::{may_begin, may_end};
use crate::fault::GlobFault;
use crate::matching::{stands_long, stands_marked, stands_read};
use crate::part::Part;
use crate::refusal::fault_of;
use crate::short::Short;
use crate::spell::spell;
use crate::subject::Subject;
use hg_base::OutOfMemory;
use std::alloc::Global;
use std::marker::Model;

/// A glob; contracts see its text.
#[derive(Debug, Drop)]
pub struct Glob {
    text: String,
    parts: Vec<Part>,
    /// The literal text that the glob begins with.
    head: String,
    /// The literal text that it ends with.
    tail: String,
}

impl Model for Glob {
    ghost use Rattle.std.specs.Prelude.{List, ℕ};
    ghost use Rattle.std.specs.String.{string_bytes};
    ghost use Rattle.hg_glob.specs.Kept.{IsKept};

    ghost Value = { List ℕ };

    ghost view = { λ g. string_bytes g.text };

    ghost invariant = { λ g. IsKept (string_bytes g.text) g.parts.items (string_bytes g.head) (string_bytes g.tail) };
}

fn literal_of(part: Part) -> Option<char>
    ensures { result ≡ literal_of part }
{
    match part {
        Part::Literal(c) => Some(c),
        _ => None,
    }
}

/// The literal text that the parts begin with.
fn head_of(alloc: Global, parts: &[Part]) -> Result<String, OutOfMemory>
    ensures { IfOk result (λ head. string_bytes head ≡ encode_utf8_all (head_of parts.now)) }
{
    let mut head = String::new(alloc);
    for part in parts {
        match literal_of(*part) {
            None => return Ok(head),
            Some(c) => head.push(c)?,
        }
    }
    Ok(head)
}

/// One part more: a character goes on, any other part begins anew.
fn put_tail(tail: &mut String, part: Part) -> Result<(), OutOfMemory>
    ensures { (text : List ℕ) → string_bytes tail.old ≡ encode_utf8_all text → IfOk result (λ _. string_bytes tail.new ≡ encode_utf8_all (ended text (literal_of part))) }
{
    match literal_of(part) {
        None => tail.clear(),
        Some(c) => tail.push(c)?,
    }
    Ok(())
}

/// The literal text that the parts end with.
fn tail_of(alloc: Global, parts: &[Part]) -> Result<String, OutOfMemory>
    ensures { IfOk result (λ tail. string_bytes tail ≡ encode_utf8_all (tail_from [] parts.now)) }
{
    let mut tail = String::new(alloc);
    for part in parts {
        put_tail(&mut tail, *part)?;
    }
    Ok(tail)
}

/// The characters of a text that isn't too long.
fn characters(alloc: Global, text: &str) -> Result<Vec<char>, OutOfMemory>
    requires { length text.now ≤ 4095 }
    ensures text { IfOk result (λ characters. characters.items ≡ chars text.now) }
    ensures few { IfOk result (λ characters. length characters.items ≤ 4095) }
{
    Ok(text.chars().collect(alloc)?)
}

impl Glob {
    /// The glob that a text spells, or why it is none: over 4,095 bytes, or else the first brace without its end or the first
    /// reversed range, whichever stands first (Mercurial's `hg help patterns`, "glob").
    pub fn read(alloc: Global, text: &str) -> Result<Glob, GlobFault>
        ensures text { IfOk result (λ glob. glob ≡ text.now) }
        ensures refused { Refuses (refusal text.now) (result_err result) }
    {
        if text.len() > 4095 {
            return Err(GlobFault::TooLong {
                len: text.len() as u64,
            });
        }
        let characters = characters(alloc, text)?;
        let parts = spell(alloc, characters.as_slice())?;
        match fault_of(characters.as_slice(), parts.as_slice()) {
            Some(fault) => Err(fault),
            None => Ok(Glob::of(alloc, text, parts)?),
        }
    }

    /// The text that spells the glob.
    pub fn text(&self) -> &str
        ensures { result.now ≡ self.now }
    {
        self.text.as_str()
    }

    /// Whether the whole text is in the glob. It takes no memory.
    pub fn matches(&self, text: &str) -> bool
        ensures { IsTrue result ↔ InGlob (glob_of (chars self.now)) (chars text.now) }
    {
        self.stands(false, true, text)
    }

    /// Whether the path is some of its directories and then a text in the glob; where `rooted` is set, no directories stand in
    /// front. It takes no memory.
    pub fn matches_end(&self, path: &str, rooted: bool) -> bool
        ensures { IsTrue result ↔ Stands false rooted (glob_of (chars self.now)) (chars path.now) }
    {
        self.stands(false, rooted, path)
    }

    /// Whether `matches_end` holds of the path or of a directory above it. It takes no memory.
    pub fn matches_part(&self, path: &str, rooted: bool) -> bool
        ensures { IsTrue result ↔ Stands true rooted (glob_of (chars self.now)) (chars path.now) }
    {
        self.stands(true, rooted, path)
    }

    /// What `matches_end` answers, of a text that was read. It takes no memory.
    pub fn matches_end_of(&self, subject: &Subject<'_>, rooted: bool) -> bool
        ensures { IsTrue result ↔ Stands false rooted (glob_of (chars self.now)) (chars subject.now) }
    {
        self.stands_in(rooted, subject.text, &subject.short, subject.is_short)
    }

    /// Its parts.
    #[inline(always)]
    pub(crate) fn parts(&self) -> &[Part]
        ensures parts { result.now ≡ parts_of (chars self.now) }
        ensures few { length result.now ≤ 4095 }
        ensures closed { closers result.now ≡ 0 }
    {
        self.parts.as_slice()
    }

    /// Whether the end of the path leaves it possible that `matches_end` holds of it. Where it doesn't, the path needn't be read.
    #[inline(always)]
    pub fn may_match_end(&self, path: &str) -> bool
        ensures { (rooted : Bool) → Stands false rooted (glob_of (chars self.now)) (chars path.now) → IsTrue result }
    {
        may_end(false, path, self.tail.as_str())
    }

    /// What a text is asked that was read where it is short; a short one is asked in less time than its beginning is looked for.
    #[inline(always)]
    fn stands_in(&self, rooted: bool, path: &str, short: &Short, is_short: bool) -> bool
        requires read { IsTrue is_short → chars path.now ≡ reverse short.now }
        ensures { IsTrue result ↔ Stands false rooted (glob_of (chars self.now)) (chars path.now) }
    {
        if !may_end(false, path, self.tail.as_str()) {
            return false;
        }
        if is_short {
            return stands_read(self.parts.as_slice(), false, rooted, path, short);
        }
        if !may_begin(rooted, path, self.head.as_str()) {
            return false;
        }
        stands_long(self.parts.as_slice(), false, rooted, path)
    }

    /// What the three ask; the beginning and the end of the glob are looked for before any marks.
    fn stands(&self, inner: bool, rooted: bool, path: &str) -> bool
        ensures { IsTrue result ↔ Stands inner rooted (glob_of (chars self.now)) (chars path.now) }
    {
        if !may_end(inner, path, self.tail.as_str()) {
            return false;
        }
        if !may_begin(rooted, path, self.head.as_str()) {
            return false;
        }
        stands_marked(self.parts.as_slice(), inner, rooted, path)
    }

    /// The glob of a text and its parts.
    fn of(alloc: Global, text: &str, parts: Vec<Part>) -> Result<Glob, OutOfMemory>
        requires few { length text.now ≤ 4095 }
        requires parts { parts.items ≡ parts_of (chars text.now) }
        ensures { IfOk result (λ glob. glob ≡ text.now) }
    {
        let head = head_of(alloc, parts.as_slice())?;
        let tail = tail_of(alloc, parts.as_slice())?;
        let text = String::from_str(alloc, text)?;
        Ok(Glob {
            text,
            parts,
            head,
            tail,
        })
    }
}
