//! Reading line by line.

ghost use Rattle.std.specs.Prelude.{◌≡◌, ◌+◌, ◌≤◌, ◌<◌, ◌⊎◌, ◌==◌, [], false, length, take, drop, IfOk, IfErr, IfSome, OnOk, OnErr, MatchBool};
ghost use Rattle.hg_base.specs.Fault.{HasCause};
ghost use Rattle.hg_lines.specs.Script.{Answers, IsLine, IsStill, ReadsFrom, all_of, has_end, held, start};
ghost use Rattle.hg_lines.specs.Steps.{Ends, HasEnd, IsRefused, IsText, Refuses, passed};
ghost use Rattle.hg_lines.specs.declared.fault.LineFault.TheVariants as a_fault;

use crate::fault::LineFault;
use crate::piece::Piece;
use hg_base::{Failed, OutOfMemory, Text};
use hg_stream::Source;
use memchr::memchr;
use std::alloc::Global;
use std::marker::Model;

/// The greatest length of a line, and how many bytes are taken at once.
const MOST: usize = 65_536;

/// Lines that are read from a source; contracts see how far they were read.
#[derive(Drop)]
pub struct Lines {
    alloc: Global,
    line: Vec<u8>,
    piece: Piece,
    number: u32,
    before: u64,
}

impl Model for Lines {
    ghost use Rattle.hg_lines.specs.Script.{Reading};
    ghost use Rattle.hg_lines.specs.Steps.{IsReading};

    ghost Value = { Reading };

    ghost view = { λ l. record { number = l.number; before = l.before; line = l.line.items; piece = l.piece } };

    ghost invariant = { λ l. IsReading l.number l.before l.line.items };
}

// Where the first line of some bytes ends; their length where it doesn't.
fn end_of(bytes: &[u8]) -> usize
    ensures within { result ≤ length bytes.now }
    ensures plain { has_end (take result bytes.now) ≡ false }
    ensures end { result < length bytes.now → Ends (drop result bytes.now) }
{
    match memchr(b'\n', bytes) {
        Some(at) => at,
        None => bytes.len(),
    }
}

// Why a line is refused of which so many bytes were taken, and which ends there or doesn't.
fn refused(before: u64, number: u32, size: usize, ends: bool) -> Option<LineFault>
    requires within { before ≤ 67108864 }
    requires size { size ≤ 131072 }
    requires number { number ≤ before }
    ensures { Refuses before (number + 1) size ends result }
{
    let taken = if ends { size + 1 } else { size };
    if before + taken.min(MOST + 1) as u64 > 67_108_864 {
        return Some(LineFault::TooLarge { size: 67_108_865 });
    }
    if size > MOST {
        return Some(LineFault::Line { n: number + 1 });
    }
    None
}

impl Lines {
    /// Nothing is taken yet.
    pub fn new(alloc: Global) -> Result<Lines, OutOfMemory>
        ensures { IfOk result (λ lines. lines ≡ start) }
    {
        Ok(Lines {
            alloc,
            line: Vec::new(alloc),
            piece: Piece::new(alloc, MOST)?,
            number: 0,
            before: 0,
        })
    }

    /// How many lines were handed out: the number of the last one.
    pub fn number(&self) -> u32
        ensures { result ≡ self.now.number }
    {
        self.number
    }

    // Takes more where all that was taken belongs to the next line, and answers whether there is more.
    fn refill<I: Source>(&mut self, input: &mut I) -> Result<bool, Failed>
        ensures same { self.new ≡ record self.old { piece = self.new.piece } }
        ensures all { all_of self.new (I.left input.new) ≡ all_of self.old (I.left input.old) }
        ensures some { IfOk result (λ more. MatchBool more (0 < length self.new.piece) ((self.new.piece ≡ []) × IfSome (I.left input.new) (λ rest. rest ≡ []))) }
        ensures cause { HasCause (I.faults input.old) (I.faults input.new) result (λ e. Unit {0}) }
    {
        if !self.piece.bytes().is_empty() {
            return Ok(true);
        }
        self.piece.fill(input)
    }

    // Takes from the piece what belongs to the next line, and answers whether that ends there.
    fn gather(&mut self) -> Result<bool, LineFault>
        requires { 0 < length self.old.piece }
        ensures still { IsStill self.old self.new }
        ensures held { held self.new ≡ held self.old }
        ensures short { length self.new.line ≤ 65536 }
        ensures ok { IfOk result (λ ends. MatchBool ends (HasEnd self.new) ((self.new.piece ≡ []) × (length self.old.line < length self.new.line))) }
        ensures err { IfErr result (IsRefused self.new) }
        ensures own { IfErr result (λ fault. fault ≡ a_fault.Failed → ⊥) }
    {
        let bytes = self.piece.bytes();
        let n = end_of(bytes);
        let ends = n < bytes.len();
        if let Some(fault) = refused(self.before, self.number, self.line.len() + n, ends) {
            return Err(fault);
        }
        self.line.extend_from_slice(bytes.split_at(n).0)?;
        self.piece.advance(n);
        Ok(ends)
    }

    // Takes all of the next line, and answers whether it ends with a line feed and not with the input.
    fn reach<I: Source>(&mut self, input: &mut I) -> Result<bool, LineFault>
        ensures still { IsStill self.old self.new }
        ensures all { all_of self.new (I.left input.new) ≡ all_of self.old (I.left input.old) }
        ensures ok { IfOk result (λ ends. MatchBool ends (HasEnd self.new) ((self.new.piece ≡ []) × IfSome (I.left input.new) (λ rest. rest ≡ []))) }
        ensures err { IfErr result (IsRefused self.new) }
        ensures cause { HasCause (I.faults input.old) (I.faults input.new) result (λ e. e ≡ a_fault.Failed) }
        ensures stayed { IfErr result (λ e. (e ≡ a_fault.Failed) ⊎ (I.faults input.new ≡ I.faults input.old)) }
    {
        while self.refill(input)? {
            if self.gather()? {
                return Ok(true);
            }
        }
        Ok(false)
    }

    // Whether nothing of a next line was taken.
    fn is_done(&self) -> bool
        ensures done { result ≡ (length self.now.line == 0) }
        ensures room { self.now.before + length self.now.line ≤ 67108864 }
    {
        self.line.is_empty()
    }

    // What was taken of the next line, as text.
    fn text(&self) -> Result<Text, LineFault>
        ensures text { IsText (self.now.number + 1) self.now.line result }
        ensures fine { IfOk result IsLine }
        ensures whole { has_end self.now.line ≡ false }
        ensures short { length self.now.line ≤ 65536 }
    {
        match str::from_utf8(self.line.as_slice()) {
            Ok(text) => Ok(Text::of(self.alloc, text)?),
            Err(_) => Err(LineFault::Text { n: self.number + 1 }),
        }
    }

    // Counts the next line, and with it so many bytes of the piece.
    fn pass(&mut self, end: usize)
        requires within { end ≤ length self.old.piece }
        requires some { 0 < length self.old.line + end }
        requires room { self.old.before + length self.old.line + end ≤ 67108864 }
        ensures { self.new ≡ passed self.old end }
    {
        self.before += (self.line.len() + end) as u64;
        self.number += 1;
        self.line.clear();
        self.piece.advance(end);
    }

    // The next line, of which all was taken; its end has so many bytes.
    fn hand(&mut self, end: usize) -> Result<Text, LineFault>
        requires within { end ≤ length self.old.piece }
        requires some { 0 < length self.old.line + end }
        requires room { self.old.before + length self.old.line + end ≤ 67108864 }
        ensures text { IsText (self.old.number + 1) self.old.line result }
        ensures fine { IfOk result IsLine }
        ensures whole { has_end self.old.line ≡ false }
        ensures short { length self.old.line ≤ 65536 }
        ensures ok { OnOk result (self.new ≡ passed self.old end) }
        ensures err { OnErr result (self.new ≡ self.old) }
    {
        let text = self.text()?;
        self.pass(end);
        Ok(text)
    }

    /// The next line, without its line feed; none at the end of the input. After a fault all that wasn't handed out still is to be,
    /// so that the next call goes on with it.
    pub fn next<I: Source>(&mut self, input: &mut I) -> Result<Option<Text>, LineFault>
        ensures answers { Answers self.old self.new result }
        ensures reads { ReadsFrom self.old (all_of self.old (I.left input.old)) self.new (all_of self.new (I.left input.new)) result }
        ensures cause { HasCause (I.faults input.old) (I.faults input.new) result (λ e. e ≡ a_fault.Failed) }
        ensures stayed { IfErr result (λ e. (e ≡ a_fault.Failed) ⊎ (I.faults input.new ≡ I.faults input.old)) }
    {
        if self.reach(input)? {
            return Ok(Some(self.hand(1)?));
        }
        if self.is_done() {
            return Ok(None);
        }
        Ok(Some(self.hand(0)?))
    }
}
