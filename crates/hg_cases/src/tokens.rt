//! The tokens of a line: bare characters and texts in quotes, next to each other, and spaces between.
//!
//! In a text stand `\n`, `\0`, `\t`, `\r`, `\\`, `\"` and `\xHH`; `"b"*9` is that text nine times.

use crate::wrong::Wrong;
use hg_base::{PathRef, Text, Time, Words};
use std::alloc::Global;
use std::mem;
use std::str::from_utf8;

// Where a reader stands in a line.
#[derive(Clone, Copy)]
enum State {
    Between,
    Bare,
    Text,
    Escape,
    FirstDigit,
    SecondDigit(u8),
    Closed,
    Times(usize),
}

// What was read of a line: its tokens, the token that is open, and the text that stands last in it.
#[derive(Drop)]
struct Reader {
    alloc: Global,
    tokens: Vec<Vec<u8>>,
    token: Vec<u8>,
    text: Vec<u8>,
    state: State,
    wrong: Wrong,
}

impl Reader {
    fn take(&mut self, byte: u8) {
        match self.state {
            State::Between | State::Bare => self.bare(byte),
            State::Text => self.quoted(byte),
            State::Escape => self.escaped(byte),
            State::FirstDigit => self.state = State::SecondDigit(digit(byte, &mut self.wrong)),
            State::SecondDigit(first) => self.second(first, byte),
            State::Closed => self.closed(byte),
            State::Times(times) => self.repeated(byte, times),
        }
    }

    fn bare(&mut self, byte: u8) {
        match byte {
            b' ' => self.finish(),
            b'"' => self.state = State::Text,
            _ => {
                self.state = State::Bare;
                self.wrong.check(self.token.push(byte).is_ok());
            }
        }
    }

    fn quoted(&mut self, byte: u8) {
        match byte {
            b'"' => self.state = State::Closed,
            b'\\' => self.state = State::Escape,
            _ => self.put(byte),
        }
    }

    fn escaped(&mut self, byte: u8) {
        match byte {
            b'n' => self.put(b'\n'),
            b'0' => self.put(0),
            b't' => self.put(b'\t'),
            b'r' => self.put(b'\r'),
            b'x' => self.state = State::FirstDigit,
            b'\\' | b'"' => self.put(byte),
            _ => self.wrong.set("no such escape"),
        }
    }

    fn second(&mut self, first: u8, byte: u8) {
        let second = digit(byte, &mut self.wrong);
        self.put(first.saturating_mul(16).saturating_add(second));
    }

    // A byte of the text.
    fn put(&mut self, byte: u8) {
        self.state = State::Text;
        self.wrong.check(self.text.push(byte).is_ok());
    }

    fn closed(&mut self, byte: u8) {
        if byte == b'*' {
            self.state = State::Times(0);
            return;
        }
        self.close(1);
        self.bare(byte);
    }

    fn repeated(&mut self, byte: u8, times: usize) {
        if byte.is_ascii_digit() {
            let digit = usize::from(digit(byte, &mut self.wrong));
            self.state = State::Times(times.saturating_mul(10).saturating_add(digit));
            return;
        }
        self.close(times);
        self.bare(byte);
    }

    // Puts the text so often behind the token.
    fn close(&mut self, times: usize) {
        self.wrong
            .check(repeat(&mut self.token, self.text.as_slice(), times));
        self.text.clear();
        self.state = State::Bare;
    }

    // Ends the token, where one is open.
    fn finish(&mut self) {
        if matches!(self.state, State::Bare) {
            let token = mem::replace(&mut self.token, Vec::new(self.alloc));
            self.wrong.check(self.tokens.push(token).is_ok());
        }
        self.state = State::Between;
    }

    // Ends the line: a space behind it ends its last token.
    fn end(&mut self) {
        self.take(b' ');
        if !matches!(self.state, State::Between) {
            self.wrong.set("a text without its end");
        }
    }
}

// A hexadecimal digit.
fn digit(byte: u8, wrong: &mut Wrong) -> u8 {
    match char::from(byte).to_digit(16) {
        Some(digit) => u8::try_from(digit).unwrap_or(0),
        None => {
            wrong.set("no digit");
            0
        }
    }
}

// Puts a text so often behind others, and tells whether there was memory. One byte is put many times at once.
fn repeat(all: &mut Vec<u8>, text: &[u8], times: usize) -> bool {
    if let [byte] = text {
        return all.resize(all.len().saturating_add(times), *byte).is_ok();
    }
    for _ in 0..times {
        if all.extend_from_slice(text).is_err() {
            return false;
        }
    }
    true
}

/// The tokens of a line.
pub(crate) fn tokens(alloc: Global, line: &str, wrong: &mut Wrong) -> Vec<Vec<u8>> {
    let mut reader = Reader {
        alloc,
        tokens: Vec::new(alloc),
        token: Vec::new(alloc),
        text: Vec::new(alloc),
        state: State::Between,
        wrong: *wrong,
    };
    for byte in line.bytes() {
        reader.take(byte);
    }
    reader.end();
    *wrong = reader.wrong;
    let Reader { tokens, .. } = reader;
    tokens
}

/// The token at that place; none behind the last.
pub(crate) fn token_at<'a>(tokens: &'a [Vec<u8>], at: usize, wrong: &mut Wrong) -> &'a [u8] {
    match tokens.get(at) {
        Some(token) => token.as_slice(),
        None => {
            wrong.set("a token is missing");
            &[]
        }
    }
}

/// Bytes as text.
pub(crate) fn text<'a>(bytes: &'a [u8], wrong: &mut Wrong) -> &'a str {
    match from_utf8(bytes) {
        Ok(text) => text,
        Err(_) => {
            wrong.set("a token isn't text");
            ""
        }
    }
}

/// The text at that place.
pub(crate) fn word_at<'a>(tokens: &'a [Vec<u8>], at: usize, wrong: &mut Wrong) -> &'a str {
    text(token_at(tokens, at, wrong), wrong)
}

/// A number, decimal, or hexadecimal behind `0x`.
pub(crate) fn number(text: &str, wrong: &mut Wrong) -> u64 {
    match number_in(text) {
        Some(number) => number,
        None => {
            wrong.set("no number");
            0
        }
    }
}

/// The same, where a text is one.
pub(crate) fn number_in(text: &str) -> Option<u64> {
    match text.strip_prefix("0x") {
        Some(digits) => u64::from_str_radix(digits, 16).ok(),
        None => text.parse::<u64>().ok(),
    }
}

/// The number at that place.
pub(crate) fn number_at(tokens: &[Vec<u8>], at: usize, wrong: &mut Wrong) -> u64 {
    number(word_at(tokens, at, wrong), wrong)
}

/// The path at that place.
pub(crate) fn path_at<'a>(
    tokens: &'a [Vec<u8>],
    at: usize,
    wrong: &mut Wrong,
) -> Option<PathRef<'a>> {
    let path = PathRef::read(word_at(tokens, at, wrong)).ok();
    if path.is_none() {
        wrong.set("no path");
    }
    path
}

/// The time at that place: seconds since 1970, which may stand behind a minus, a point, and nanoseconds into that second.
pub(crate) fn time_at(tokens: &[Vec<u8>], at: usize, wrong: &mut Wrong) -> Time {
    let (seconds, nanos) = word_at(tokens, at, wrong)
        .split_once('.')
        .unwrap_or(("", ""));
    time_of(seconds, number(nanos, wrong), wrong)
}

fn time_of(seconds: &str, nanos: u64, wrong: &mut Wrong) -> Time {
    let seconds = seconds.parse::<i64>().ok();
    if seconds.is_none() {
        wrong.set("no number of seconds");
    }
    if nanos >= 1_000_000_000 {
        wrong.set("more nanoseconds than a second has");
    }
    Time {
        seconds: seconds.unwrap_or(0),
        nanos: (nanos % 1_000_000_000) as u32,
    }
}

/// The tokens from that place on, joined.
pub(crate) fn joined(alloc: Global, tokens: &[Vec<u8>], from: usize, wrong: &mut Wrong) -> Vec<u8> {
    let mut all = Vec::new(alloc);
    for token in tokens.iter().skip(from) {
        wrong.check(all.extend_from_slice(token.as_slice()).is_ok());
    }
    all
}

/// The tokens from that place on, as the words of a command.
pub(crate) fn words_from(
    alloc: Global,
    tokens: &[Vec<u8>],
    from: usize,
    wrong: &mut Wrong,
) -> Words {
    let mut words = Words::new(alloc);
    for token in tokens.iter().skip(from) {
        push_word(alloc, &mut words, text(token.as_slice(), wrong), wrong);
    }
    words
}

/// Puts a word last.
pub(crate) fn push_word(alloc: Global, words: &mut Words, word: &str, wrong: &mut Wrong) {
    match Text::of(alloc, word) {
        Ok(text) => wrong.check(words.push(text).is_ok()),
        Err(_) => wrong.check(false),
    }
}
