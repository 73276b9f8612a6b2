//! The bytes of a docket and of a data file, put together by their formats alone.

use crate::tokens::{number, number_in, text, token_at};
use crate::wrong::Wrong;
use std::alloc::Global;

// The SHA-1 of no bytes.
const NO_PATTERNS: [u8; 20] = [
    0xda, 0x39, 0xa3, 0xee, 0x5e, 0x6b, 0x4b, 0x0d, 0x32, 0x55, 0xbf, 0xef, 0x95, 0x60, 0x18, 0x90,
    0xaf, 0xd8, 0x07, 0x09,
];

/// The bytes of a data file so far, where its first node stands, how many nodes it has, and how many of them have an entry; and the bytes of
/// the docket that was put together last, with its identifier, and whether it stands alone.
#[derive(Drop)]
pub(crate) struct Data {
    pub bytes: Vec<u8>,
    first: u64,
    nodes: u64,
    entries: u64,
    pub ended: bool,
    pub docket: Vec<u8>,
    pub id: String,
    pub alone: bool,
}

/// Where a field stands: its place, its length, and that of a second one behind it.
#[derive(Clone, Copy)]
struct Field {
    at: usize,
    len: usize,
    second: usize,
}

impl Data {
    /// No bytes.
    pub fn new(alloc: Global) -> Data {
        Data {
            bytes: Vec::new(alloc),
            first: 0,
            nodes: 0,
            entries: 0,
            ended: false,
            docket: Vec::new(alloc),
            id: String::new(alloc),
            alone: false,
        }
    }

    /// No bytes again.
    pub fn clear(&mut self) {
        self.bytes.clear();
        self.first = 0;
        self.nodes = 0;
        self.entries = 0;
        self.ended = false;
    }

    /// Begins anew where a docket, a run or a question came since.
    pub fn begin(&mut self) {
        if self.ended {
            self.clear();
        }
    }

    /// Puts bytes.
    pub fn put(&mut self, bytes: &[u8], wrong: &mut Wrong) {
        wrong.check(self.bytes.extend_from_slice(bytes).is_ok());
    }

    /// Puts the record of the node of a line.
    pub fn put_node(&mut self, tokens: &[Vec<u8>], wrong: &mut Wrong) {
        let mut record = [0; 44];
        let path = place_of(self.bytes.as_slice(), token_at(tokens, 1, wrong), wrong);
        put_pair(&mut record, node_field("path", wrong), path, wrong);
        let base = base_of(bytes_at(self.bytes.as_slice(), path));
        put_at(&mut record, 6, 2, base, wrong);
        for token in tokens.iter().skip(2) {
            put_word(
                &mut record,
                self.bytes.as_slice(),
                text(token.as_slice(), wrong),
                wrong,
            );
        }
        self.count(record[31] & 7 != 0);
        self.put(&record, wrong);
    }

    // Counts a node that is put behind the bytes.
    fn count(&mut self, is_entry: bool) {
        if self.nodes == 0 {
            self.first = self.bytes.len() as u64;
        }
        self.nodes = self.nodes.saturating_add(1);
        if is_entry {
            self.entries = self.entries.saturating_add(1);
        }
    }

    /// Puts the text of a path of so many components `a`, and a node for each of its directories, the only child of the one before.
    pub fn put_tower(&mut self, levels: u64, wrong: &mut Wrong) {
        for _ in 0..levels {
            self.put(b"a/", wrong);
        }
        self.first = self.bytes.len() as u64;
        self.nodes = 1;
        self.entries = levels;
        for level in 1..=levels {
            self.put_level(level, level < levels, wrong);
        }
    }

    fn put_level(&mut self, level: u64, is_above: bool, wrong: &mut Wrong) {
        let mut record = [0; 44];
        let base = level.saturating_sub(1).saturating_mul(2);
        put_at(&mut record, 4, 2, base.saturating_add(1), wrong);
        put_at(&mut record, 6, 2, base, wrong);
        if is_above {
            let below = self.first.saturating_add(level.saturating_mul(44));
            put_at(&mut record, 14, 4, below, wrong);
            put_at(&mut record, 18, 4, 1, wrong);
        }
        put_at(&mut record, 30, 2, 1, wrong);
        self.put(&record, wrong);
    }

    /// Puts the docket of a line together, over these bytes.
    pub fn make_docket(&mut self, tokens: &[Vec<u8>], from: usize, wrong: &mut Wrong) {
        self.begin_docket(wrong);
        for token in tokens.iter().skip(from) {
            self.take(text(token.as_slice(), wrong), wrong);
        }
        let len = self.id.len().min(255);
        wrong.check(self.docket.push(len as u8).is_ok());
        wrong.check(self.docket.extend_from_slice(self.id.as_bytes()).is_ok());
    }

    fn begin_docket(&mut self, wrong: &mut Wrong) {
        self.docket.clear();
        wrong.check(self.docket.extend_from_slice(b"dirstate-v2\n").is_ok());
        wrong.check(self.docket.resize(100, 0).is_ok());
        wrong.check(self.docket.extend_from_slice(&NO_PATTERNS).is_ok());
        wrong.check(self.docket.resize(124, 0).is_ok());
        let used = self.bytes.len() as u64;
        let docket = self.docket.as_mut_slice();
        put_at(docket, 76, 4, self.first, wrong);
        put_at(docket, 80, 4, self.nodes, wrong);
        put_at(docket, 84, 4, self.entries, wrong);
        put_at(docket, 120, 4, used, wrong);
        self.id.clear();
        wrong.check(self.id.push_str("0000000000000000").is_ok());
        self.alone = false;
    }

    fn take(&mut self, word: &str, wrong: &mut Wrong) {
        let (key, value) = word.split_once('=').unwrap_or((word, ""));
        match key {
            "alone" => self.alone = true,
            "id" => {
                self.id.clear();
                wrong.check(self.id.push_str(value).is_ok());
            }
            "p1" => self.fill(12, 32, value, wrong),
            "p2" => self.fill(44, 64, value, wrong),
            "spare" => {
                self.fill(32, 44, value, wrong);
                self.fill(64, 76, value, wrong);
                self.fill(96, 100, value, wrong);
            }
            _ => {
                let field = docket_field(key, wrong);
                put_value(self.docket.as_mut_slice(), field, value, wrong);
            }
        }
    }

    // Puts a byte, in hexadecimal digits, at each of these places.
    fn fill(&mut self, from: usize, to: usize, digits: &str, wrong: &mut Wrong) {
        let byte = u8::from_str_radix(digits, 16).ok();
        if byte.is_none() {
            wrong.set("no byte");
        }
        for at in from..to {
            if let Some(place) = self.docket.get_mut(at) {
                *place = byte.unwrap_or(0);
            }
        }
    }
}

// A mark of a record, or a field of it.
fn put_word(record: &mut [u8; 44], bytes: &[u8], word: &str, wrong: &mut Wrong) {
    match word.split_once('=') {
        Some(("from", value)) => {
            let place = place_of(bytes, value.as_bytes(), wrong);
            put_pair(record, node_field("from", wrong), place, wrong);
        }
        Some((key, value)) => put_value(record, node_field(key, wrong), value, wrong),
        None => {
            let (high, low) = mark(word, wrong);
            record[30] |= high;
            record[31] |= low;
        }
    }
}

// The bit of a mark, in the first byte of the flags or in the second.
fn mark(word: &str, wrong: &mut Wrong) -> (u8, u8) {
    match word {
        "w" => (0, 1),
        "p1" => (0, 2),
        "p2" => (0, 4),
        "exec" => (0, 8),
        "link" => (0, 16),
        "changed" => (2, 0),
        "sized" => (4, 0),
        "timed" => (8, 0),
        "ambiguous" => (16, 0),
        "dir" => (32, 0),
        "seen" => (64, 0),
        _ => {
            wrong.set("no such mark");
            (0, 0)
        }
    }
}

fn node_field(key: &str, wrong: &mut Wrong) -> Field {
    match key {
        "path" => pair(0, 4, 2),
        "base" => pair(6, 2, 0),
        "from" => pair(8, 4, 2),
        "kids" => pair(14, 4, 4),
        "below" => pair(22, 4, 4),
        "flags" => pair(30, 2, 0),
        "size" => pair(32, 4, 0),
        "time" => pair(36, 4, 4),
        _ => {
            wrong.set("no such field of a node");
            pair(0, 0, 0)
        }
    }
}

fn docket_field(key: &str, wrong: &mut Wrong) -> Field {
    match key {
        "root" => pair(76, 4, 4),
        "entries" => pair(84, 4, 0),
        "copies" => pair(88, 4, 0),
        "lost" => pair(92, 4, 0),
        "used" => pair(120, 4, 0),
        _ => {
            wrong.set("no such field of a docket");
            pair(0, 0, 0)
        }
    }
}

fn pair(at: usize, len: usize, second: usize) -> Field {
    Field { at, len, second }
}

// Puts one number, or two around a plus or a point.
fn put_value(bytes: &mut [u8], field: Field, value: &str, wrong: &mut Wrong) {
    if field.second == 0 {
        put_at(bytes, field.at, field.len, number(value, wrong), wrong);
        return;
    }
    match pair_in(value) {
        Some(pair) => put_pair(bytes, field, pair, wrong),
        None => wrong.set("no two numbers"),
    }
}

fn put_pair(bytes: &mut [u8], field: Field, pair: (u64, u64), wrong: &mut Wrong) {
    put_at(bytes, field.at, field.len, pair.0, wrong);
    let behind = field.at.saturating_add(field.len);
    put_at(bytes, behind, field.second, pair.1, wrong);
}

// Puts a number of that many bytes, the highest first.
fn put_at(bytes: &mut [u8], at: usize, len: usize, number: u64, wrong: &mut Wrong) {
    let mut left = number;
    for i in 0..len {
        let place = at.saturating_add(len).saturating_sub(i).saturating_sub(1);
        if let Some(byte) = bytes.get_mut(place) {
            *byte = (left % 256) as u8;
        }
        left /= 256;
    }
    if left > 0 {
        wrong.set("a number that is too large");
    }
}

// Two numbers around a plus or a point.
fn pair_in(value: &str) -> Option<(u64, u64)> {
    let sign = if value.contains('+') { '+' } else { '.' };
    let (first, second) = value.split_once(sign)?;
    Some((number_in(first)?, number_in(second)?))
}

// Place and length of a text: given as such, or those of the first place where it stands.
fn place_of(bytes: &[u8], token: &[u8], wrong: &mut Wrong) -> (u64, u64) {
    match given(token) {
        Some(pair) => pair,
        None => found(bytes, token, wrong),
    }
}

fn given(token: &[u8]) -> Option<(u64, u64)> {
    match str::from_utf8(token) {
        Ok(word) => pair_in(word),
        Err(_) => None,
    }
}

fn found(bytes: &[u8], token: &[u8], wrong: &mut Wrong) -> (u64, u64) {
    for at in 0..bytes.len() {
        if bytes.split_at(at).1.starts_with(token) {
            return (at as u64, token.len() as u64);
        }
    }
    wrong.set("no such text stands in the data");
    (0, 0)
}

// The bytes of a text; none where it isn't within them.
fn bytes_at(bytes: &[u8], of: (u64, u64)) -> &[u8] {
    let start = of.0 as usize;
    let end = start.saturating_add(of.1 as usize);
    bytes.get(start..end).unwrap_or(&[])
}

// Where the last component of a path begins.
fn base_of(path: &[u8]) -> u64 {
    let mut base = 0;
    for (at, byte) in path.iter().enumerate() {
        if *byte == b'/' {
            base = at.saturating_add(1);
        }
    }
    base as u64
}
