//! The words of a step.
use std::alloc::Global;
use std::string::String;
use std::test::Fail;
use std::vec::Vec;

/// The word at a place, or nothing.
pub fn word(step: &str, at: usize) -> &str {
    step.split(' ').nth(at).unwrap_or("")
}

/// The number at a place.
pub fn number(step: &str, at: usize) -> Result<u64, Fail> {
    match word(step, at).parse::<u64>() {
        Ok(number) => Ok(number),
        Err(_) => Err(Fail::new("no number")),
    }
}

/// What stands behind a backslash.
fn escaped(byte: u8) -> Option<u8> {
    match byte {
        b'n' => Some(b'\n'),
        b'0' => Some(0),
        b't' => Some(b'\t'),
        b'r' => Some(b'\r'),
        b's' => Some(b' '),
        b'\\' => Some(b'\\'),
        _ => None,
    }
}

fn digit(byte: u8) -> u8 {
    match byte {
        b'0'..=b'9' => byte - b'0',
        b'a'..=b'f' => byte - b'a' + 10,
        _ => 0,
    }
}

/// Where in a word a byte stands.
#[derive(Clone, Copy)]
enum State {
    Plain,
    Escape,
    Digit,
    Last(u8),
}

/// The bytes of a word, by what stands behind each backslash.
pub fn bytes(alloc: Global, word: &str) -> Result<Vec<u8>, Fail> {
    let mut all = Vec::new(alloc);
    let mut state = State::Plain;
    for byte in word.bytes() {
        state = taken(&mut all, state, byte)?;
    }
    Ok(all)
}

fn taken(all: &mut Vec<u8>, state: State, byte: u8) -> Result<State, Fail> {
    match state {
        State::Plain => {
            if byte == b'\\' {
                return Ok(State::Escape);
            }
            all.push(byte)?;
        }
        State::Escape => {
            if byte == b'x' {
                return Ok(State::Digit);
            }
            if let Some(byte) = escaped(byte) {
                all.push(byte)?;
            }
        }
        State::Digit => return Ok(State::Last(digit(byte))),
        State::Last(first) => all.push(first.wrapping_mul(16) | digit(byte))?,
    }
    Ok(State::Plain)
}

/// The bytes that hexadecimal digits write; what is no digit is passed over.
pub fn hex(alloc: Global, text: &str) -> Result<Vec<u8>, Fail> {
    let mut all = Vec::new(alloc);
    let mut state = State::Digit;
    for byte in text.bytes() {
        if byte.is_ascii_hexdigit() {
            state = paired(&mut all, state, byte)?;
        }
    }
    Ok(all)
}

fn paired(all: &mut Vec<u8>, state: State, byte: u8) -> Result<State, Fail> {
    match state {
        State::Last(_) => taken(all, state, byte)?,
        _ => return taken(all, State::Digit, byte),
    };
    Ok(State::Digit)
}

/// The text of a word.
pub fn text(alloc: Global, word: &str) -> Result<String, Fail> {
    match String::from_utf8(bytes(alloc, word)?) {
        Ok(text) => Ok(text),
        Err(_) => Err(Fail::new("no text")),
    }
}

/// Writes bytes as a word has them.
pub fn print(out: &mut String, bytes: &[u8]) -> Result<(), Fail> {
    for byte in bytes {
        print_byte(out, *byte)?;
    }
    Ok(())
}

fn print_byte(out: &mut String, byte: u8) -> Result<(), Fail> {
    match byte {
        b'\n' => out.push_str("\\n")?,
        0 => out.push_str("\\0")?,
        b' '..=b'~' => out.push(char::from(byte))?,
        _ => write!(out, "\\x{byte:02x}")?,
    }
    Ok(())
}
