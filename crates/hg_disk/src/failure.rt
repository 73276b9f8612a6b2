//! What is kept of the first call that failed: the name and the reason, for a further line beside the fault.

ghost use Rattle.std.specs.Prelude.{◌≡◌, IsSome};

use std::alloc::{AllocError, Global};
use std::format;
use std::io::Error;

/// Why a call failed.
#[derive(Clone, Copy)]
pub(crate) enum Reason {
    /// The system says so.
    System(Error),
    /// The adapter says so, in these words.
    Words(&'static str),
}

impl From<Error> for Reason {
    ghost from_gives = { λ error reason. Unit {0} };

    fn from(error: Error) -> Reason {
        Reason::System(error)
    }
}

/// The first failure of an adapter, as one text.
#[derive(Drop)]
pub(crate) struct FirstFailure {
    text: Option<String>,
}

impl FirstFailure {
    /// Nothing failed yet.
    pub(crate) fn new() -> FirstFailure {
        FirstFailure { text: None }
    }

    /// The name and the reason, where there was a failure and memory for its text.
    pub(crate) fn as_str(&self) -> Option<&str> {
        match &self.text {
            Some(text) => Some(text.as_str()),
            None => None,
        }
    }

    /// Keeps what failed, unless something did before.
    pub(crate) fn keep(&mut self, alloc: Global, dir: &[u8], name: &[u8], reason: Reason)
        ensures { IsSome self.old.text → self.new.text ≡ self.old.text }
    {
        if self.text.is_some() {
            return;
        }
        if let Ok(text) = text_of(alloc, dir, name, reason) {
            self.text = Some(text);
        }
    }
}

// The name in the folder, which is empty for the root, and the reason. The root itself is `.`.
fn text_of(alloc: Global, dir: &[u8], name: &[u8], reason: Reason) -> Result<String, AllocError> {
    let mut text = String::new(alloc);
    push_bytes(&mut text, dir)?;
    if !dir.is_empty() && !name.is_empty() {
        text.push('/')?;
    }
    push_bytes(&mut text, name)?;
    if text.is_empty() {
        text.push('.')?;
    }
    text.push_str(": ")?;
    match reason {
        Reason::Words(words) => text.push_str(words)?,
        Reason::System(error) => push_words(alloc, &mut text, &error)?,
    }
    Ok(text)
}

/// Puts the bytes as they are where they are text without control characters, and the others as `\xHH`.
pub(crate) fn push_bytes(text: &mut String, bytes: &[u8]) -> Result<(), AllocError> {
    for chunk in bytes.utf8_chunks() {
        push_text(text, chunk.valid())?;
        for byte in chunk.invalid() {
            push_byte(text, *byte)?;
        }
    }
    Ok(())
}

fn push_text(text: &mut String, words: &str) -> Result<(), AllocError> {
    for letter in words.chars() {
        push_letter(text, letter)?;
    }
    Ok(())
}

// (of the control characters those from U+0080 on have two bytes)
fn push_letter(text: &mut String, letter: char) -> Result<(), AllocError> {
    match u8::try_from(u32::from(letter)) {
        Ok(byte) if byte < 0x20 || byte == 0x7f => push_byte(text, byte),
        Ok(byte) if byte >= 0x80 && byte < 0xa0 => {
            push_byte(text, 0xc2)?;
            push_byte(text, byte)
        }
        _ => text.push(letter),
    }
}

fn push_byte(text: &mut String, byte: u8) -> Result<(), AllocError> {
    text.push_str("\\x")?;
    push_digit(text, byte >> 4)?;
    push_digit(text, byte & 15)
}

fn push_digit(text: &mut String, digit: u8) -> Result<(), AllocError> {
    match char::from_digit(u32::from(digit), 16) {
        Some(letter) => text.push(letter),
        None => Ok(()),
    }
}

// The system's words for an error, without its number, and in small letters as other lines are.
fn push_words(alloc: Global, text: &mut String, error: &Error) -> Result<(), AllocError> {
    let words = format!(in alloc; "{error}")?;
    push_small(alloc, text, without_number(words.as_str()))
}

fn without_number(words: &str) -> &str {
    match words.split_once(" (os error ") {
        Some((words, _)) => words,
        None => words,
    }
}

fn push_small(alloc: Global, text: &mut String, words: &str) -> Result<(), AllocError> {
    match words.split_at_checked(1) {
        Some((first, rest)) => {
            let first = first.to_ascii_lowercase(alloc)?;
            text.push_str(first.as_str())?;
            text.push_str(rest)
        }
        None => text.push_str(words),
    }
}
