//! Text that grows.

use std::alloc::Global;
use std::mem;

/// Text that grows; what finds no memory is missing in it, and so is all behind that.
#[derive(Drop)]
pub(crate) struct Line {
    text: String,
    whole: bool,
}

impl Line {
    /// No text.
    pub fn new(alloc: Global) -> Line {
        Line {
            text: String::new(alloc),
            whole: true,
        }
    }

    /// No text again.
    pub fn clear(&mut self) {
        self.text.clear();
        self.whole = true;
    }

    /// Puts a text.
    pub fn put(&mut self, text: &str) {
        if self.whole {
            self.whole = self.text.push_str(text).is_ok();
        }
    }

    /// Puts a character.
    pub fn put_char(&mut self, letter: char) {
        if self.whole {
            self.whole = self.text.push(letter).is_ok();
        }
    }

    /// Puts a number, in decimal digits.
    pub fn put_number(&mut self, number: u64) {
        if self.whole {
            self.whole = write!(self.text, "{number}").is_ok();
        }
    }

    /// Puts a byte in two hexadecimal digits.
    pub fn put_hex(&mut self, byte: u8) {
        if self.whole {
            self.whole = write!(self.text, "{byte:02X}").is_ok();
        }
    }

    /// The text so far.
    pub fn as_str(&self) -> &str {
        self.text.as_str()
    }

    /// The same text as another line has.
    pub fn copy(&mut self, other: &Line) {
        self.clear();
        self.put(other.as_str());
    }

    /// Puts lines in one, ` | ` between them; `nothing` where there are none.
    pub fn put_on_one(&mut self, text: &str) {
        if text.is_empty() {
            self.put("nothing");
        }
        for (at, line) in text.lines().enumerate() {
            self.put(if at == 0 { "" } else { " | " });
            self.put(line);
        }
    }

    /// Takes the text out.
    pub fn take(&mut self, alloc: Global) -> String {
        self.whole = true;
        mem::replace(&mut self.text, String::new(alloc))
    }
}
