//! What a run printed, as the lines that are expected of it.

use crate::line::Line;
use hg_report::{Fault, fault_text};
use hg_session::Outcome;
use std::alloc::Global;

// Over so many times one byte it is counted.
const MANY: u64 = 64;

/// Lines that grow by bytes.
#[derive(Drop)]
pub(crate) struct Printed {
    pub line: Line,
    open: bool,
    byte: u8,
    times: u64,
}

impl Printed {
    /// No line.
    pub fn new(alloc: Global) -> Printed {
        Printed {
            line: Line::new(alloc),
            open: false,
            byte: 0,
            times: 0,
        }
    }

    /// Puts bytes, each line behind that front. A last line without its end says so.
    pub fn put(&mut self, front: &str, bytes: &[u8]) {
        for byte in bytes {
            self.step(front, *byte);
        }
        if self.open {
            self.flush();
            self.line.put(" (no end)\n");
            self.open = false;
        }
    }

    fn step(&mut self, front: &str, byte: u8) {
        if !self.open {
            self.line.put(front);
            self.open = true;
        }
        if (byte != self.byte) | (byte == b'\n') {
            self.flush();
        }
        self.take(byte);
    }

    fn take(&mut self, byte: u8) {
        if byte == b'\n' {
            self.open = false;
            self.line.put("\n");
            return;
        }
        self.byte = byte;
        self.times = self.times.saturating_add(1);
    }

    // Puts the byte that was met last, so often as it was.
    fn flush(&mut self) {
        let times = self.times;
        self.times = 0;
        if times > MANY {
            self.line.put("{");
            self.show();
            self.line.put("*");
            self.line.put_number(times);
            self.line.put("}");
            return;
        }
        for _ in 0..times {
            self.show();
        }
    }

    fn show(&mut self) {
        match self.byte {
            b'\\' => self.line.put("\\\\"),
            b' '..=b'~' => self.line.put_char(char::from(self.byte)),
            _ => {
                self.line.put("\\x");
                self.line.put_hex(self.byte);
            }
        }
    }

    /// Puts the status where it isn't 0, and the line of the fault that is answered where it isn't what stands on the error stream.
    pub fn put_outcome(&mut self, alloc: Global, outcome: &Outcome, err: &[u8]) {
        if outcome.status != 0 {
            self.line.put("[");
            self.line.put_number(u64::from(outcome.status));
            self.line.put("]\n");
        }
        match &outcome.fault {
            Some(fault) => self.put_fault(alloc, fault, err),
            None => self.put_faultless(outcome.status),
        }
    }

    fn put_faultless(&mut self, status: u8) {
        if status == 255 {
            self.line.put("[no fault]\n");
        }
    }

    fn put_fault(&mut self, alloc: Global, fault: &Fault, err: &[u8]) {
        match fault_text(alloc, fault) {
            Ok(text) => self.put_other(text.as_slice(), err),
            Err(_) => self.line.put("[fault] no memory\n"),
        }
    }

    fn put_other(&mut self, text: &[u8], err: &[u8]) {
        if text == err {
            return;
        }
        if text.is_empty() {
            self.line.put("[fault]\n");
        }
        self.put("[fault] ", text);
    }
}

/// Puts lines with `N` in place of each number that is printed, but for the marks of the error stream and of a status.
pub(crate) fn put_numberless(all: &mut Line, text: &str) {
    for line in text.lines() {
        put_line(all, line);
        all.put("\n");
    }
}

fn put_line(all: &mut Line, line: &str) {
    if line.starts_with('[') {
        all.put(line);
        return;
    }
    match line.strip_prefix("2> ") {
        Some(rest) => {
            all.put("2> ");
            put_letters(all, rest);
        }
        None => put_letters(all, line),
    }
}

fn put_letters(all: &mut Line, line: &str) {
    let mut within = false;
    for letter in line.chars() {
        let is_digit = letter.is_ascii_digit();
        put_letter(all, letter, is_digit, within);
        within = is_digit;
    }
}

fn put_letter(all: &mut Line, letter: char, is_digit: bool, within: bool) {
    if !is_digit {
        all.put_char(letter);
    } else if !within {
        all.put("N");
    }
}
