// Streams over std's readers and writers. They tell nothing and count each failure.
ghost use Rattle.std.specs.Prelude.{◌≡◌, ◌<◌, ◌≤◌, None, IfOk, IfSome, IfNone, length, take};
ghost use Rattle.std.specs.Io.KnownBytes.{Appends, Consumes, Keeps, IsAtEnd, ReadConsumes};
ghost use Rattle.hg_base.specs.Fault.{HasCause};

use crate::sink::Sink;
use crate::source::Source;
use hg_base::{Failed, risen};
use std::io::{ErrorKind, Read, Write};

// How often a call that a signal interrupted is made again before it counts as a failure.
const TRIES: u32 = 1000;

/// A source over a reader.
#[derive(Drop)]
pub struct ReaderSource<R: Read + Drop> {
    reader: R,
    faults: u64,
}

impl<R: Read + Drop> ReaderSource<R> {
    pub fn new(reader: R) -> ReaderSource<R>
        ensures reader { result.reader ≡ reader }
        ensures faults { result.faults ≡ 0 }
    {
        ReaderSource { reader, faults: 0 }
    }
}

impl<R: Read + Drop> Source for ReaderSource<R> {
    ghost left = { λ _. None };

    ghost faults = { λ s. s.faults };

    fn take(&mut self, buf: &mut [u8]) -> Result<usize, Failed>
        ensures most { IfOk result (λ n. n ≤ length buf.old) }
        ensures cause { HasCause self.old.faults self.new.faults result (λ e. Unit {0}) }

        // A reader whose bytes are known gives its next ones, none only at its end, and loses no other.
        ensures given { ReadConsumes (R.remaining self.old.reader) (R.remaining self.new.reader) result buf.new }
    {
        if let Some(n) = read(&mut self.reader, buf) {
            return Ok(n);
        }
        self.faults = risen(self.faults);
        Err(Failed)
    }
}

// Reads once more where a signal interrupted the read.
fn read<R: Read>(reader: &mut R, buf: &mut [u8]) -> Option<usize>
    ensures most { IfSome result (λ n. n ≤ length buf.old) }
    ensures given { IfSome result (λ n. Consumes (R.remaining reader.old) (R.remaining reader.new) (take n buf.new)) }
    ensures end { IfSome result (λ n. n ≡ 0 → 0 < length buf.new → IsAtEnd (R.remaining reader.new)) }
    ensures kept { IfNone result (Keeps (R.remaining reader.old) (R.remaining reader.new)) }
{
    for _ in 0..TRIES {
        match reader.read(buf) {
            Ok(n) => return Some(n),
            Err(error) if error.kind() == ErrorKind::Interrupted => {}
            Err(_) => return None,
        }
    }
    None
}

/// A sink over a writer. Each piece is written through: a write that fails fails at that call.
#[derive(Drop)]
pub struct WriterSink<W: Write + Drop> {
    writer: W,
    faults: u64,
}

impl<W: Write + Drop> WriterSink<W> {
    pub fn new(writer: W) -> WriterSink<W>
        ensures writer { result.writer ≡ writer }
        ensures faults { result.faults ≡ 0 }
    {
        WriterSink { writer, faults: 0 }
    }
}

impl<W: Write + Drop> Sink for WriterSink<W> {
    ghost bytes = { λ _. None };

    ghost faults = { λ s. s.faults };

    fn put(&mut self, piece: &[u8]) -> Result<usize, Failed>
        ensures most { IfOk result (λ n. n ≤ length piece.now) }
        ensures least { IfOk result (λ n. 0 < length piece.now → 0 < n) }
        ensures cause { HasCause self.old.faults self.new.faults result (λ e. Unit {0}) }

        // A writer whose bytes are known has what was taken behind them.
        ensures written { IfOk result (λ n. Appends (W.contents self.old.writer) (W.contents self.new.writer) (take n piece.now)) }
    {
        if let Some(n) = write(&mut self.writer, piece) {
            return Ok(n);
        }
        self.faults = risen(self.faults);
        Err(Failed)
    }
}

// Writes once more where a signal interrupted the write. A writer that takes nothing of a piece has failed.
fn write<W: Write>(writer: &mut W, piece: &[u8]) -> Option<usize>
    ensures most { IfSome result (λ n. n ≤ length piece.now) }
    ensures least { IfSome result (λ n. 0 < length piece.now → 0 < n) }
    ensures written { IfSome result (λ n. Appends (W.contents writer.old) (W.contents writer.new) (take n piece.now)) }
{
    for _ in 0..TRIES {
        match writer.write(piece) {
            Ok(0) if !piece.is_empty() => return None,
            Ok(n) => return if flush(writer) { Some(n) } else { None },
            Err(error) if error.kind() == ErrorKind::Interrupted => {}
            Err(_) => return None,
        }
    }
    None
}

fn flush<W: Write>(writer: &mut W) -> bool
    ensures { Keeps (W.contents writer.old) (W.contents writer.new) }
{
    for _ in 0..TRIES {
        match writer.flush() {
            Ok(()) => return true,
            Err(error) if error.kind() == ErrorKind::Interrupted => {}
            Err(_) => return false,
        }
    }
    false
}
