//! Streams in memory, and what the outer ones make of the answers of std's.
use hg_case_tests::{Play, agree, bytes, number, print, word};
use hg_stream::{MemSink, MemSource, ReaderSource, Sink, Source, WriterSink, fill, put_all};
use std::alloc::Global;
use std::io::{self, Error, ErrorKind, Read, Write};
use std::string::String;
use std::test::Fail;

// How many bytes a call takes at most, the call that fails, and what is put.
struct Puts;

impl Play for Puts {
    fn play(alloc: Global, steps: &str, answer: &mut String) -> Result<(), Fail> {
        let bytes = bytes(alloc, word(steps, 2))?;
        let mut sink = MemSink::new(alloc, most(steps)?);
        sink.fail_at(number(steps, 1)?)?;
        let put = put_all(&mut sink, bytes.as_slice());
        write!(answer, "{put:?} ")?;
        print(answer, sink.bytes())
    }
}

ghost use Rattle.std.specs.Prelude.{◌<◌, IfOk};

// How much a call moves at most.
fn most(step: &str) -> Result<usize, Fail>
    ensures { IfOk result (λ most. 0 < most) }
{
    let most = usize::try_from(number(step, 0)?)?;
    if most == 0 {
        return Err(Fail::new("nothing is moved"));
    }
    Ok(most)
}

const PUTS: &str = r"
1 9 M\sa\n => Ok(()) M a\n
3 9 M\sa\n => Ok(()) M a\n
100 9 M\sa\n => Ok(()) M a\n
3 1 M\sa\n => Err(Failed) M a
100 0 M\sa\n => Err(Failed)
";

#[test]
fn puts_all_but_what_fails(rt: HostRuntime) -> Result<(), Fail> {
    agree::<Puts>(rt.alloc(), "", PUTS)
}

// How many bytes a call gives at most, the call that fails, what is given, and how often it is asked for; the answer and the buffer each time.
struct Takes;

impl Play for Takes {
    fn play(alloc: Global, steps: &str, answer: &mut String) -> Result<(), Fail> {
        let mut source = MemSource::new(alloc, word(steps, 2).as_bytes(), most(steps)?)?;
        source.fail_at(number(steps, 1)?)?;
        let mut buf = [b'.'; 5];
        for _ in 0..number(steps, 3)? {
            take(&mut source, &mut buf, answer)?;
        }
        Ok(())
    }
}

fn take<S: Source>(source: &mut S, buf: &mut [u8], answer: &mut String) -> Result<(), Fail> {
    let taken = source.take(buf);
    write!(answer, " {taken:?} ")?;
    print(answer, buf)
}

const TAKES: &str = r"
4 1 abcdef 1 => Ok(4) abcd.
4 1 abcdef 2 => Ok(4) abcd. Err(Failed) abcd.
4 1 abcdef 3 => Ok(4) abcd. Err(Failed) abcd. Ok(2) efcd.
4 1 abcdef 4 => Ok(4) abcd. Err(Failed) abcd. Ok(2) efcd. Ok(0) efcd.
";

#[test]
fn takes_to_the_end(rt: HostRuntime) -> Result<(), Fail> {
    agree::<Takes>(rt.alloc(), "", TAKES)
}

// A reader and a writer whose calls go as a text says, and then move nothing: by a digit they move so many bytes, by `i` they are interrupted, and by `x`
// they fail.
#[derive(Drop)]
struct Device<'a> {
    turns: &'a [u8],
    flushes: &'a [u8],
}

fn take_turn(turns: &mut &[u8]) -> io::Result<usize> {
    let Some((first, rest)) = turns.split_first() else {
        return Ok(0);
    };
    *turns = rest;
    match *first {
        b'i' => Err(Error::from(ErrorKind::Interrupted)),
        b'x' => Err(Error::from(ErrorKind::Other)),
        digit => Ok(usize::from(digit.saturating_sub(b'0'))),
    }
}

impl Read for Device<'_> {
    fn read(&mut self, buf: &mut [u8]) -> io::Result<usize> {
        Ok(take_turn(&mut self.turns)?.min(buf.len()))
    }
}

impl Write for Device<'_> {
    fn write(&mut self, buf: &[u8]) -> io::Result<usize> {
        Ok(take_turn(&mut self.turns)?.min(buf.len()))
    }

    fn flush(&mut self) -> io::Result<()> {
        take_turn(&mut self.flushes)?;
        Ok(())
    }
}

// How the calls of a device go, how its flushes go, and how often it is called.
struct Outer;

impl Play for Outer {
    fn play(_: Global, steps: &str, answer: &mut String) -> Result<(), Fail> {
        let device = Device {
            turns: word(steps, 1).as_bytes(),
            flushes: word(steps, 2).as_bytes(),
        };
        let times = number(steps, 3)?;
        match word(steps, 0) {
            "read" => read_often(device, times, answer),
            "write" => write_often(device, times, answer),
            _ => read_text(word(steps, 1), answer),
        }
    }
}

fn read_often(device: Device<'_>, times: u64, answer: &mut String) -> Result<(), Fail> {
    let mut source = ReaderSource::new(device);
    for _ in 0..times {
        read_once(&mut source, answer)?;
    }
    Ok(())
}

fn read_once<S: Source>(source: &mut S, answer: &mut String) -> Result<(), Fail> {
    let mut buf = [0; 4];
    let taken = source.take(&mut buf);
    write!(answer, " {taken:?}")?;
    Ok(())
}

fn write_often(device: Device<'_>, times: u64, answer: &mut String) -> Result<(), Fail> {
    let mut sink = WriterSink::new(device);
    for _ in 0..times {
        write_once(&mut sink, answer)?;
    }
    Ok(())
}

fn write_once<S: Sink>(sink: &mut S, answer: &mut String) -> Result<(), Fail> {
    let put = sink.put(b"abcd");
    write!(answer, " {put:?}")?;
    Ok(())
}

fn read_text(text: &str, answer: &mut String) -> Result<(), Fail> {
    let mut source = ReaderSource::new(text.as_bytes());
    let mut buf = [0; 4];
    take(&mut source, &mut buf, answer)
}

const OUTER: &str = r"
read 2ii9x1 - 5 => Ok(2) Ok(4) Err(Failed) Ok(1) Ok(0)
text abc - 0 => Ok(3) abc\0
write 2ii9x1 0i0x 5 => Ok(2) Ok(4) Err(Failed) Err(Failed) Err(Failed)
";

#[test]
fn reads_and_writes_through(rt: HostRuntime) -> Result<(), Fail> {
    agree::<Outer>(rt.alloc(), "", OUTER)
}

// Gives one byte at a call, and is interrupted before each.
#[derive(Drop)]
struct Slow<'a> {
    left: &'a [u8],
    ready: bool,
}

impl Read for Slow<'_> {
    fn read(&mut self, buf: &mut [u8]) -> io::Result<usize> {
        self.ready = !self.ready;
        if self.ready {
            return Err(Error::from(ErrorKind::Interrupted));
        }
        let mut one = self.left.split_at(self.left.len().min(1)).0;
        self.left = self.left.split_at(one.len()).1;
        one.read(buf)
    }
}

struct Fills;

impl Play for Fills {
    fn play(alloc: Global, steps: &str, answer: &mut String) -> Result<(), Fail> {
        let bytes = bytes(alloc, steps)?;
        let mut slow = Slow {
            left: bytes.as_slice(),
            ready: false,
        };
        let mut buf = [b'.'; 4];
        let filled = fill(&mut slow, &mut buf)?;
        write!(answer, "{filled} ")?;
        print(answer, &buf)
    }
}

const FILLS: &str = r"
\e => 0 ....
ab => 2 ab..
abcdef => 4 abcd
";

#[test]
fn reads_on_after_little(rt: HostRuntime) -> Result<(), Fail> {
    agree::<Fills>(rt.alloc(), "", FILLS)
}
