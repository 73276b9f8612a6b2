//! Requests that are served over streams in memory, by a runner that prints its words.
ghost use Rattle.std.specs.Prelude.{◌<◌, IfOk};

use hg_base::{OutOfMemory, Words};
use hg_case_tests::{Play, agree, bytes, number, print, word};
use hg_server::{Runner, ServeFault, serve};
use hg_stream::{MemSink, MemSource, put_all};
use std::alloc::Global;
use std::string::String;
use std::test::Fail;

// Prints its words, each in brackets. The word `told` is told on the error stream, `long` is a text of 65,537 bytes, and behind `lack` there is no memory. Its
// status is how many commands it ran before.
#[derive(Drop)]
struct Printer {
    ran: u8,
}

impl Runner for Printer {
    ghost step = { λ before words out err status after. Unit {0} };

    fn run(
        &mut self,
        alloc: Global,
        words: &Words,
        out: &mut MemSink,
        err: &mut MemSink,
    ) -> Result<u8, OutOfMemory> {
        for i in 0..words.len() {
            say(alloc, words.at(i).as_str(), out, err)?;
        }
        let status = self.ran;
        self.ran = self.ran.saturating_add(1);
        Ok(status)
    }
}

fn say(alloc: Global, word: &str, out: &mut MemSink, err: &mut MemSink) -> Result<(), OutOfMemory> {
    match word {
        "told" => put(err, b"told\n"),
        "long" => put(out, long(alloc, 65_537)?.as_slice()),
        "lack" => Err(OutOfMemory),
        _ => put(out, format!(in alloc; "<{word}>")?.as_bytes()),
    }
}

fn put(out: &mut MemSink, bytes: &[u8]) -> Result<(), OutOfMemory> {
    match put_all(out, bytes) {
        Ok(()) => Ok(()),
        Err(_) => Err(OutOfMemory),
    }
}

fn long(alloc: Global, size: usize) -> Result<Vec<u8>, OutOfMemory> {
    Ok(vec![in alloc; b'.'; size]?)
}

// How many bytes a take gives at most and the take that fails, the same of the puts, and what the input is: the answer, and the messages behind the hello.
struct Serves;

impl Play for Serves {
    fn play(alloc: Global, steps: &str, answer: &mut String) -> Result<(), Fail> {
        let mut out = MemSink::new(alloc, most(steps, 2)?);
        let served = play(alloc, steps, &mut out)?;
        write!(answer, "{served:?}")?;
        print_messages(out.bytes(), answer)
    }
}

// The same, with the bytes that were put as they are.
struct Bytes;

impl Play for Bytes {
    fn play(alloc: Global, steps: &str, answer: &mut String) -> Result<(), Fail> {
        let mut out = MemSink::new(alloc, most(steps, 2)?);
        let served = play(alloc, steps, &mut out)?;
        write!(answer, "{served:?} ")?;
        print(answer, out.bytes())
    }
}

fn play(alloc: Global, steps: &str, out: &mut MemSink) -> Result<Result<u64, ServeFault>, Fail> {
    let bytes = bytes(alloc, word(steps, 4))?;
    let mut input = MemSource::new(alloc, bytes.as_slice(), most(steps, 0)?)?;
    input.fail_at(number(steps, 1)?)?;
    out.fail_at(number(steps, 3)?)?;
    Ok(serve(alloc, &mut input, out, &mut Printer { ran: 0 }))
}

// How much a call moves at most.
fn most(step: &str, at: usize) -> Result<usize, Fail>
    ensures { IfOk result (λ most. 0 < most) }
{
    let most = usize::try_from(number(step, at)?)?;
    if most == 0 {
        return Err(Fail::new("nothing is moved"));
    }
    Ok(most)
}

// Each message behind the first, with its length, and its bytes where they are few.
fn print_messages(bytes: &[u8], answer: &mut String) -> Result<(), Fail> {
    let mut rest = bytes.split_at(bytes.len().min(45)).1;
    for _ in 0..9 {
        rest = print_message(rest, answer)?;
    }
    Ok(())
}

fn print_message<'a>(bytes: &'a [u8], answer: &mut String) -> Result<&'a [u8], Fail> {
    let [channel, first, second, third, last, rest @ ..] = bytes else {
        print(answer, bytes)?;
        return Ok(&[]);
    };
    let len = u32::from_be_bytes([*first, *second, *third, *last]);
    let (text, behind) = rest.split_at(rest.len().min(len as usize));
    write!(answer, " ")?;
    print(answer, &[*channel])?;
    write!(answer, "{len}:")?;
    if text.len() < 40 {
        print(answer, text)?;
    }
    Ok(behind)
}

const BYTES: &str = r"
99 99 99 99 \e => Ok(0) o\0\0\0(capabilities: runcommand\nencoding: UTF-8
";

#[test]
fn says_what_it_can(rt: HostRuntime) -> Result<(), Fail> {
    agree::<Bytes>(rt.alloc(), "", BYTES)
}

const SERVES: &str = r"
99 99 99 99 runcommand\n\0\0\0\x06status => Ok(1) o8:<status> r4:\0\0\0\0
1 99 99 99 runcommand\n\0\0\0\x06status => Ok(1) o8:<status> r4:\0\0\0\0
99 99 1 99 runcommand\n\0\0\0\x06status => Ok(1) o8:<status> r4:\0\0\0\0
99 99 99 99 runcommand\n\0\0\0\x0aadd\0nofile => Ok(1) o13:<add><nofile> r4:\0\0\0\0
99 99 99 99 runcommand\n\0\0\0\x0cadd\0\0nofile\0 => Ok(1) o17:<add><><nofile><> r4:\0\0\0\0
99 99 99 99 runcommand\n\0\0\0\0 => Ok(1) r4:\0\0\0\0
99 99 99 99 runcommand\n\0\0\0\x06told\0a => Ok(1) o3:<a> e5:told\n r4:\0\0\0\0
99 99 99 99 runcommand\n\0\0\0\x01aruncommand\n\0\0\0\x01b => Ok(2) o3:<a> r4:\0\0\0\0 o3:<b> r4:\0\0\0\x01
99 99 99999 99 runcommand\n\0\0\0\x04long => Ok(1) o65536: o1:. r4:\0\0\0\0
99 99 99 99 runcommand\n\0\0\0\x01aruncommand\n\0\0\0\x04lack => Err(OutOfMemory) o3:<a> r4:\0\0\0\0
99 99 99 99 runx => Err(ServerCommand { n: 1 })
99 1 99 99 runx => Err(ServerCommand { n: 1 })
99 99 99 99 runcommand\n\0\0\0\x01arunx => Err(ServerCommand { n: 2 }) o3:<a> r4:\0\0\0\0
99 99 99 99 run => Err(ServerShort { n: 1 })
99 99 99 99 runcommand\n\0\0\0 => Err(ServerShort { n: 1 })
99 99 99 99 runcommand\n\0\0\0\x02a => Err(ServerShort { n: 1 })
99 99 99 99 runcommand\n\0\x10\0\0a => Err(ServerShort { n: 1 })
99 99 99 99 runcommand\n\0\x10\0\x01 => Err(ServerTooLarge { n: 1, size: 1048577 })
99 99 99 99 runcommand\n\xff\xff\xff\xffa => Err(ServerTooLarge { n: 1, size: 4294967295 })
99 99 99 99 runcommand\n\0\0\0\x02a\xff => Err(ServerText { n: 1 })
99 0 99 99 runcommand\n\0\0\0\x01a => Err(InFailed)
99 1 99 99 runcommand\n\0\0\0\x01a => Err(InFailed)
99 2 99 99 runcommand\n\0\0\0\x01a => Err(InFailed) o3:<a> r4:\0\0\0\0
99 99 99 1 runcommand\n\0\0\0\x01a => Err(OutFailed)
99 99 99 3 runcommand\n\0\0\0\x01aruncommand\n\0\0\0\x01b => Err(OutFailed) o3:
99 99 99 5 runcommand\n\0\0\0\x01aruncommand\n\0\0\0\x01b => Err(OutFailed) o3:<a> r4:
";

#[test]
fn serves_request_by_request(rt: HostRuntime) -> Result<(), Fail> {
    agree::<Serves>(rt.alloc(), "", SERVES)
}
