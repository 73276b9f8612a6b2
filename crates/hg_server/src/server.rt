//! Serving requests one after another.

ghost use Rattle.std.specs.Prelude.{◌≡◌};
ghost use Rattle.hg_server.specs.Failing.{FailsAs};
ghost use Rattle.hg_server.specs.Replies.{Responds};
ghost use Rattle.hg_server.specs.Serving.{Serves};
ghost use Rattle.hg_server.specs.declared.fault.ServeFault.TheVariants as a_fault;

use crate::fault::ServeFault;
use crate::messages::{put_answer, put_hello};
use crate::requests::next;
use crate::runner::Runner;
use hg_base::Words;
use hg_stream::{MemSink, Sink, Source};
use std::alloc::Global;

/// How many bytes a text of a command takes at once.
const PIECE: usize = 65_536;

// Runs the words of a request and answers it.
fn respond<O: Sink, R: Runner>(
    alloc: Global,
    words: &Words,
    out: &mut O,
    runner: &mut R,
) -> Result<(), ServeFault>
    ensures responds { Responds R.step words.now runner.old runner.new (O.bytes out.old) (O.bytes out.new) result }
    ensures cause { FailsAs (O.faults out.old) (O.faults out.new) result a_fault.OutFailed }
{
    let mut printed = MemSink::new(alloc, PIECE);
    let mut told = MemSink::new(alloc, PIECE);
    let status = runner.run(alloc, words, &mut printed, &mut told)?;
    match put_answer(out, printed.bytes(), told.bytes(), status) {
        Ok(()) => Ok(()),
        Err(_) => Err(ServeFault::OutFailed),
    }
}

/// Reads requests from the input and runs and answers each, until the input ends between two of them, and answers how many those were.
pub fn serve<I: Source, O: Sink, R: Runner>(
    alloc: Global,
    input: &mut I,
    out: &mut O,
    runner: &mut R,
) -> Result<u64, ServeFault>
    ensures serves { Serves R.step (I.left input.old) (I.left input.new) (O.bytes out.old) (O.bytes out.new) runner.old runner.new result }
    ensures input { FailsAs (I.faults input.old) (I.faults input.new) result a_fault.InFailed }
    ensures output { FailsAs (O.faults out.old) (O.faults out.new) result a_fault.OutFailed }
{
    if put_hello(out).is_err() {
        return Err(ServeFault::OutFailed);
    }
    let mut served = 0;
    loop {
        let Some(words) = next(alloc, served + 1, input)? else {
            return Ok(served);
        };
        respond(alloc, &words, out, runner)?;
        served += 1;
    }
}
