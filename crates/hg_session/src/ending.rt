//! How a command ends: its status, and the line of its fault.

ghost use Rattle.std.specs.Prelude.{◌≡◌, IfSome};
ghost use Rattle.hg_report.specs.Fault as faults_are;
ghost use Rattle.hg_session.specs.Put.{IsFaultOrMemory, IsTold, TellsLine};

use hg_report::{Fault, fault_text};
use hg_stream::{Sink, put_all};
use std::alloc::Global;

/// What a command ends with: 0 without a fault, 1 where a word was refused, 255 with a fault.
#[derive(Drop)]
pub struct Outcome {
    pub status: u8,
    pub fault: Option<Fault>,
}

// The line that is printed where there is no memory for a text.
const NO_MEMORY: &[u8] = b"abort: out of memory\n";

// Prints a line on the error stream; that the stream failed isn't told anywhere else.
fn tell<E: Sink>(err: &mut E, line: &[u8])
    ensures { IsTold (E.bytes err.old) (E.bytes err.new) (E.faults err.old) (E.faults err.new) line.now }
{
    match put_all(err, line) {
        Ok(()) => {}
        Err(_) => {}
    }
}

/// What a command ends with that met this fault, whose line is printed on the error stream.
pub fn failed<E: Sink>(alloc: Global, fault: Fault, err: &mut E) -> Outcome
    ensures status { result.status ≡ 255 }
    ensures fault { IsFaultOrMemory result.fault fault }
    ensures told { IfSome
        result.fault
        (λ f. TellsLine (E.bytes err.old) (E.bytes err.new) (E.faults err.old) (E.faults err.new) f) }
{
    match fault_text(alloc, &fault) {
        Ok(line) => {
            tell(err, line.as_slice());
            Outcome {
                status: 255,
                fault: Some(fault),
            }
        }
        Err(_) => {
            tell(err, NO_MEMORY);
            Outcome {
                status: 255,
                fault: Some(Fault::OutOfMemory),
            }
        }
    }
}

// Whether a fault is told on the error stream; that the stream itself failed isn't.
pub(crate) fn has_line(fault: &Fault) -> bool
    ensures { result ≡ faults_are.has_line fault.now }
{
    !matches!(fault, Fault::ErrFailed)
}
