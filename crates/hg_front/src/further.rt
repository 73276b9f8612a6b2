//! Lines on the error stream beside those of a command: of a fault that is met before it begins, why it failed, or what to do.

ghost use Rattle.std.specs.Prelude.{◌≡◌, IfOk, string_bytes};
ghost use Rattle.std.specs.Option.{option_map};
ghost use Rattle.hg_front.specs.Further.{ArePut, Says, SaysAny, TellsFault, TellsMet, further_line};
ghost use Rattle.hg_report.specs.Fault.{line_of};
ghost use Rattle.hg_report.specs.declared.fault.Fault.TheVariants as a_fault;

use crate::pieces::put_pieces;
use hg_report::{Fault, fault_text};
use hg_stream::{Sink, put_all};
use std::alloc::{AllocError, Global};

// The line that is printed where there is no memory for that of a fault.
const NO_MEMORY: &[u8] = b"abort: out of memory\n";

fn line_of_text(alloc: Global, text: &str) -> Result<String, AllocError>
    ensures { IfOk result (λ line. string_bytes line ≡ further_line text.now) }
{
    let mut line = String::from_str(alloc, "hgtrack: ")?;
    line.push_str(text)?;
    line.push('\n')?;
    Ok(line)
}

/// Puts lines, or a front of them where the stream fails, which isn't told anywhere.
pub(crate) fn put<E: Sink>(err: &mut E, lines: &[u8])
    ensures { ArePut (E.bytes err.old) (E.bytes err.new) (E.faults err.old) (E.faults err.new) lines.now }
{
    match put_all(err, lines) {
        Ok(()) => {}
        Err(_) => {}
    }
}

// Prints a further line in pieces, which takes no memory.
fn say_in_pieces<E: Sink>(err: &mut E, text: &str)
    ensures { Says (E.bytes err.old) (E.bytes err.new) (E.faults err.old) (E.faults err.new) text.now }
{
    match put_pieces(err, &["hgtrack: ", text, "\n"]) {
        Ok(()) => {}
        Err(_) => {}
    }
}

/// Prints a further line. That it can't be printed isn't told anywhere.
pub(crate) fn say<E: Sink>(alloc: Global, err: &mut E, text: &str)
    ensures { Says (E.bytes err.old) (E.bytes err.new) (E.faults err.old) (E.faults err.new) text.now }
{
    match line_of_text(alloc, text) {
        Ok(line) => put(err, line.as_bytes()),
        Err(_) => say_in_pieces(err, text),
    }
}

/// Prints the line of a fault, or that there is no memory for it.
pub(crate) fn tell<E: Sink>(alloc: Global, err: &mut E, fault: &Fault)
    ensures { TellsMet (E.bytes err.old) (E.bytes err.new) (E.faults err.old) (E.faults err.new) fault.now }
{
    match fault_text(alloc, fault) {
        Ok(line) => put(err, line.as_slice()),
        Err(_) => put(err, NO_MEMORY),
    }
}

/// Ends a command for which there was no memory before it began.
pub(crate) fn without_memory<E: Sink>(err: &mut E) -> u8
    ensures status { result ≡ 255 }
    ensures told { ArePut (E.bytes err.old) (E.bytes err.new) (E.faults err.old) (E.faults err.new) (line_of a_fault.OutOfMemory) }
{
    put(err, NO_MEMORY);
    255
}

/// Ends a command with a fault that it met before it began, with a further line that says why.
pub(crate) fn failed_because<E: Sink>(alloc: Global, fault: Fault, err: &mut E, reason: &str) -> u8
    ensures status { result ≡ 255 }
    ensures told { TellsFault (E.bytes err.old) (E.bytes err.new) (E.faults err.old) (E.faults err.new) fault reason.now }
{
    tell(alloc, err, &fault);
    say(alloc, err, reason);
    255
}

/// Prints a further line, where there is a text for it.
pub(crate) fn explain<E: Sink>(alloc: Global, err: &mut E, text: Option<&str>)
    ensures { SaysAny (E.bytes err.old) (E.bytes err.new) (E.faults err.old) (E.faults err.new) (option_map (λ t. t.now) text.entry) }
{
    match text {
        Some(text) => say(alloc, err, text),
        None => {}
    }
}
