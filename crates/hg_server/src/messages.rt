//! Messages that are put into a sink.

ghost use Rattle.std.specs.Prelude.{◌≡◌, ◌<◌, ◌^◌, ◌∷◌, length, OnOk, OnErr};
ghost use Rattle.std.specs.Int.{w32, to_be_bytes};
ghost use Rattle.hg_base.specs.Fault.{HasCause};
ghost use Rattle.hg_stream.specs.Stream.{Grown, GrownByFront};
ghost use Rattle.hg_server.specs.Protocol.{answer, hello, message, messages};

use hg_base::Failed;
use hg_stream::{Sink, put_all};

/// What is said before any request.
const HELLO: [u8; 40] = *b"capabilities: runcommand\nencoding: UTF-8";

/// How many bytes a message has at most.
const PIECE: usize = 65_536;

// What stands before the bytes of a message.
fn head(channel: u8, len: u32) -> [u8; 5]
    ensures { result ≡ channel ∷ to_be_bytes w32 len }
{
    let [first, second, third, last] = len.to_be_bytes();
    [channel, first, second, third, last]
}

// Puts a message.
fn put_message<O: Sink>(out: &mut O, channel: u8, bytes: &[u8]) -> Result<(), Failed>
    requires { length bytes.now < 2 ^ 32 }
    ensures all { OnOk result (Grown (O.bytes out.old) (O.bytes out.new) (message channel bytes.now)) }
    ensures prefix { OnErr result (GrownByFront (O.bytes out.old) (O.bytes out.new) (message channel bytes.now)) }
    ensures cause { HasCause (O.faults out.old) (O.faults out.new) result (λ e. Unit {0}) }
{
    put_all(out, &head(channel, bytes.len() as u32))?;
    put_all(out, bytes)
}

// Puts a text in as many messages as it needs.
fn put_text<O: Sink>(out: &mut O, channel: u8, text: &[u8]) -> Result<(), Failed>
    ensures all { OnOk result (Grown (O.bytes out.old) (O.bytes out.new) (messages channel text.now)) }
    ensures prefix { OnErr result (GrownByFront (O.bytes out.old) (O.bytes out.new) (messages channel text.now)) }
    ensures cause { HasCause (O.faults out.old) (O.faults out.new) result (λ e. Unit {0}) }
{
    let mut rest = text;
    while !rest.is_empty() {
        let (piece, behind) = rest.split_at(rest.len().min(PIECE));
        put_message(out, channel, piece)?;
        rest = behind;
    }
    Ok(())
}

/// Puts the answer to a request.
pub(crate) fn put_answer<O: Sink>(
    out: &mut O,
    printed: &[u8],
    told: &[u8],
    status: u8,
) -> Result<(), Failed>
    ensures all { OnOk result (Grown (O.bytes out.old) (O.bytes out.new) (answer printed.now told.now status)) }
    ensures prefix { OnErr result (GrownByFront (O.bytes out.old) (O.bytes out.new) (answer printed.now told.now status)) }
    ensures cause { HasCause (O.faults out.old) (O.faults out.new) result (λ e. Unit {0}) }
{
    put_text(out, b'o', printed)?;
    put_text(out, b'e', told)?;
    put_message(out, b'r', &u32::from(status).to_be_bytes())
}

/// Puts what is said before any request.
pub(crate) fn put_hello<O: Sink>(out: &mut O) -> Result<(), Failed>
    ensures all { OnOk result (Grown (O.bytes out.old) (O.bytes out.new) hello) }
    ensures prefix { OnErr result (GrownByFront (O.bytes out.old) (O.bytes out.new) hello) }
    ensures cause { HasCause (O.faults out.old) (O.faults out.new) result (λ e. Unit {0}) }
{
    put_message(out, b'o', &HELLO)
}
