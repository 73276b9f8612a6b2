//! Texts that are put to a sink piece by piece, so that none has to be in memory as a whole.

ghost use Rattle.std.specs.Prelude.{OnErr, OnOk};
ghost use Rattle.std.specs.List.{flat_map};
ghost use Rattle.hg_base.specs.Fault.{HasCause};
ghost use Rattle.hg_front.specs.Shown.{shown, shown_byte};
ghost use Rattle.hg_stream.specs.Stream.{Grown, GrownByFront};

use hg_base::Failed;
use hg_stream::{Sink, put_all};

/// Puts texts one behind another. Where the sink fails, a front of them was put.
pub(crate) fn put_pieces<O: Sink>(out: &mut O, pieces: &[&str]) -> Result<(), Failed>
    ensures all { OnOk result (Grown (O.bytes out.old) (O.bytes out.new) (flat_map (λ p. p.now) pieces.now)) }
    ensures prefix { OnErr result (GrownByFront (O.bytes out.old) (O.bytes out.new) (flat_map (λ p. p.now) pieces.now)) }
    ensures cause { HasCause (O.faults out.old) (O.faults out.new) result (λ e. Unit {0}) }
{
    for piece in pieces {
        put_all(out, piece.as_bytes())?;
    }
    Ok(())
}

/// Puts a byte of a name, which ends no line.
pub(crate) fn put_byte<O: Sink>(out: &mut O, byte: u8) -> Result<(), Failed>
    ensures all { OnOk result (Grown (O.bytes out.old) (O.bytes out.new) (shown_byte byte)) }
    ensures prefix { OnErr result (GrownByFront (O.bytes out.old) (O.bytes out.new) (shown_byte byte)) }
    ensures cause { HasCause (O.faults out.old) (O.faults out.new) result (λ e. Unit {0}) }
{
    match byte {
        b'\n' => put_all(out, b"\\x0a"),
        b'\r' => put_all(out, b"\\x0d"),
        _ => put_all(out, &[byte]),
    }
}

/// Puts a name, in which nothing ends the line.
pub(crate) fn put_name<O: Sink>(out: &mut O, name: &str) -> Result<(), Failed>
    ensures all { OnOk result (Grown (O.bytes out.old) (O.bytes out.new) (shown name.now)) }
    ensures prefix { OnErr result (GrownByFront (O.bytes out.old) (O.bytes out.new) (shown name.now)) }
    ensures cause { HasCause (O.faults out.old) (O.faults out.new) result (λ e. Unit {0}) }
{
    for byte in name.as_bytes() {
        put_byte(out, *byte)?;
    }
    Ok(())
}
