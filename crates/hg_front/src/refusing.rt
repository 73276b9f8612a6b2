//! The two lines of a command that is refused before it begins: why, and what to do.

ghost use Rattle.std.specs.Prelude.{◌≡◌, OnErr, OnOk};
ghost use Rattle.hg_base.specs.Fault.{HasCause};
ghost use Rattle.hg_front.specs.Refusing as refusals;
ghost use Rattle.hg_front.specs.Refusing.{TellsRefusal, refusal_lines};
ghost use Rattle.hg_stream.specs.Stream.{Grown, GrownByFront};

use crate::advice::CONVERT;
use crate::further::put;
use crate::guarding::{Refused, Why};
use crate::pieces::{put_name, put_pieces};
use hg_base::Failed;
use hg_stream::{MemSink, Sink};
use std::alloc::Global;

fn front(why: Why) -> &'static str
    ensures { result.now ≡ refusals.front why }
{
    match why {
        Why::NoRepository => "no repository here or above",
        Why::Unsupported | Why::Unknown | Why::Writers => "repository requires ",
        Why::OldDirstate => ".hg/requires doesn't name ",
        Why::LineBreak => "line feed or carriage return in ",
    }
}

fn behind(why: Why) -> &'static str
    ensures { result.now ≡ refusals.behind why }
{
    match why {
        Why::Unsupported => ", which is not supported",
        Why::Unknown => ", which is not known",
        Why::Writers => ", which is not supported in commands that change something",
        Why::NoRepository | Why::OldDirstate | Why::LineBreak => "",
    }
}

// What to do.
fn next(why: Why) -> &'static str
    ensures { result.now ≡ refusals.next why }
{
    match why {
        Why::NoRepository =>
            "hg init --config format.use-dirstate-v2=yes makes one; a folder .hg alone serves hgtrack, and not hg",
        Why::Unsupported => "hg itself answers here",
        Why::Unknown => "hg itself answers here, where it knows it",
        Why::Writers => "hg itself does that here; status and debugdirstate are answered",
        Why::OldDirstate => CONVERT,
        Why::LineBreak => "the manifests of Mercurial can't hold such a name: rename the file",
    }
}

// Puts the two lines.
fn put_refusal<O: Sink>(out: &mut O, refused: Refused<'_>) -> Result<(), Failed>
    ensures all { OnOk result (Grown (O.bytes out.old) (O.bytes out.new) (refusal_lines (refused.entry.why, refused.entry.what.now))) }
    ensures prefix { OnErr result (GrownByFront (O.bytes out.old) (O.bytes out.new) (refusal_lines (refused.entry.why, refused.entry.what.now))) }
    ensures cause { HasCause (O.faults out.old) (O.faults out.new) result (λ e. Unit {0}) }
{
    put_pieces(out, &["abort: ", front(refused.why)])?;
    put_name(out, refused.what)?;
    put_pieces(
        out,
        &[behind(refused.why), "\nhgtrack: ", next(refused.why), "\n"],
    )
}

// Puts them to the error stream in pieces, which takes no memory; that it failed isn't told anywhere.
fn refuse_in_pieces<E: Sink>(err: &mut E, refused: Refused<'_>)
    ensures { TellsRefusal (E.bytes err.old) (E.bytes err.new) (E.faults err.old) (E.faults err.new) (refused.entry.why, refused.entry.what.now) }
{
    match put_refusal(err, refused) {
        Ok(()) => {}
        Err(_) => {}
    }
}

/// Tells why a command is refused, and what it ends with.
pub(crate) fn refuse<E: Sink>(alloc: Global, err: &mut E, refused: Refused<'_>) -> u8
    ensures status { result ≡ 255 }
    ensures told { TellsRefusal (E.bytes err.old) (E.bytes err.new) (E.faults err.old) (E.faults err.new) (refused.entry.why, refused.entry.what.now) }
{
    let mut lines = MemSink::new(alloc, usize::MAX);
    match put_refusal(&mut lines, refused) {
        Ok(()) => put(err, lines.bytes()),
        Err(_) => refuse_in_pieces(err, refused),
    }
    255
}
