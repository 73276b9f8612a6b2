// What takes bytes: the trait of a sink, and writing the whole of a piece.
ghost use Rattle.std.specs.Prelude.{◌≡◌, ℕ, ◌<◌, ◌≤◌, List, Option, length, take, IfOk, OnOk, OnErr};
ghost use Rattle.hg_base.specs.Fault.{HasCause};
ghost use Rattle.hg_stream.specs.Stream.{Grown, GrownByFront};

use hg_base::Failed;

/// What bytes are written to.
pub trait Sink {
    // The bytes that were put so far, where they are told.
    ghost bytes: { Self → Option (List ℕ) };

    // How many calls failed.
    ghost faults: { Self → ℕ };

    /// Takes a front of the piece and answers its length in bytes: at least one byte, unless the piece is empty.
    fn put(&mut self, piece: &[u8]) -> Result<usize, Failed>
        ensures most { IfOk result (λ n. n ≤ length piece.now) }
        ensures least { IfOk result (λ n. 0 < length piece.now → 0 < n) }
        ensures grown { IfOk result (λ n. Grown (bytes self.old) (bytes self.new) (take n piece.now)) }
        ensures err { OnErr result (bytes self.new ≡ bytes self.old) }
        ensures cause { HasCause (faults self.old) (faults self.new) result (λ e. Unit {0}) };
}

/// Writes the whole of a piece, in as many calls as the sink asks for. Where one fails, what it took before stays written.
#[tactic(auto, using(crate::proofs::Grown::nothing_put, crate::proofs::Grown::all_put))]
pub fn put_all<O: Sink>(out: &mut O, piece: &[u8]) -> Result<(), Failed>
    ensures all { OnOk result (Grown (O.bytes out.old) (O.bytes out.new) piece.now) }
    ensures prefix { OnErr result (GrownByFront (O.bytes out.old) (O.bytes out.new) piece.now) }
    ensures cause { HasCause (O.faults out.old) (O.faults out.new) result (λ e. Unit {0}) }
{
    let mut rest = piece;
    while !rest.is_empty() {
        let n = out.put(rest)?;
        rest = rest.split_at(n).1;
    }
    Ok(())
}
