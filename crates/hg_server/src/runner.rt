//! What runs the words of a request: the trait of a runner.

ghost use Rattle.std.specs.Prelude.{◌≡◌, ℕ, List, [], IfOk};
ghost use Rattle.hg_stream.specs.Memory.{fresh};

use hg_base::{OutOfMemory, Words};
use hg_stream::MemSink;
use std::alloc::Global;

/// What runs words.
pub trait Runner {
    // What a run may be: the runner before, the words, what was printed, what was told on the error stream, the status, and the runner behind it.
    ghost step: { Self → List (List ℕ) → List ℕ → List ℕ → ℕ → Self → Type 0 };

    /// Runs the words, puts what the command prints into `out` and what it tells on the error stream into `err`, and answers its status. Both sinks
    /// are new, and fail only where there is no memory, which is then the answer.
    fn run(
        &mut self,
        alloc: Global,
        words: &Words,
        out: &mut MemSink,
        err: &mut MemSink,
    ) -> Result<u8, OutOfMemory>
        requires out { out.old ≡ fresh [] out.old.most }
        requires err { err.old ≡ fresh [] err.old.most }
        ensures { IfOk result (λ status. step self.old words.now out.new.bytes err.new.bytes status self.new) };
}
