// What gives bytes: the trait of a source.
ghost use Rattle.std.specs.Prelude.{◌≡◌, ℕ, ◌<◌, ◌≤◌, ◌↔◌, List, [], Option, length, IfOk, IfSome, OnOk, OnErr};
ghost use Rattle.hg_base.specs.Fault.{HasCause};
ghost use Rattle.hg_stream.specs.Stream.{Taken};

use hg_base::Failed;

/// What bytes are read from.
pub trait Source {
    // The bytes that are left, where they are told.
    ghost left: { Self → Option (List ℕ) };

    // How many calls failed.
    ghost faults: { Self → ℕ };

    /// Puts the next bytes at the front of the buffer and answers how many. For a buffer that isn't empty 0 means the end of input.
    fn take(&mut self, buf: &mut [u8]) -> Result<usize, Failed>
        ensures most { IfOk result (λ n. n ≤ length buf.old) }
        ensures taken { IfOk result (λ n. Taken (left self.old) (left self.new) buf.old buf.new n) }
        ensures end { IfOk result (λ n. 0 < length buf.old → IfSome (left self.old) (λ bytes. n ≡ 0 ↔ bytes ≡ [])) }
        ensures err { OnErr result (left self.new ≡ left self.old) }
        ensures cause { HasCause (faults self.old) (faults self.new) result (λ e. Unit {0}) };
}
