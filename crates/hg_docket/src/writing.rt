//! The docket as it is written.

ghost use Rattle.std.specs.Prelude.{◌≡◌, ◌≤◌, ◌++◌, take, length, List, ℕ, IsTrue, OnOk, OnErr};
ghost use Rattle.hg_docket.specs.Docket.{view};
ghost use Rattle.hg_docket.specs.Written.{is_writable, head_of, bytes_of, IsSized, ReadsAs};

use crate::docket::{Docket, MARKER};
use hg_base::{OutOfMemory, put};

impl Docket<'_> {
    /// Appends the docket's bytes. Out of memory, nothing is appended.
    pub fn write(&self, out: &mut Vec<u8>) -> Result<(), OutOfMemory>
        requires { IsTrue (is_writable (view self.now)) }
        ensures ok { OnOk result (out.new.items ≡ out.old.items ++ bytes_of (view self.now)) }
        ensures err { OnErr result (out.new.items ≡ out.old.items) }
        // What was written reads as the docket, whatever follows.
        ensures back { (rest : List ℕ) → ReadsAs (bytes_of (view self.now) ++ rest) (view self.now) }
    {
        let mut bytes = [0; 380];
        let at = self.put_head(&mut bytes);
        let at = put(&mut bytes, at, &[self.id.len() as u8]);
        let at = put(&mut bytes, at, self.id);
        out.extend_from_slice(bytes.split_at(at).0)?;
        Ok(())
    }

    // Writes all that stands before the identifier's length, and answers where it ends.
    #[tactic(auto, unfolding(crate::specs::Written::head_of))]
    fn put_head(&self, bytes: &mut [u8]) -> usize
        requires { 125 ≤ length bytes.old }
        ensures end { result ≡ 124 }
        ensures front { take result bytes.new ≡ head_of (view self.now) }
        ensures sized { IsSized (view self.now) }
    {
        let at = put(bytes, 0, &MARKER);
        let at = put(bytes, at, &self.p1.0);
        let at = put(bytes, at, &[0; 12]);
        let at = put(bytes, at, &self.p2.0);
        let at = put(bytes, at, &[0; 12]);
        let at = put(bytes, at, &self.root_start.to_be_bytes());
        let at = put(bytes, at, &self.root_count.to_be_bytes());
        let at = put(bytes, at, &self.entries.to_be_bytes());
        let at = put(bytes, at, &self.copies.to_be_bytes());
        let at = put(bytes, at, &self.unreachable.to_be_bytes());
        let at = put(bytes, at, &[0; 4]);
        let at = put(bytes, at, &self.hash);
        put(bytes, at, &self.used.to_be_bytes())
    }
}
