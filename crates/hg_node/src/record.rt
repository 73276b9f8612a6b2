//! One record of 44 bytes.

ghost use Rattle.std.specs.Prelude.{◌≡◌, ◌+◌, ◌≤◌, ◌++◌, take, length, nat_le};
ghost use Rattle.std.specs.Int.{w16, w32};
ghost use Rattle.hg_node.specs.Node.{number_at, rec_of, bytes_of, texts_of, facts_of, AreTextsSized, AreFactsSized};

use hg_base::put;

/// A node as it lies in the data file (internals.dirstate-v2, "The data file format"), with the place where it stands.
#[derive(Clone, Copy, Debug, PartialEq, Eq)]
pub struct Rec {
    /// Where the record stands, in bytes of the data file; it is not among the 44 bytes.
    pub place: u32,
    /// Where the full path begins.
    pub path_start: u32,
    /// The length of the full path, in bytes.
    pub path_len: u16,
    /// Where the last component begins, counted from the full path's start.
    pub base_at: u16,
    /// Where the copy source begins, 0 for none.
    pub copy_start: u32,
    /// The length of the copy source, in bytes.
    pub copy_len: u16,
    /// Where the records of the child nodes begin.
    pub kids_start: u32,
    /// How many child nodes there are.
    pub kids_count: u32,
    /// How many nodes below this one have an entry.
    pub entries_below: u32,
    /// How many of these are tracked.
    pub tracked_below: u32,
    /// The flags of the entry, or of the cached directory.
    pub flags: u16,
    /// The recorded size of the file, in bytes, of which the low 31 bits are kept.
    pub size: u32,
    /// The recorded modification time, in seconds since 1970-01-01 UTC.
    pub seconds: u32,
    /// Its nanoseconds.
    pub nanos: u32,
}

impl Rec {
    /// What 44 bytes say, with a `place` of 0.
    pub fn read(bytes: &[u8; 44]) -> Rec
        ensures fields { result ≡ rec_of bytes.now }
        // Written again, they are the same bytes.
        ensures back { bytes_of result ≡ bytes.now }
    {
        Rec::fields(bytes)
    }

    // Each field at its place.
    fn fields(bytes: &[u8; 44]) -> Rec
        ensures { result ≡ rec_of bytes.now }
    {
        Rec {
            place: 0,
            path_start: u32_at(bytes, 0),
            path_len: u16_at(bytes, 4),
            base_at: u16_at(bytes, 6),
            copy_start: u32_at(bytes, 8),
            copy_len: u16_at(bytes, 12),
            kids_start: u32_at(bytes, 14),
            kids_count: u32_at(bytes, 18),
            entries_below: u32_at(bytes, 22),
            tracked_below: u32_at(bytes, 26),
            flags: u16_at(bytes, 30),
            size: u32_at(bytes, 32),
            seconds: u32_at(bytes, 36),
            nanos: u32_at(bytes, 40),
        }
    }

    /// The 44 bytes of the record; its place is not among them.
    pub fn write(&self) -> [u8; 44]
        ensures bytes { result ≡ bytes_of self.now }
        // Read again, they are the same record, but for its place.
        ensures back { rec_of result ≡ record self.now { place = 0 } }
    {
        let mut bytes = [0; 44];
        let at = self.put_texts(&mut bytes);
        self.put_facts(&mut bytes, at);
        bytes
    }

    // Writes the first half, where the texts and the child nodes stand, and answers where it ends.
    fn put_texts(&self, bytes: &mut [u8]) -> usize
        requires { 44 ≤ length bytes.old }
        ensures end { result ≡ 22 }
        ensures front { take result bytes.new ≡ texts_of self.now }
        ensures sized { AreTextsSized self.now }
    {
        let at = put(bytes, 0, &self.path_start.to_be_bytes());
        let at = put(bytes, at, &self.path_len.to_be_bytes());
        let at = put(bytes, at, &self.base_at.to_be_bytes());
        let at = put(bytes, at, &self.copy_start.to_be_bytes());
        let at = put(bytes, at, &self.copy_len.to_be_bytes());
        let at = put(bytes, at, &self.kids_start.to_be_bytes());
        put(bytes, at, &self.kids_count.to_be_bytes())
    }

    // Writes the second half, what is below the node and what is recorded of it, and answers where it ends.
    fn put_facts(&self, bytes: &mut [u8], at: usize) -> usize
        requires { at + 22 ≤ length bytes.old }
        ensures end { result ≡ at + 22 }
        ensures front { take result bytes.new ≡ take at bytes.old ++ facts_of self.now }
        ensures sized { AreFactsSized self.now }
    {
        let at = put(bytes, at, &self.entries_below.to_be_bytes());
        let at = put(bytes, at, &self.tracked_below.to_be_bytes());
        let at = put(bytes, at, &self.flags.to_be_bytes());
        let at = put(bytes, at, &self.size.to_be_bytes());
        let at = put(bytes, at, &self.seconds.to_be_bytes());
        put(bytes, at, &self.nanos.to_be_bytes())
    }
}

/// Whether so many bytes from a place on lie in the used bytes of a data file.
pub fn within(start: u32, len: u64, used: u32) -> bool
    ensures { result ≡ nat_le (start + len) used }
{
    match (start as u64).checked_add(len) {
        Some(end) => end <= used as u64,
        None => false,
    }
}

// The 16-bit number that stands at a place.
fn u16_at(bytes: &[u8], at: usize) -> u16
    requires { at + 2 ≤ length bytes.now }
    ensures { result ≡ number_at w16 at bytes.now }
{
    u16::from_be_bytes([bytes[at], bytes[at + 1]])
}

// The 32-bit number that stands at a place.
fn u32_at(bytes: &[u8], at: usize) -> u32
    requires { at + 4 ≤ length bytes.now }
    ensures { result ≡ number_at w32 at bytes.now }
{
    u32::from_be_bytes([bytes[at], bytes[at + 1], bytes[at + 2], bytes[at + 3]])
}
