//! Bytes that are written into a buffer: one part behind another, or what lies past a place.

ghost use Rattle.std.specs.Prelude.{◌≡◌, ◌+◌, ◌≤◌, ◌++◌, take, drop, min, length};
ghost use Rattle.hg_base.specs.Reads.{ReadsPast};

/// Writes the text at a place, and answers where it ends.
pub fn put(bytes: &mut [u8], at: usize, text: &[u8]) -> usize
    requires { at + length text.now ≤ length bytes.old }
    ensures end { result ≡ at + length text.now }
    ensures front { take result bytes.new ≡ take at bytes.old ++ text.now }
{
    let end = at + text.len();
    bytes[at..end].copy_from_slice(text);
    end
}

/// Fills the front of a buffer with what lies past a place of some bytes, as far as there is room, and answers how many bytes that were.
pub fn read_past(bytes: &[u8], place: u64, buf: &mut [u8]) -> usize
    ensures { ReadsPast bytes.now place buf.old buf.new result }
{
    fill(past(bytes, place), buf)
}

// What lies past a place of some bytes.
fn past(bytes: &[u8], place: u64) -> &[u8]
    ensures { result.now ≡ drop place bytes.now }
{
    match usize::try_from(place) {
        Ok(place) if place <= bytes.len() => bytes.split_at(place).1,
        _ => &[],
    }
}

// Fills the front of a buffer, and answers how many bytes that were.
fn fill(bytes: &[u8], buf: &mut [u8]) -> usize
    ensures count { result ≡ min (length buf.old) (length bytes.now) }
    ensures filled { buf.new ≡ take result bytes.now ++ drop result buf.old }
{
    let n = bytes.len().min(buf.len());
    buf[..n].copy_from_slice(bytes.split_at(n).0);
    n
}
