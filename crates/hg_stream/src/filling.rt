//! Filling a buffer from std's reader.

ghost use Rattle.std.specs.Prelude.{◌≤◌, length, IfOk};

use std::io::{Error, ErrorKind, Read};

// How often a read that a signal interrupted is made again before it counts as a failure.
const TRIES: u32 = 1000;

/// Reads until the buffer is full or what is read ends, and answers how many bytes that were. A read that a signal interrupts is tried
/// again, 1,000 times.
pub fn fill<R: Read>(from: &mut R, buf: &mut [u8]) -> Result<usize, Error>
    ensures { IfOk result (λ n. n ≤ length buf.old) }
{
    let mut filled = 0;
    while filled < buf.len() {
        let n = read_some(from, &mut buf[filled..])?;
        if n == 0 {
            return Ok(filled);
        }
        filled += n;
    }
    Ok(filled)
}

// Reads once more where a signal interrupted the read.
fn read_some<R: Read>(from: &mut R, buf: &mut [u8]) -> Result<usize, Error>
    ensures { IfOk result (λ n. n ≤ length buf.old) }
{
    for _ in 0..TRIES {
        match from.read(buf) {
            Ok(n) => return Ok(n),
            Err(error) if error.kind() == ErrorKind::Interrupted => {}
            Err(error) => return Err(error),
        }
    }
    Err(Error::from(ErrorKind::Interrupted))
}
