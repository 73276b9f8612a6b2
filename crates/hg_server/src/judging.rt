//! Judging what was taken of a request.

ghost use Rattle.std.specs.Prelude.{◌≡◌, ◌≤◌, ◌==◌, ◌&&◌, nat_lt, not, length, drop, take};
ghost use Rattle.std.specs.Int.{w32, to_be_bytes};
ghost use Rattle.hg_server.specs.Requests.{agrees, room, size_in};
ghost use Rattle.hg_server.specs.Steps.{Lacks};

use crate::fault::ServeFault;

/// How many bytes stand before the words of a request: the line and their number.
pub(crate) const HEAD: usize = 15;

/// What a request begins with.
const LINE: [u8; 11] = *b"runcommand\n";

/// How many bytes the words of a request may have.
const MOST: u32 = 1_048_576;

/// How many requests are answered.
const LIMIT: u64 = 4_294_967_296;

// Whether bytes are behind the last request that is answered.
fn is_past(n: u64, part: &[u8]) -> bool
    ensures { result ≡ (nat_lt 4294967296 n && not (length part.now == 0)) }
{
    (n > LIMIT) & !part.is_empty()
}

// Whether the bytes agree with the line that a request begins with, as far as both go.
fn is_begun(part: &[u8]) -> bool
    ensures { result ≡ agrees part.now }
{
    let n = part.len().min(LINE.len());
    part.split_at(n).0 == LINE.split_at(n).0
}

// How many bytes a request says that its words have.
fn size_of(part: &[u8]) -> u32
    requires { 15 ≤ length part.now }
    ensures size { result ≡ size_in part.now }
    ensures bytes { to_be_bytes w32 result ≡ take 4 (drop 11 part.now) }
{
    u32::from_be_bytes([part[11], part[12], part[13], part[14]])
}

/// How many bytes request number n still lacks of which these were taken, or at least how many of its head: none where all are there.
pub(crate) fn missing(n: u64, part: &[u8]) -> Result<usize, ServeFault>
    requires { length part.now ≤ room part.now }
    ensures { Lacks n part.now result }
{
    if is_past(n, part) {
        return Err(ServeFault::ServerLimit);
    }
    if !is_begun(part) {
        return Err(ServeFault::ServerCommand { n });
    }
    if part.len() < HEAD {
        return Ok(HEAD - part.len());
    }
    let size = size_of(part);
    if size > MOST {
        return Err(ServeFault::ServerTooLarge { n, size });
    }
    Ok(HEAD + size as usize - part.len())
}
