//! The first fault of a glob's parts.

ghost use Rattle.std.specs.Prelude.{ℕ, ◌≡◌, ◌+◌, ◌-◌, ◌≤◌, suc, length, Option, Some, None, chars, if◌then◌else◌, ◌==◌};
ghost use Rattle.hg_glob.specs.Refusal.{closers, unclosed, reversed_at, reversed, bytes_before, first_fault, closers_at, unclosed_at};

use crate::fault::GlobFault;
use crate::part::Part;

/// How many `}` stand for a `{` in front of the part.
fn closers_at(part: Part, closers: u32) -> u32
    requires { closers ≤ 4095 }
    ensures at { result ≡ closers_at part closers }
    ensures most { result ≤ closers + 1 }
{
    match part {
        Part::Open { at: _ } => closers.saturating_sub(1),
        Part::Close => closers + 1,
        _ => closers,
    }
}

/// The part's place where it is a `{` without its `}`, and else that of the first one behind it.
fn unclosed_at(part: Part, closers: u32, behind: Option<u32>) -> Option<u32>
    ensures { result ≡ unclosed_at part closers behind }
{
    match part {
        Part::Open { at } => if closers == 0 { Some(at) } else { behind },
        _ => behind,
    }
}

/// The place of the first `{` without its `}`.
fn unclosed(parts: &[Part]) -> Option<u32>
    requires { length parts.now ≤ 4095 }
    ensures { result ≡ unclosed parts.now }
{
    let mut spare = 0;
    let mut found = None;
    let mut k = parts.len();
    while k > 0 {
        k -= 1;
        found = unclosed_at(parts[k], spare, found);
        spare = closers_at(parts[k], spare);
    }
    found
}

fn reversed_at(part: Part) -> Option<u32>
    ensures { result ≡ reversed_at part }
{
    match part {
        Part::Range { at, low, high } => if high < low { Some(at) } else { None },
        _ => None,
    }
}

/// The place of the first range whose end stands before its beginning.
fn reversed(parts: &[Part]) -> Option<u32>
    ensures { result ≡ reversed parts.now }
{
    for part in parts {
        if let Some(at) = reversed_at(*part) {
            return Some(at);
        }
    }
    None
}

/// How many bytes stand before the place, which counts characters.
fn bytes_before(at: u32, text: &[char]) -> u32
    requires { length text.now ≤ 4095 }
    ensures { result ≡ bytes_before at text.now }
{
    let front = text.split_at((at as usize).min(text.len())).0;
    let mut bytes = 0;
    for c in front {
        bytes += c.len_utf8() as u32;
    }
    bytes
}

/// The fault at the least place.
fn first_fault(text: &[char], brace: Option<u32>, range: Option<u32>) -> Option<GlobFault>
    requires { length text.now ≤ 4095 }
    ensures { result ≡ first_fault text.now brace range }
{
    match (brace, range) {
        (None, None) => None,
        (Some(brace), None) => Some(GlobFault::Unbalanced {
            at: bytes_before(brace, text),
        }),
        (None, Some(range)) => Some(GlobFault::Range {
            at: bytes_before(range, text),
        }),
        (Some(brace), Some(range)) => if brace < range {
            Some(GlobFault::Unbalanced {
                at: bytes_before(brace, text),
            })
        } else {
            Some(GlobFault::Range {
                at: bytes_before(range, text),
            })
        },
    }
}

/// The first fault of a text's parts.
pub fn fault_of(text: &[char], parts: &[Part]) -> Option<GlobFault>
    requires text { length text.now ≤ 4095 }
    requires parts { length parts.now ≤ 4095 }
    ensures { result ≡ first_fault text.now (unclosed parts.now) (reversed parts.now) }
{
    first_fault(text, unclosed(parts), reversed(parts))
}
