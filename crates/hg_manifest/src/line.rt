//! The line at the front of a text.

ghost use Rattle.std.specs.Prelude.{◌≡◌, ◌<◌, ◌≤◌, true, length, Some, None, take, drop, option_map, if◌then◌else◌, is_some};
ghost use Rattle.std.specs.List.{before_first, after_first, list_all};
ghost use Rattle.hex.specs.Hex.{is_hex_digit};
ghost use Rattle.hg_manifest.specs.Line.{after_end, ending, id_of, is_file_path, is_nul, line_of};
ghost use Rattle.hg_manifest.specs.Front.{IsFront, is_plain_byte, is_plain_from, is_plain_front, nul_place, rest_behind};

use hg_base::PathRef;
use memchr::memchr;

/// The path of a line, and what stands behind the line.
#[derive(Clone, Copy, Debug)]
pub(crate) struct Front<'a> {
    pub path: PathRef<'a>,
    pub rest: &'a [u8],
}

#[tactic(auto, using(crate::proofs::Digits::nul_first))]
fn nul_place(bytes: &[u8]) -> Option<usize>
    ensures { result ≡ nul_place bytes.now }
{
    memchr(0, bytes)
}

// What stands before the first NUL and behind it; where there is none, all and nothing.
#[tactic(auto, using(crate::proofs::Digits::nul_found, crate::proofs::Digits::nul_missing))]
fn cut_at_nul(bytes: &[u8]) -> (&[u8], &[u8])
    ensures before { result.0.now ≡ before_first is_nul bytes.now }
    ensures after { result.1.now ≡ after_first is_nul bytes.now }
{
    match nul_place(bytes) {
        Some(at) => (bytes.split_at(at).0, bytes.split_at(at + 1).1),
        None => (bytes, &[]),
    }
}

// Whether a plain path may begin with the bytes. (No branch depends on a byte.)
fn is_plain_front(bytes: &[u8]) -> bool
    ensures { result ≡ is_plain_front true bytes.now }
{
    let mut plain = true;
    let mut begins = true;
    for b in bytes {
        plain &= is_plain_byte(*b, begins);
        begins = *b == b'/';
    }
    plain
}

// The same of the first bytes of a window. (Where its length is known to the compiler, many bytes are tested at once.)
#[inline(always)]
fn is_plain_within(window: &[u8], len: u8) -> bool
    requires { length window.now < 256 }
    ensures { result ≡ is_plain_front true (take len window.now) }
{
    let mut plain = true;
    let mut begins = true;
    let mut at = 0;
    for b in window {
        plain &= (at >= len) | is_plain_byte(*b, begins);
        begins = *b == b'/';
        at += 1;
    }
    plain
}

// The same of what a text begins with, in a window of the text where it is short.
#[tactic(auto, using(crate::proofs::Plain::front_window))]
fn is_plain_start(text: &[u8], path: &[u8]) -> bool
    requires { take (length path.now) text.now ≡ path.now }
    ensures { result ≡ is_plain_front true path.now }
{
    let len = path.len();
    if len <= 32 && text.len() >= 32 {
        return is_plain_within(text.split_at(32).0, len as u8);
    }
    if len <= 64 && text.len() >= 64 {
        return is_plain_within(text.split_at(64).0, len as u8);
    }
    if len <= 128 && text.len() >= 128 {
        return is_plain_within(text.split_at(128).0, len as u8);
    }
    is_plain_front(path)
}

// Whether what a text begins with is ASCII without a NUL, and no component of it is empty or begins with a dot.
#[tactic(auto, using(crate::proofs::Plain::plain_end))]
fn is_plain(text: &[u8], path: &[u8]) -> bool
    requires { take (length path.now) text.now ≡ path.now }
    ensures { result ≡ is_plain_from true path.now }
{
    if path.is_empty() {
        return false;
    }
    is_plain_start(text, path) & (path[path.len() - 1] != b'/')
}

// Whether a plain path may have the byte there, where `begins` says that a component begins with it.
fn is_plain_byte(b: u8, begins: bool) -> bool
    ensures { result ≡ is_plain_byte begins b }
{
    (b >= 1) & (b < 128) & !(begins & ((b == b'/') | (b == b'.')))
}

// A path in UTF-8. (Within its caller it would have the room of its locals cleared for each line.)
#[tactic(auto, using(crate::proofs::Texts::utf8_true, crate::proofs::Texts::utf8_false, crate::proofs::Texts::path_false))]
#[inline(never)]
fn read_any(bytes: &[u8]) -> Option<PathRef<'_>>
    ensures { option_map (λ p. p.text.now) result ≡ (if is_file_path bytes.now then Some bytes.now else None) }
{
    match std::str::from_utf8(bytes) {
        Err(_) => None,
        Ok(text) => match PathRef::read(text) {
            Ok(path) => Some(path),
            Err(_) => None,
        },
    }
}

// The same of bytes that are known to be one.
#[tactic(auto, using(crate::proofs::Plain::plain_utf8, crate::proofs::Plain::plain_path))]
fn plain_path(bytes: &[u8]) -> PathRef<'_>
    requires plain { is_plain_from true bytes.now ≡ true }
    requires short { length bytes.now < 2048 }
    ensures { result.text.now ≡ bytes.now }
{
    PathRef {
        text: unsafe { std::str::from_utf8_unchecked(bytes) },
    }
}

// The same of what a text begins with, where most are plain and short, which needs no look at each component.
#[tactic(auto, using(crate::proofs::Plain::plain_file_path))]
fn read_path<'a>(text: &[u8], path: &'a [u8]) -> Option<PathRef<'a>>
    requires { take (length path.now) text.now ≡ path.now }
    ensures { option_map (λ p. p.text.now) result ≡ (if is_file_path path.entry.now then Some path.entry.now else None) }
{
    if path.len() < 2048 && is_plain(text, path) {
        Some(plain_path(path))
    } else {
        read_any(path)
    }
}

fn is_digit(b: u8) -> bool
    ensures { result ≡ is_hex_digit b }
{
    ((b >= b'0') & (b <= b'9')) | ((b >= b'a') & (b <= b'f')) | ((b >= b'A') & (b <= b'F'))
}

// Whether forty bytes are digits, sixteen at a time, of which the last sixteen begin with eight of those before. (No branch depends on a byte.)
fn all_digits(bytes: &[u8]) -> bool
    requires { length bytes.now ≡ 40 }
    ensures { result ≡ list_all is_hex_digit bytes.now }
{
    let mut all = true;
    for i in 0..16 {
        all &= is_digit(bytes[i]) & is_digit(bytes[i + 16]) & is_digit(bytes[i + 24]);
    }
    all
}

// Whether they spell an identifier.
#[tactic(auto, using(crate::proofs::Digits::other_length, crate::proofs::Digits::forty))]
fn are_digits(bytes: &[u8]) -> bool
    ensures { result ≡ is_some (id_of bytes.now) }
{
    if bytes.len() != 40 {
        return false;
    }
    all_digits(bytes)
}

// What stands behind an LF.
fn after_end(bytes: &[u8]) -> Option<&[u8]>
    ensures { option_map (λ rest. rest.now) result ≡ after_end bytes.now }
{
    if bytes.is_empty() {
        return None;
    }
    if bytes[0] != b'\n' {
        return None;
    }
    Some(bytes.split_at(1).1)
}

// What stands behind the flag and the end of a line.
fn after_flag(bytes: &[u8]) -> Option<&[u8]>
    ensures { option_map (λ rest. rest.now) result ≡ option_map (λ end. end.rest) (ending bytes.now) }
{
    if bytes.is_empty() {
        return None;
    }
    match bytes[0] {
        b'x' => after_end(bytes.split_at(1).1),
        b'l' => after_end(bytes.split_at(1).1),
        _ => after_end(bytes),
    }
}

// What stands behind a line, by what stands behind its first NUL.
#[tactic(auto, using(crate::proofs::Fronts::short_tail, crate::proofs::Fronts::no_digits, crate::proofs::Fronts::digits_tail))]
fn behind_line(behind: &[u8]) -> Option<&[u8]>
    ensures { option_map (λ rest. rest.now) result ≡ rest_behind behind.now }
{
    if behind.len() < 40 {
        return None;
    }
    let (digits, end) = behind.split_at(40);
    if are_digits(digits) {
        after_flag(end)
    } else {
        None
    }
}

/// The line at the front of a text, where it has the form of one.
#[tactic(auto, using(crate::proofs::Digits::front_there))]
pub(crate) fn read_line(bytes: &[u8]) -> Option<Front<'_>>
    ensures { IsFront (line_of bytes.now) result }
{
    let (path, behind) = cut_at_nul(bytes);
    match read_path(bytes, path) {
        None => None,
        Some(path) => match behind_line(behind) {
            None => None,
            Some(rest) => Some(Front { path, rest }),
        },
    }
}
