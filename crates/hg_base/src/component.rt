//! Names of one component, seen by their bytes.

ghost use Rattle.std.specs.Prelude.{◌≡◌, ◌&&◌, None, false, true, IfSome};
ghost use Rattle.std.specs.List.{list_all};
ghost use Rattle.std.specs.Str as text;
ghost use Rattle.hg_base.specs.PathText as paths;
ghost use Rattle.hg_base.specs.Plain as plain;

use crate::rules::is_component;

// Whether a byte is an ASCII character other than NUL and the slash.
#[inline(always)]
fn is_plain_byte(byte: u8) -> bool
    ensures { result ≡ plain.is_plain_byte byte }
{
    byte != 0 && byte != b'/' && byte < 128
}

// Whether bytes are such characters alone.
#[inline(always)]
fn are_plain(name: &[u8]) -> bool
    ensures { result ≡ list_all plain.is_plain_byte name.now }
{
    name.iter().all(|byte| is_plain_byte(*byte))
}

// Whether bytes are such characters alone, at least one and the first no dot, as most names are.
#[inline(always)]
fn is_plain(name: &[u8]) -> bool
    ensures { result ≡ plain.is_plain name.now }
{
    !name.is_empty() && name[0] != b'.' && are_plain(name)
}

// Bytes as a name of one component, where they are one; the way for any bytes.
#[tactic(auto, using(crate::proofs::Plain::text_utf8, crate::proofs::Plain::no_text))]
fn component(bytes: &[u8]) -> Option<&str>
    ensures same { IfSome result (λ name. name.now ≡ bytes.now) }
    ensures utf8 { IfSome result (λ name. text.is_utf8 bytes.now ≡ true) }
    ensures component { IfSome result (λ name. paths.is_component bytes.now ≡ true) }
    ensures none { result ≡ None → (text.is_utf8 bytes.now && paths.is_component bytes.now) ≡ false }
{
    let Ok(name) = std::str::from_utf8(bytes) else {
        return None;
    };
    if is_component(name) { Some(name) } else { None }
}

/// Bytes as a name of one component, where they are one.
#[inline(always)]
#[tactic(auto, using(crate::proofs::Plain::plain_text, crate::proofs::Plain::plain_utf8, crate::proofs::Plain::plain_component))]
pub fn valid_name(bytes: &[u8]) -> Option<&str>
    ensures same { IfSome result (λ name. name.now ≡ bytes.now) }
    ensures utf8 { IfSome result (λ name. text.is_utf8 bytes.now ≡ true) }
    ensures component { IfSome result (λ name. paths.is_component bytes.now ≡ true) }
    ensures none { result ≡ None → (text.is_utf8 bytes.now && paths.is_component bytes.now) ≡ false }
{
    if is_plain(bytes) {
        return Some(unsafe { std::str::from_utf8_unchecked(bytes) });
    }
    component(bytes)
}
