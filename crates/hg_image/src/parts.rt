//! Parts of the data file: a record, a text.

ghost use Rattle.std.specs.Prelude.{◌≡◌, ◌+◌, ◌≤◌, ◌<◌, ◌^◌, length, take, drop, IsTrue, if◌then◌else◌, Some, None, option_map};
ghost use Rattle.std.specs.Str.{IsUtf8};
ghost use Rattle.std.specs.Str as text;
ghost use Rattle.hg_image.specs.Node.{record_at, part_at, is_text};

use hg_node::{Rec, within};

/// The length of a record, in bytes.
pub const RECORD_LEN: usize = 44;

/// The record that stands at a place.
#[inline(always)]
#[tactic(auto, unfolding(crate::specs::Node::record_at))]
pub fn read_record(bytes: &[u8], at: u32) -> Rec
    requires { at + 44 ≤ length bytes.now }
    ensures { result ≡ record_at bytes.now at }
{
    let mut record = [0; 44];
    record.copy_from_slice(bytes.split_at(at as usize).1.split_at(RECORD_LEN).0);
    let rec = Rec::read(&record);
    Rec { place: at, ..rec }
}

/// The text of so many bytes at a place, where they are there and are UTF-8.
#[tactic(auto, unfolding(crate::specs::Node::is_text))]
pub fn read_text(bytes: &[u8], start: u32, len: u16) -> Option<&str>
    requires { length bytes.now < 2 ^ 32 }
    ensures { option_map (λ t. t.now) result ≡ (if is_text bytes.now start len then Some (part_at bytes.now start len) else None) }
{
    if !within(start, len as u64, bytes.len() as u32) {
        return None;
    }
    valid_text(part(bytes, start, len))
}

/// So many bytes from a place on.
#[inline(always)]
pub fn part(bytes: &[u8], start: u32, len: u16) -> &[u8]
    requires { start + len ≤ length bytes.now }
    ensures { result.now ≡ part_at bytes.now start len }
{
    bytes.split_at(start as usize).1.split_at(len as usize).0
}

/// The bytes as a text, where they are UTF-8.
#[tactic(auto, using(crate::proofs::Texts::utf8_true, crate::proofs::Texts::utf8_false))]
pub fn valid_text(bytes: &[u8]) -> Option<&str>
    ensures { option_map (λ t. t.now) result ≡ (if text.is_utf8 bytes.now then Some bytes.now else None) }
{
    match std::str::from_utf8(bytes) {
        Ok(text) => Some(text),
        Err(_) => None,
    }
}

/// A text that is known to be one.
#[inline(always)]
#[tactic(auto, using(crate::proofs::Texts::text_room, crate::proofs::Texts::text_utf8))]
pub fn sound_text(bytes: &[u8], start: u32, len: u16) -> &str
    requires { IsTrue (is_text bytes.now start len) }
    ensures { result.now ≡ part_at bytes.now start len }
{
    let text = part(bytes, start, len);
    unsafe { std::str::from_utf8_unchecked(text) }
}
