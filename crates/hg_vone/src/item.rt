//! One entry of the file.

ghost use Rattle.std.specs.Prelude.{◌≡◌, ◌+◌, ◌≤◌, ◌<◌, ◌^◌, take, drop, length, IfOk, IfSome, Some, None, if◌then◌else◌, option_map, slice_index, false, ◌&&◌};
ghost use Rattle.std.specs.Result.{result_err};
ghost use Rattle.std.specs.Str.{is_utf8};
ghost use Rattle.hg_base.specs.PathText.{is_path};
ghost use Rattle.hg_docket.specs.Docket.{number_at};
ghost use Rattle.hg_vone.specs.Format as format;
ghost use Rattle.hg_vone.specs.Format.{own_fault, size_in, text_len, text_in, nul_in, is_short, is_named, marks_of, marks_in, path_in, source_in, before_place, behind_place, is_sourced};
ghost use Rattle.hg_vone.specs.Items.{item_in, known_marks};
ghost use Rattle.hg_vone.specs.View.{item, marks, texts};

use crate::fault::VoneFault;
use hg_base::PathRef;

/// How many bytes an entry has before its text.
const HEAD: usize = 17;

/// A size of -2: the second parent's file was taken.
const FROM_SECOND: u32 = 4_294_967_294;

/// A size of -1, which of a removed file says that it was merged.
const WAS_MERGED: u32 = 4_294_967_295;

/// What an entry says of its file.
#[derive(Clone, Copy, Debug)]
pub(crate) struct Known {
    /// The file is tracked.
    pub w: bool,
    /// The first parent has it.
    pub p1: bool,
    /// The second parent's was taken, or merged.
    pub p2: bool,
}

/// An entry, whose texts lie in the file.
#[derive(Clone, Copy, Debug)]
pub(crate) struct Item<'a> {
    pub path: PathRef<'a>,
    pub source: Option<PathRef<'a>>,
    pub marks: Known,
    /// Where the entry begins, in bytes of the file.
    pub at: u32,
    /// How many bytes the entry has.
    pub size: u32,
}

// The number of 32 bits that stands at a place, its greatest byte first.
fn u32_at(bytes: &[u8], at: usize) -> u32
    requires { at + 4 ≤ length bytes.now }
    ensures { result ≡ number_at at bytes.now }
{
    u32::from_be_bytes([bytes[at], bytes[at + 1], bytes[at + 2], bytes[at + 3]])
}

// Whether the bytes end before the entry does.
#[tactic(auto, unfolding(crate::specs::Format::is_short))]
fn ends_early(bytes: &[u8]) -> bool
    requires { length bytes.now < 2 ^ 32 }
    ensures { result ≡ is_short bytes.now }
{
    if bytes.len() < HEAD {
        return true;
    }
    (bytes.len() as u64) < 17 + u32_at(bytes, 13) as u64
}

fn known_as(w: bool, p1: bool, p2: bool) -> Known
    ensures { marks result ≡ format.marks w p1 p2 }
{
    Known { w, p1, p2 }
}

// What a state and a size say.
#[tactic(auto, unfolding(crate::specs::Format::marks_of))]
fn marks_by(state: u8, size: u32) -> Option<Known>
    ensures { option_map marks result ≡ marks_of state size }
{
    if state == b'n' {
        if size == FROM_SECOND {
            return Some(known_as(true, false, true));
        }
        return Some(known_as(true, true, false));
    }
    if state == b'a' {
        return Some(known_as(true, false, false));
    }
    if state == b'r' {
        if size == WAS_MERGED {
            return Some(known_as(false, true, true));
        }
        if size == FROM_SECOND {
            return Some(known_as(false, false, true));
        }
        return Some(known_as(false, true, false));
    }
    if state == b'm' {
        return Some(known_as(true, true, true));
    }
    None
}

// What the entry says of its file.
#[tactic(auto, unfolding(crate::specs::Format::marks_in))]
fn marks_at(bytes: &[u8]) -> Option<Known>
    requires { 17 ≤ length bytes.now }
    ensures { option_map marks result ≡ marks_in bytes.now }
{
    marks_by(bytes[0], u32_at(bytes, 5))
}

// The bytes of the text.
#[tactic(auto, unfolding(crate::specs::Format::is_short))]
fn text_of(bytes: &[u8]) -> &[u8]
    requires { is_short bytes.now ≡ false }
    ensures { result.now ≡ text_in bytes.now }
{
    let len = u32_at(bytes, 13) as usize;
    bytes.split_at(HEAD).1.split_at(len).0
}

// Where the first NUL stands in the text.
fn nul_at(text: &[u8]) -> Option<usize>
    ensures place { result ≡ nul_in text.now }
    ensures bound { IfSome result (λ at. at < length text.now) }
{
    text.iter().position(|b| *b == 0)
}

// What is before the NUL.
fn before_nul(text: &[u8], nul: Option<usize>) -> &[u8]
    requires { IfSome nul (λ at. at < length text.now) }
    ensures { result.now ≡ before_place nul text.now }
{
    match nul {
        None => text,
        Some(at) => text.split_at(at).0,
    }
}

// What is behind the NUL, where there is one.
fn behind_nul(text: &[u8], nul: Option<usize>) -> Option<&[u8]>
    requires { IfSome nul (λ at. at < length text.now) }
    ensures { option_map (λ t. t.now) result ≡ behind_place nul text.now }
{
    match nul {
        None => None,
        Some(at) => Some(text.split_at(at + 1).1),
    }
}

// The bytes as a text, where they are UTF-8.
#[tactic(auto, using(hg_image::proofs::Texts::utf8_true, hg_image::proofs::Texts::utf8_false))]
fn valid_text(bytes: &[u8]) -> Option<&str>
    ensures { option_map (λ t. t.now) result ≡ (if is_utf8 bytes.now then Some bytes.now else None) }
{
    match std::str::from_utf8(bytes) {
        Ok(text) => Some(text),
        Err(_) => None,
    }
}

// The text as a path, where it is one.
#[tactic(auto, using(hg_image::proofs::Texts::path_false))]
fn path_of(text: &str) -> Option<PathRef<'_>>
    ensures { option_map (λ p. p.text.now) result ≡ (if is_path text.now then Some text.now else None) }
{
    match PathRef::read(text) {
        Ok(path) => Some(path),
        Err(_) => None,
    }
}

// The bytes as a path, where they are one.
#[tactic(auto, unfolding(crate::specs::Format::is_named))]
fn named(bytes: &[u8]) -> Option<PathRef<'_>>
    ensures { option_map (λ p. p.text.now) result ≡ (if is_named bytes.now then Some bytes.now else None) }
{
    let Some(text) = valid_text(bytes) else {
        return None;
    };
    path_of(text)
}

/// The texts of an entry.
#[derive(Clone, Copy, Debug)]
pub(crate) struct Texts<'a> {
    pub path: PathRef<'a>,
    pub source: Option<PathRef<'a>>,
}

// The texts, where both are paths.
fn both_named<'a>(path: &'a [u8], source: Option<&'a [u8]>) -> Option<Texts<'a>>
    ensures { option_map texts result ≡ (if is_named path.now && is_sourced (option_map (λ s. s.now) source.entry) then Some (path.now, option_map (λ s. s.now) source.entry) else None) }
{
    let Some(path) = named(path) else {
        return None;
    };
    let Some(source) = source else {
        return Some(Texts { path, source: None });
    };
    let Some(source) = named(source) else {
        return None;
    };
    Some(Texts {
        path,
        source: Some(source),
    })
}

// The texts of an entry that is there.
#[tactic(auto, unfolding(crate::specs::Format::path_in, crate::specs::Format::source_in))]
fn texts_of(bytes: &[u8]) -> Option<Texts<'_>>
    requires { is_short bytes.now ≡ false }
    ensures { option_map texts result ≡ (if is_named (path_in bytes.now) && is_sourced (source_in bytes.now) then Some (path_in bytes.now, source_in bytes.now) else None) }
{
    let text = text_of(bytes);
    let nul = nul_at(text);
    both_named(before_nul(text, nul), behind_nul(text, nul))
}

/// The entry at the beginning of the bytes, which stand at this place of the file; else what is wrong with it by itself.
#[tactic(auto, unfolding(crate::specs::Format::own_fault, crate::specs::Items::item_in, crate::specs::Format::is_short))]
pub(crate) fn read_item(bytes: &[u8], at: u32) -> Result<Item<'_>, VoneFault>
    requires { length bytes.now < 2 ^ 32 }
    ensures fault { result_err result ≡ own_fault at bytes.now }
    ensures item { IfOk result (λ i. item i ≡ item_in bytes.now) }
    ensures size { IfOk result (λ i. i.size ≡ size_in bytes.now) }
    ensures room { IfOk result (λ i. i.size ≤ length bytes.now) }
{
    if ends_early(bytes) {
        return Err(VoneFault::V1Short { at });
    }
    let Some(marks) = marks_at(bytes) else {
        return Err(VoneFault::V1State { at });
    };
    let Some(texts) = texts_of(bytes) else {
        return Err(VoneFault::V1Path { at });
    };
    Ok(Item {
        path: texts.path,
        source: texts.source,
        marks,
        at,
        size: 17 + u32_at(bytes, 13),
    })
}
