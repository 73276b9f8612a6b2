//! An owned identifier of a data file.

ghost use Rattle.std.specs.Prelude.{◌≡◌, ◌≢◌, ◌≤◌, [], Some, None, IsTrue, IfSome, if◌then◌else◌};
ghost use Rattle.hg_docket.specs.Number.{number_of, number_after, hex_text, next_name};
ghost use Rattle.std.specs.List.{list_all};
ghost use Rattle.hg_docket.specs.Name.{is_name_byte, is_name};

use crate::name::is_name_byte;
use crate::number;
use hg_base::put;
use std::marker::Model;

/// The identifier of a data file: at most 255 bytes, each an ASCII letter, a digit, `-` or `_`. Contracts see its bytes.
#[derive(Debug, Drop)]
pub struct Ident {
    bytes: [u8; 255],
    len: usize,
}

impl Model for Ident {
    ghost use Rattle.std.specs.Prelude.{List, ℕ, take, length, IsTrue, ◌≤◌};
    ghost use Rattle.std.specs.List.{list_all};
    ghost use Rattle.hg_docket.specs.Name.{is_name_byte};

    ghost Value = { List ℕ };

    ghost view = { λ i. take i.len i.bytes };

    ghost invariant = { λ i. (i.len ≤ 255) × IsTrue (list_all is_name_byte (take i.len i.bytes)) };
}

impl Ident {
    /// The identifier that the bytes are; `None` over 255 bytes, or where a byte is none of an identifier.
    pub fn read(bytes: &[u8]) -> Option<Ident>
        ensures { result ≡ (if is_name bytes.now then Some bytes.now else None) }
    {
        let len = bytes.len();
        if len > 255 {
            return None;
        }
        if !are_name_bytes(bytes) {
            return None;
        }
        let mut held = [0; 255];
        held[..len].copy_from_slice(bytes);
        Some(Ident { bytes: held, len })
    }

    /// The identifier of no data file.
    pub fn none() -> Ident
        ensures { result ≡ [] }
    {
        Ident {
            bytes: [0; 255],
            len: 0,
        }
    }

    /// The identifier of the next data file, sixteen hexadecimal digits: one above, or zero where this one is no number of at most
    /// sixteen digits. `None` after the greatest.
    pub fn next(&self) -> Option<Ident>
        ensures next { result ≡ next_name self.now }
        ensures number { IfSome result (λ next. number_of next ≡ Some (number_after (number_of self.now))) }
        ensures other { IfSome result (λ next. next ≢ self.now) }
    {
        match number::number_of(self.as_bytes()) {
            None => Some(Ident::numbered(0)),
            Some(n) => {
                if n == u64::MAX {
                    return None;
                }
                Some(Ident::numbered(n + 1))
            }
        }
    }

    // The identifier that a number has.
    fn numbered(n: u64) -> Ident
        ensures text { result ≡ hex_text 16 n }
        ensures number { number_of result ≡ Some n }
    {
        let digits = number::hex_text(n);
        let mut bytes = [0; 255];
        let len = put(&mut bytes, 0, &digits);
        Ident { bytes, len }
    }

    /// Its bytes.
    pub fn as_bytes(&self) -> &[u8]
        ensures bytes { result.now ≡ self.now }
        ensures name { IsTrue (is_name self.now) }
    {
        self.bytes.split_at(self.len).0
    }
}

// Whether each byte may stand in an identifier.
fn are_name_bytes(bytes: &[u8]) -> bool
    ensures { result ≡ list_all is_name_byte bytes.now }
{
    bytes.iter().all(|b| is_name_byte(*b))
}
