//! The names of plain files below `.hg`.

ghost use Rattle.std.specs.Prelude.{◌≡◌};
ghost use Rattle.hex.specs.Hex.{encode_lower};
ghost use Rattle.hg_store.specs.Names.{front_of, plain_file};

use hg_base::{Id20, put};
use std::marker::Model;

/// What a plain file holds: the contents of a file or the target of a link, or a manifest.
#[derive(Clone, Copy, Debug, PartialEq, Eq)]
pub(crate) enum Plain {
    Contents,
    Manifest,
}

/// The name `plain/f-HEX` of contents, or `plain/m-HEX` of a manifest; contracts see its bytes.
#[derive(Debug, Drop)]
pub(crate) struct PlainName {
    bytes: [u8; 48],
}

impl Model for PlainName {
    ghost use Rattle.std.specs.Prelude.{List, ℕ};
    ghost use Rattle.std.specs.Str.{IsUtf8};

    ghost Value = { List ℕ };

    ghost view = { λ n. n.bytes };

    ghost invariant = { λ n. IsUtf8 n.bytes };
}

// What stands before the digits.
fn front_of(plain: Plain) -> [u8; 8]
    ensures { result ≡ front_of plain }
{
    match plain {
        Plain::Contents => *b"plain/f-",
        Plain::Manifest => *b"plain/m-",
    }
}

/// The forty digits of an identifier.
pub(crate) fn digits_of(id: &Id20) -> [u8; 40]
    ensures { result ≡ encode_lower id.now.0 }
{
    let mut digits = [0; 40];
    let _ = hex::encode_to_slice(id.0, &mut digits);
    digits
}

impl PlainName {
    /// The name of the plain file with this identifier.
    pub(crate) fn of(plain: Plain, id: &Id20) -> PlainName
        ensures { result ≡ plain_file plain id.now.0 }
    {
        let front = front_of(plain);
        let digits = digits_of(id);
        let mut bytes = [0; 48];
        let at = put(&mut bytes, 0, &front);
        put(&mut bytes, at, &digits);
        PlainName { bytes }
    }

    /// The name as text.
    pub(crate) fn as_str(&self) -> &str
        ensures { result.now ≡ self.now }
    {
        match str::from_utf8(self.bytes.as_slice()) {
            Ok(text) => text,
            Err(_) => "",
        }
    }
}
