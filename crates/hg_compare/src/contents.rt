//! The name of a file's contents below `.hg`.

ghost use Rattle.std.specs.Prelude.{◌≡◌};
ghost use Rattle.hex.specs.Hex.{encode_lower};
ghost use Rattle.hg_compare.specs.Alike.{contents_name};

use hg_base::{Id20, put};
use std::marker::Model;

/// The bytes before the digits.
const FRONT: [u8; 8] = *b"plain/f-";

/// The name `plain/f-HEX` of contents; contracts see its bytes.
#[derive(Debug, Drop)]
pub(crate) struct ContentsName {
    bytes: [u8; 48],
}

impl Model for ContentsName {
    ghost use Rattle.std.specs.Prelude.{List, ℕ};
    ghost use Rattle.std.specs.Str.{IsUtf8};

    ghost Value = { List ℕ };

    ghost view = { λ n. n.bytes };

    ghost invariant = { λ n. IsUtf8 n.bytes };
}

// The forty digits of an identifier.
fn digits_of(id: Id20) -> [u8; 40]
    ensures { result ≡ encode_lower id.0 }
{
    let mut digits = [0; 40];
    let _ = hex::encode_to_slice(id.0, &mut digits);
    digits
}

impl ContentsName {
    /// The name of the contents with this identifier.
    pub(crate) fn of(id: Id20) -> ContentsName
        ensures { result ≡ contents_name id.0 }
    {
        let digits = digits_of(id);
        let mut bytes = [0; 48];
        let at = put(&mut bytes, 0, &FRONT);
        put(&mut bytes, at, &digits);
        ContentsName { bytes }
    }

    /// The name as text.
    pub(crate) fn as_str(&self) -> &str
        ensures { result.now ≡ self.now }
    {
        match str::from_utf8(self.bytes.as_slice()) {
            Ok(text) => text,
            Err(_) => "",
        }
    }
}
