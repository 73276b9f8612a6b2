//! Identifiers of data files.

ghost use Rattle.std.specs.Prelude.{◌≡◌};
ghost use Rattle.hg_docket.specs.Name as name;

/// Whether a byte may stand in an identifier.
pub fn is_name_byte(b: u8) -> bool
    ensures { result ≡ name.is_name_byte b }
{
    matches!(b, b'0'..=b'9' | b'A'..=b'Z' | b'a'..=b'z' | b'-' | b'_')
}
