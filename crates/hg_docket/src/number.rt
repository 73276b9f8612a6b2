//! Identifiers as hexadecimal numbers.

ghost use Rattle.std.specs.Prelude.{◌≡◌, ◌≤◌, ◌<◌, IsTrue, length, Some};
ghost use Rattle.std.specs.List.{list_all};
ghost use Rattle.hg_docket.specs.Name.{is_name_byte};
ghost use Rattle.hg_docket.specs.Number as hex;

/// The number that an identifier is; `None` where it is not 1 to 16 hexadecimal digits.
pub fn number_of(text: &[u8]) -> Option<u64>
    ensures { result ≡ hex.number_of text.now }
{
    if text.is_empty() {
        return None;
    }
    if text.len() > 16 {
        return None;
    }
    if !are_digits(text) {
        return None;
    }
    Some(hex_value(text))
}

/// A number in sixteen digits of lower case.
pub fn hex_text(n: u64) -> [u8; 16]
    ensures digits { result ≡ hex.hex_text 16 n }
    ensures names { IsTrue (list_all is_name_byte result) }
    ensures number { hex.number_of result ≡ Some n }
{
    let mut digits = [0; 16];
    let mut rest = n;
    let mut at = 16;
    while at > 0 {
        at -= 1;
        digits[at] = digit_of((rest % 16) as u8);
        rest /= 16;
    }
    digits
}

fn are_digits(text: &[u8]) -> bool
    ensures { result ≡ list_all hex.is_digit text.now }
{
    text.iter()
        .all(|b| matches!(*b, b'0'..=b'9' | b'A'..=b'F' | b'a'..=b'f'))
}

// What at most sixteen digits are worth.
fn hex_value(digits: &[u8]) -> u64
    requires few { length digits.now ≤ 16 }
    requires digits { IsTrue (list_all hex.is_digit digits.now) }
    ensures { result ≡ hex.hex_value digits.now }
{
    let mut value = 0;
    for b in digits {
        value = value * 16 + digit_value(*b) as u64;
    }
    value
}

fn digit_value(b: u8) -> u8
    requires { IsTrue (hex.is_digit b) }
    ensures value { result ≡ hex.digit_value b }
    ensures bound { result < 16 }
{
    match b {
        b'0'..=b'9' => b - b'0',
        b'A'..=b'F' => b - b'A' + 10,
        _ => b - b'a' + 10,
    }
}

fn digit_of(n: u8) -> u8
    requires { n < 16 }
    ensures { result ≡ hex.digit_of n }
{
    if n < 10 { b'0' + n } else { b'a' + (n - 10) }
}
