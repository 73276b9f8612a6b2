//! A line of an ignore text without its comment and its white space.

ghost use Rattle.std.specs.Prelude.{◌≡◌, ◌<◌, ◌≤◌, ◌-◌, IfOk, option_map, length, string_bytes, IsCharBoundary};
ghost use Rattle.std.specs.List.{suffix_len, prefix_len};
ghost use Rattle.hg_syntax.specs.Text as texts;
ghost use Rattle.hg_syntax.specs.Text.{IsCut, is_escaping, is_white, uncommented, without_end, without_start, escaped};

use hg_base::OutOfMemory;
use std::alloc::Global;

/// What is before and behind the first character of that value.
pub fn cut(text: &str, at: char) -> Option<(&str, &str)>
    requires { at < 128 }
    ensures { IsCut at text.now result }
{
    text.split_once(at)
}

/// Whether an odd number of backslashes stands at the end of the text.
fn is_escaping(text: &str) -> bool
    ensures { result ≡ is_escaping text.now }
{
    let mut odd = false;
    for b in text.as_bytes() {
        odd = (*b == b'\\') & !odd;
    }
    odd
}

/// The text without its last backslash, where that stands for what follows.
fn escaped(text: &str) -> Option<&str>
    ensures { option_map (λ front. front.now) result ≡ escaped text.now }
{
    match text.strip_suffix('\\') {
        None => None,
        Some(front) => if is_escaping(front) {
            None
        } else {
            Some(front)
        },
    }
}

/// The line without its comment.
fn uncommented(alloc: Global, line: &str) -> Result<String, OutOfMemory>
    ensures { IfOk result (λ text. string_bytes text ≡ uncommented line.now) }
{
    let mut text = String::new(alloc);
    let mut left = line;
    while let Some((front, behind)) = cut(left, '#') {
        match escaped(front) {
            None => {
                text.push_str(front)?;
                return Ok(text);
            }
            Some(front) => {
                text.push_str(front)?;
                text.push('#')?;
                left = behind;
            }
        }
    }
    text.push_str(left)?;
    Ok(text)
}

fn is_white(b: u8) -> bool
    ensures { result ≡ is_white b }
{
    b == b' ' || b == b'\t' || b == b'\r' || b == b'\x0B' || b == b'\x0C'
}

/// Where the white space at the end of the text begins.
fn end_of(text: &str) -> usize
    ensures place { result ≡ length text.now - suffix_len is_white text.now }
    ensures cut { IsCharBoundary text.now result }
{
    let bytes = text.as_bytes();
    let mut end = bytes.len();
    while end > 0 {
        if !is_white(bytes[end - 1]) {
            return end;
        }
        end -= 1;
    }
    end
}

/// The text without the white space at its end.
fn without_end(text: &str) -> &str
    ensures { result.now ≡ without_end text.now }
{
    text.split_at(end_of(text)).0
}

/// Where the white space at the beginning of the text ends.
fn start_of(text: &str) -> usize
    ensures place { result ≡ prefix_len is_white text.now }
    ensures cut { IsCharBoundary text.now result }
{
    let bytes = text.as_bytes();
    let mut start = 0;
    while start < bytes.len() {
        if !is_white(bytes[start]) {
            return start;
        }
        start += 1;
    }
    start
}

/// The text without the white space at its beginning.
fn without_start(text: &str) -> &str
    ensures { result.now ≡ without_start text.now }
{
    text.split_at(start_of(text)).1
}

/// The text without the white space round it.
pub fn trimmed(text: &str) -> &str
    ensures { result.now ≡ texts.trimmed text.now }
{
    without_start(without_end(text))
}

/// What the line says: no comment, and no white space at its end.
pub fn text_of(alloc: Global, line: &str) -> Result<String, OutOfMemory>
    ensures { IfOk result (λ text. string_bytes text ≡ texts.text_of line.now) }
{
    let text = uncommented(alloc, line)?;
    Ok(String::from_str(alloc, without_end(text.as_str()))?)
}
