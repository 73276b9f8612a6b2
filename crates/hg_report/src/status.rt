//! The lines of a status.

ghost use Rattle.std.specs.Prelude.{◌≡◌, ◌++◌, IfOk, OnOk};
ghost use Rattle.hg_report.specs.Status.{end_of, name_line, row_text, shows_source, sign_of, source_line, text_of};

use hg_base::{OutOfMemory, Path};
use hg_compare::Letter;
use hg_listing::{Row, Rows};
use std::alloc::Global;

/// How the rows of a status are printed.
#[derive(Clone, Copy, Debug, PartialEq, Eq)]
pub struct Style {
    /// `-n`: names alone, without letters.
    pub plain: bool,
    /// `-0`: NUL ends each name.
    pub nul: bool,
    /// `-C`: copy sources are shown.
    pub copies: bool,
}

fn sign(letter: Letter) -> u8
    ensures { result ≡ sign_of letter }
{
    match letter {
        Letter::M => b'M',
        Letter::A => b'A',
        Letter::R => b'R',
        Letter::Gone => b'!',
        Letter::Unknown => b'?',
        Letter::I => b'I',
        Letter::C => b'C',
    }
}

fn end(style: Style) -> u8
    ensures { result ≡ end_of style }
{
    if style.nul { 0 } else { b'\n' }
}

// A copy source is shown of an added or modified file alone.
fn has_source_line(row: &Row, style: Style) -> bool
    ensures { result ≡ shows_source style row.now.letter }
{
    if !style.copies {
        return false;
    }
    if style.plain {
        return false;
    }
    matches!(row.letter, Letter::M | Letter::A)
}

fn put_source(text: &mut Vec<u8>, source: &Option<Path>, style: Style) -> Result<(), OutOfMemory>
    ensures { OnOk result (text.new.items ≡ text.old.items ++ source_line style source.now) }
{
    match source {
        None => Ok(()),
        Some(source) => {
            text.extend_from_slice(b"  ")?;
            text.extend_from_slice(source.as_str().as_bytes())?;
            text.push(end(style))?;
            Ok(())
        }
    }
}

fn put_name(text: &mut Vec<u8>, row: &Row, style: Style) -> Result<(), OutOfMemory>
    ensures { OnOk result (text.new.items ≡ text.old.items ++ name_line style row.now) }
{
    if !style.plain {
        text.push(sign(row.letter))?;
        text.push(b' ')?;
    }
    text.extend_from_slice(row.path.as_str().as_bytes())?;
    text.push(end(style))?;
    Ok(())
}

fn put_row(text: &mut Vec<u8>, row: &Row, style: Style) -> Result<(), OutOfMemory>
    ensures { OnOk result (text.new.items ≡ text.old.items ++ row_text style row.now) }
{
    put_name(text, row, style)?;
    if has_source_line(row, style) {
        return put_source(text, &row.source, style);
    }
    Ok(())
}

/// The lines of the rows, one after the other.
pub fn status_text(alloc: Global, rows: &Rows, style: Style) -> Result<Vec<u8>, OutOfMemory>
    ensures { IfOk result (λ text. text.items ≡ text_of style rows.now) }
{
    let mut text = Vec::new(alloc);
    for i in 0..rows.len() {
        put_row(&mut text, rows.at(i), style)?;
    }
    Ok(text)
}
