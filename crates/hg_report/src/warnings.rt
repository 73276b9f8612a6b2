//! The lines of warnings.

ghost use Rattle.std.specs.Prelude.{◌≡◌, ◌++◌, IfOk, OnOk};
ghost use Rattle.std.specs.String.{string_bytes};
ghost use Rattle.hg_report.specs.Warnings as warnings_are;
ghost use Rattle.hg_report.specs.Warnings.{warning_line, warning_words};

use hg_base::OutOfMemory;
use hg_ignore::{Warning, Warnings};
use std::alloc::Global;

fn line_text(alloc: Global, line: u32, name: &str) -> Result<String, OutOfMemory>
    ensures { IfOk result (λ text. string_bytes text ≡ warning_words line name.now) }
{
    Ok(format!(in alloc; ".hgignore line {line}: unknown syntax {name}")?)
}

fn put_warning(alloc: Global, text: &mut Vec<u8>, warning: &Warning) -> Result<(), OutOfMemory>
    ensures { OnOk result (text.new.items ≡ text.old.items ++ warning_line warning.now) }
{
    let line = line_text(alloc, warning.line, warning.name.as_str())?;
    text.extend_from_slice(line.as_bytes())?;
    text.push(b'\n')?;
    Ok(())
}

/// The lines of the warnings, one after the other, each with its line's number, from 1.
pub fn warnings_text(alloc: Global, warnings: &Warnings) -> Result<Vec<u8>, OutOfMemory>
    ensures { IfOk result (λ text. text.items ≡ warnings_are.warnings_text warnings.now) }
{
    let mut text = Vec::new(alloc);
    for i in 0..warnings.len() {
        put_warning(alloc, &mut text, warnings.at(i))?;
    }
    Ok(text)
}
