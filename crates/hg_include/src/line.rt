//! The lines of an ignore text that name another file, or a syntax that isn't known.

ghost use Rattle.std.specs.Prelude.{◌≡◌, ◌<◌, ◌++◌, ◌-◌, ◌^◌, length, IfOk, OnOk};
ghost use Rattle.hg_include.specs.Line as lines;
ghost use Rattle.hg_include.specs.Line.{line_says, lines_of, numbered};
ghost use Rattle.hg_syntax.specs.Syntax.{syntax_named};

use hg_base::{OutOfMemory, Text};
use hg_syntax::{Form, cut, form_of, syntax_named, text_of, trimmed};
use std::alloc::Global;

/// What a line says: it names a syntax that isn't known, a file by its path from the root, or a file by its path from the directory of the file in
/// which the line stands.
#[derive(Debug, Drop)]
pub enum Says {
    Unknown(Text),
    Include(Text),
    SubInclude(Text),
}

/// A line with its number, counted from 1.
#[derive(Debug, Drop)]
pub struct Line {
    pub number: u32,
    pub says: Says,
}

/// What a line says whose first word names a syntax.
fn syntax_says(alloc: Global, name: &str) -> Result<Option<Says>, OutOfMemory>
    ensures { IfOk result (λ says. says ≡ lines.syntax_says name.now (syntax_named name.now)) }
{
    match syntax_named(name) {
        Some(_) => Ok(None),
        None => {
            let name = Text::of(alloc, name)?;
            Ok(Some(Says::Unknown(name)))
        }
    }
}

/// What a line with a colon says, by what the word before it makes of the line.
fn form_says(alloc: Global, form: Form, rest: &str) -> Result<Option<Says>, OutOfMemory>
    ensures { IfOk result (λ says. says ≡ lines.form_says rest.now form) }
{
    match form {
        Form::Naming => syntax_says(alloc, trimmed(rest)),
        Form::Include => {
            let name = Text::of(alloc, rest)?;
            Ok(Some(Says::Include(name)))
        }
        Form::SubInclude => {
            let name = Text::of(alloc, rest)?;
            Ok(Some(Says::SubInclude(name)))
        }
        Form::Own(_) | Form::Plain => Ok(None),
    }
}

/// What a line says.
fn line_says(alloc: Global, line: &str) -> Result<Option<Says>, OutOfMemory>
    ensures { IfOk result (λ says. says ≡ line_says line.now) }
{
    let text = text_of(alloc, line)?;
    match cut(text.as_str(), ':') {
        None => Ok(None),
        Some((word, rest)) => form_says(alloc, form_of(word), rest),
    }
}

/// Puts what a line says.
fn take_line(
    alloc: Global,
    taken: &mut Vec<Line>,
    number: u32,
    line: &str,
) -> Result<(), OutOfMemory>
    ensures { OnOk result (taken.new.items ≡ taken.old.items ++ numbered number (line_says line.now)) }
{
    match line_says(alloc, line)? {
        None => {}
        Some(says) => taken.push(Line { number, says })?,
    }
    Ok(())
}

/// What the lines of a text say.
pub fn lines_of(alloc: Global, text: &str) -> Result<Vec<Line>, OutOfMemory>
    requires { length text.now < 2 ^ 32 - 1 }
    ensures { IfOk result (λ taken. taken.items ≡ lines_of text.now) }
{
    let mut taken = Vec::new(alloc);
    let mut left = text;
    let mut n = 1;
    while let Some((line, behind)) = cut(left, '\n') {
        take_line(alloc, &mut taken, n, line)?;
        n += 1;
        left = behind;
    }
    take_line(alloc, &mut taken, n, left)?;
    Ok(taken)
}
