//! What the program says of itself.

ghost use Rattle.std.specs.Prelude.{◌≡◌, ◌⊎◌, ◌++◌, IfOk, OnOk, string_bytes};
ghost use Rattle.std.specs.Option.{option_map};
ghost use Rattle.hg_base.specs.Fault.{Rose};
ghost use Rattle.hg_front.specs.Further.{TellsMet};
ghost use Rattle.hg_front.specs.Words as own;
ghost use Rattle.hg_report.specs.declared.fault.Fault.TheVariants as a_fault;
ghost use Rattle.hg_stream.specs.Stream.{Grown, GrownByFront};
ghost use Rattle.hg_words.specs.Help.{help_of};

use crate::further::tell;
use crate::pages::page_of;
use hg_base::Words;
use hg_report::Fault;
use hg_stream::{Sink, put_all};
use hg_words::{HelpRow, help_rows};
use std::alloc::{AllocError, Global};

const HEAD: &str =
    "hgtrack: the record of a Mercurial working copy (its dirstate-v2), and the status from it

Usage:
";

const TAIL: &str =
    "  hgtrack COMMAND --help  print what a command does, what it takes, and an example
  hgtrack --help  print this help
  hgtrack --version  print the version

It runs in any folder of a working copy, whose root is the nearest folder with a folder `.hg`. Paths are told from the root; a FILE,
SOURCE or TARGET is told from the current folder, and stands behind `--` where its name begins with a dash.

Exit status:
  0    all was done
  1    a file was refused, in a line of its own; the others were done
  255  a fault, in a line `abort: ...`; a line `hgtrack: ...` behind it says why, or what to do

Files:
  .hgignore     the patterns of what is ignored
  .hg/dirstate  the record's docket, which names the data file beside it
  .hg/requires  what the repository asks of a program
  .hg/plain     the manifests and files of the parents, as hgtrack-parents brings them
  .hg/wlock     the lock of the working copy, while the record is changed
  .hg/probe     a file that is written to ask the file system's clock

Environment:
  no variable is read
";

const VERSION: &str = "hgtrack 0.1.0\n";

// Puts the line of a command, where it is built.
fn put_row(text: &mut String, row: &HelpRow) -> Result<(), AllocError>
    ensures { OnOk result (string_bytes text.new ≡ string_bytes text.old ++ own.row_text (help_of row.now)) }
{
    if !row.is_built {
        return Ok(());
    }
    text.push_str("  hgtrack ")?;
    text.push_str(row.name)?;
    if !row.words.is_empty() {
        text.push_str(" ")?;
        text.push_str(row.words)?;
    }
    text.push_str("  ")?;
    text.push_str(row.line)?;
    text.push_str("\n")
}

// That of the command of a name.
fn put_row_of(text: &mut String, row: &HelpRow, name: &str) -> Result<(), AllocError>
    ensures { OnOk result (string_bytes text.new ≡ string_bytes text.old ++ own.row_of name.now (help_of row.now)) }
{
    if row.name != name {
        return Ok(());
    }
    put_row(text, row)
}

// The commands that are built, and how they are called.
fn help(alloc: Global) -> Result<String, AllocError>
    ensures { IfOk result (λ text. string_bytes text ≡ own.help_text) }
{
    let mut text = String::from_str(alloc, HEAD)?;
    let rows = help_rows();
    for i in 0..rows.len() {
        put_row(&mut text, &rows[i])?;
    }
    text.push_str(TAIL)?;
    Ok(text)
}

// How a command is called, and what is said of it.
fn page(alloc: Global, name: &str, said: &str) -> Result<String, AllocError>
    ensures { IfOk result (λ text. string_bytes text ≡ own.page_text name.now said.now) }
{
    let mut text = String::from_str(alloc, "Usage:\n")?;
    let rows = help_rows();
    for i in 0..rows.len() {
        put_row_of(&mut text, &rows[i], name)?;
    }
    text.push_str(said)?;
    Ok(text)
}

// The help of a command.
fn help_of_command(alloc: Global, name: &str) -> Result<Option<String>, AllocError>
    ensures { IfOk result (λ text. option_map string_bytes text ≡ own.command_text name.now) }
{
    match page_of(name) {
        Some(said) => Ok(Some(page(alloc, name, said)?)),
        None => Ok(None),
    }
}

// What is printed for a single word that asks of the program itself.
fn alone(alloc: Global, word: &str) -> Result<Option<String>, AllocError>
    ensures { IfOk result (λ text. option_map string_bytes text ≡ own.alone word.now) }
{
    match word {
        "--help" => Ok(Some(help(alloc)?)),
        "--version" => Ok(Some(String::from_str(alloc, VERSION)?)),
        _ => Ok(None),
    }
}

// The same for two: a command, and `--help`.
fn beside(alloc: Global, name: &str, word: &str) -> Result<Option<String>, AllocError>
    ensures { IfOk result (λ text. option_map string_bytes text ≡ own.beside name.now word.now) }
{
    if word != "--help" {
        return Ok(None);
    }
    help_of_command(alloc, name)
}

/// What is printed for words that ask of the program itself, or of a command.
pub fn own_text(alloc: Global, words: &Words) -> Result<Option<String>, AllocError>
    ensures { IfOk result (λ text. option_map string_bytes text ≡ own.own_text words.now) }
{
    match words.len() {
        1 => alone(alloc, words.at(0).as_str()),
        2 => beside(alloc, words.at(0).as_str(), words.at(1).as_str()),
        _ => Ok(None),
    }
}

/// Prints a text of the program's own. Where that fails, it ends as a command does whose output failed.
pub fn print<O: Sink, E: Sink>(alloc: Global, out: &mut O, err: &mut E, text: &str) -> u8
    ensures { ((result ≡ 0) × Grown (O.bytes out.old) (O.bytes out.new) text.now × (err.new ≡ err.old))
        ⊎ ((result ≡ 255) × GrownByFront (O.bytes out.old) (O.bytes out.new) text.now × Rose (O.faults out.old) (O.faults out.new)
        × TellsMet (E.bytes err.old) (E.bytes err.new) (E.faults err.old) (E.faults err.new) a_fault.OutFailed) }
{
    match put_all(out, text.as_bytes()) {
        Ok(()) => 0,
        Err(_) => {
            tell(alloc, err, &Fault::OutFailed);
            255
        }
    }
}
