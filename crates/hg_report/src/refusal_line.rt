//! The line of a word that was refused.

ghost use Rattle.std.specs.Prelude.{◌≡◌, ◌++◌, IfOk, OnOk, codes};
ghost use Rattle.hg_report.specs.Refusal.{refusal_line, refusal_words};

use crate::fault_line::put;
use hg_base::OutOfMemory;
use hg_ops::Refusal;
use std::alloc::Global;

fn put_clash(line: &mut Vec<u8>, other: &str) -> Result<(), OutOfMemory>
    ensures { OnOk result (line.new.items ≡ line.old.items ++ codes "clashes with " ++ other.now) }
{
    put(line, "clashes with ")?;
    put(line, other)
}

fn put_refusal(line: &mut Vec<u8>, refusal: &Refusal) -> Result<(), OutOfMemory>
    ensures { OnOk result (line.new.items ≡ line.old.items ++ refusal_words refusal.now) }
{
    match refusal {
        Refusal::BadPath => put(line, "bad path"),
        Refusal::NotThere => put(line, "no such file"),
        Refusal::NotTracked => put(line, "not tracked"),
        Refusal::Special => put(line, "not a file"),
        Refusal::Clash { other } => put_clash(line, other.as_str()),
        Refusal::Changed => put(line, "modified"),
        Refusal::Added => put(line, "marked for add"),
        Refusal::StillThere => put(line, "still there"),
        Refusal::Exists => put(line, "exists"),
    }
}

/// The line of a word that a command refused: `COMMAND WORD: TEXT` and LF.
pub fn refusal_text(
    alloc: Global,
    command: &str,
    word: &str,
    refusal: &Refusal,
) -> Result<Vec<u8>, OutOfMemory>
    ensures { IfOk result (λ line. line.items ≡ refusal_line command.now word.now refusal.now) }
{
    let mut line = Vec::new(alloc);
    put(&mut line, command)?;
    put(&mut line, " ")?;
    put(&mut line, word)?;
    put(&mut line, ": ")?;
    put_refusal(&mut line, refusal)?;
    put(&mut line, "\n")?;
    Ok(line)
}
