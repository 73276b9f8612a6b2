//! A command as words, with its file words as paths from the root.

ghost use Rattle.std.specs.Prelude.{◌≡◌, IfOk, map};
ghost use Rattle.hg_words.specs.Given as given;
ghost use Rattle.hg_words.specs.Told.{from_folder as told_from};

use crate::folder::from_folder;
use crate::given::Command;
use hg_base::{OutOfMemory, Text, Words};
use std::alloc::Global;

// Each word as the path that it tells in a folder.
fn told(alloc: Global, folder: &str, words: &Words) -> Result<Words, OutOfMemory>
    ensures { IfOk result (λ all. all ≡ map (told_from folder.now) words.now) }
{
    let mut all = Words::new(alloc);
    for i in 0..words.len() {
        all.push(from_folder(alloc, folder, words.at(i).as_str())?)?;
    }
    Ok(all)
}

/// A command that is given in a folder: each file word as the path that it tells there. The folder is told by its path from the root, the
/// root by nothing.
pub fn located(alloc: Global, folder: &str, command: Command) -> Result<Command, OutOfMemory>
    ensures { IfOk result (λ c. c ≡ given.located folder.now command) }
{
    match command {
        Command::Add { files } => Ok(Command::Add {
            files: told(alloc, folder, &files)?,
        }),
        Command::Forget { files } => Ok(Command::Forget {
            files: told(alloc, folder, &files)?,
        }),
        Command::Remove { after, files } => Ok(Command::Remove {
            after,
            files: told(alloc, folder, &files)?,
        }),
        Command::Copy { source, target } => {
            let source = from_folder(alloc, folder, source.as_str())?;
            let target = from_folder(alloc, folder, target.as_str())?;
            Ok(Command::Copy { source, target })
        }
        other => Ok(other),
    }
}

/// The words of a command that has file words: its name, its flag, `--`, and the files.
pub fn spelled(alloc: Global, command: &Command) -> Result<Words, OutOfMemory>
    ensures { IfOk result (λ all. all ≡ given.spelled command.now) }
{
    let mut all = Words::new(alloc);
    all.push(Text::of(alloc, command.name())?)?;
    if command.is_after() {
        all.push(Text::of(alloc, "--after")?)?;
    }
    all.push(Text::of(alloc, "--")?)?;
    for i in 0..command.files() {
        all.push(Text::of(alloc, command.file(i).as_str())?)?;
    }
    Ok(all)
}
