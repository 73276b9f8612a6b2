//! The words of a command, read once, with its file words as paths from the root.

ghost use Rattle.std.specs.Prelude.{◌≡◌, ◌⊎◌, ◌<◌, Err, IfErr, IfOk, Ok, false, is_some, length};
ghost use Rattle.std.specs.Option.{option_map};
ghost use Rattle.hg_front.specs.Flags.{listed};
ghost use Rattle.hg_front.specs.Further.{TellsFault};
ghost use Rattle.hg_front.specs.Placed.{HasFiles, IsPlaced};
ghost use Rattle.hg_report.specs.declared.fault.Fault.TheVariants as a_fault;
ghost use Rattle.hg_words.specs.Command.{command_of};

use crate::flags::LISTED;
use crate::further::failed_because;
use hg_base::Words;
use hg_report::Fault;
use hg_stream::Sink;
use hg_words::{Command, WordsFault, located, read, spelled};
use std::alloc::Global;
use std::io::ErrorKind;

/// A command as it is run: with its file words as paths from the root, and the words that spell it so; none where the words are no command,
/// which then stand as they were given.
#[derive(Drop)]
pub struct Placed {
    pub command: Option<Command>,
    pub words: Words,
}

/// Arguments that can't be read: those that aren't text are wrong ones.
pub fn unread(kind: ErrorKind) -> Fault
    ensures { ((kind ≡ ErrorKind.OutOfMemory) × (result ≡ a_fault.OutOfMemory)) ⊎ ((¬ (kind ≡ ErrorKind.OutOfMemory)) × (result ≡ a_fault.Usage)) }
{
    match kind {
        ErrorKind::OutOfMemory => Fault::OutOfMemory,
        _ => Fault::Usage,
    }
}

/// Ends a command whose words aren't text.
pub fn unreadable<E: Sink>(alloc: Global, err: &mut E) -> u8
    ensures status { result ≡ 255 }
    ensures told { TellsFault (E.bytes err.old) (E.bytes err.new) (E.faults err.old) (E.faults err.new) a_fault.Usage listed }
{
    failed_because(alloc, Fault::Usage, err, LISTED)
}

/// What words are in the folder where a command is started. A folder that can't be told is a failure of the working copy where there are
/// file words.
pub fn place(alloc: Global, folder: Option<&str>, words: Words) -> Result<Placed, Fault>
    ensures ok { IfOk result (IsPlaced (option_map (λ f. f.now) folder.entry) words) }
    ensures err { IfErr result (λ e. (e ≡ a_fault.OutOfMemory) ⊎ ((e ≡ a_fault.TreeFailed) × (is_some folder.entry ≡ false) × HasFiles words)) }
{
    match read(alloc, &words) {
        Ok(command) => place_in(alloc, folder, command, words),
        Err(WordsFault::OutOfMemory) => Err(Fault::OutOfMemory),
        Err(_) => Ok(Placed {
            command: None,
            words,
        }),
    }
}

// The same of words that are a command.
fn place_in(
    alloc: Global,
    folder: Option<&str>,
    command: Command,
    words: Words,
) -> Result<Placed, Fault>
    requires { command_of words ≡ Ok command }
    ensures ok { IfOk result (IsPlaced (option_map (λ f. f.now) folder.entry) words) }
    ensures err { IfErr result (λ e. (e ≡ a_fault.OutOfMemory) ⊎ ((e ≡ a_fault.TreeFailed) × (is_some folder.entry ≡ false) × HasFiles words)) }
{
    if command.files() == 0 {
        return Ok(Placed {
            command: Some(command),
            words,
        });
    }
    let Some(folder) = folder else {
        return Err(Fault::TreeFailed);
    };
    let command = located(alloc, folder, command)?;
    let words = spelled(alloc, &command)?;
    Ok(Placed {
        command: Some(command),
        words,
    })
}

/// The root couldn't be gone to, and maybe not back from, or a path from the root couldn't be told.
pub fn unreached<E: Sink>(alloc: Global, err: &mut E, reason: &str) -> u8
    ensures status { result ≡ 255 }
    ensures told { TellsFault (E.bytes err.old) (E.bytes err.new) (E.faults err.old) (E.faults err.new) a_fault.TreeFailed reason.now }
{
    failed_because(alloc, Fault::TreeFailed, err, reason)
}
