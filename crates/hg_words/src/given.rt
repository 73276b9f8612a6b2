//! A command, as its words tell it.

ghost use Rattle.std.specs.Prelude.{◌≡◌, ◌<◌, Some, length, slice_get};
ghost use Rattle.hg_words.specs.Given as given;

use crate::flags::StatusFlags;
use hg_base::{Id20, Text, Words};

/// One command of the program's table, whether it is built or not.
#[derive(Debug, Drop)]
pub enum Command {
    /// What is tracked and what isn't.
    Status(StatusFlags),
    /// Tracks files.
    Add { files: Words },
    /// Tracks files no longer.
    Forget { files: Words },
    /// Tracks files no longer and takes them away; with `after` those alone that are gone.
    Remove { after: bool, files: Words },
    /// Copies a file, and records what it was copied from.
    Copy { source: Text, target: Text },
    /// Sets the parents; the second is null where one alone was given.
    SetParents { p1: Id20, p2: Id20 },
    /// Prints the record.
    DebugDirstate,
    /// Runs commands that are read from the input.
    DebugScript,
    /// Runs a status over a working copy of so many directories, 1 to 2,000.
    DebugLoad { n: u32 },
}

impl Command {
    /// How many file words it has.
    pub fn files(&self) -> usize
        ensures { result ≡ length (given.files_of self.now) }
    {
        match self {
            Command::Add { files } => files.len(),
            Command::Forget { files } => files.len(),
            Command::Remove { files, .. } => files.len(),
            Command::Copy { .. } => 2,
            _ => 0,
        }
    }

    /// The file word at a place below that number.
    pub fn file(&self, i: usize) -> &Text
        requires { i < length (given.files_of self.now) }
        ensures { slice_get (given.files_of self.now) i ≡ Some result.now }
    {
        match self {
            Command::Add { files } => files.at(i),
            Command::Forget { files } => files.at(i),
            Command::Remove { files, .. } => files.at(i),
            Command::Copy { source, target } => { if i == 0 { source } else { target } }
            _ => unreachable!(),
        }
    }

    /// Whether it changes the record.
    pub fn changes(&self) -> bool
        ensures { result ≡ given.changes self.now }
    {
        match self {
            Command::Status(_) | Command::DebugDirstate | Command::DebugLoad { .. } => false,
            Command::Add { .. }
            | Command::Forget { .. }
            | Command::Remove { .. }
            | Command::Copy { .. }
            | Command::SetParents { .. }
            | Command::DebugScript => true,
        }
    }

    /// Its name.
    pub fn name(&self) -> &'static str
        ensures { result.now ≡ given.name_of self.now }
    {
        match self {
            Command::Status(_) => "status",
            Command::Add { .. } => "add",
            Command::Forget { .. } => "forget",
            Command::Remove { .. } => "remove",
            Command::Copy { .. } => "copy",
            Command::SetParents { .. } => "debugsetparents",
            Command::DebugDirstate => "debugdirstate",
            Command::DebugScript => "debugscript",
            Command::DebugLoad { .. } => "debugload",
        }
    }

    /// Whether it is built.
    pub fn is_built(&self) -> bool
        ensures { result ≡ given.is_built self.now }
    {
        match self {
            Command::Status(_)
            | Command::Add { .. }
            | Command::Forget { .. }
            | Command::Remove { .. }
            | Command::Copy { .. }
            | Command::SetParents { .. }
            | Command::DebugDirstate
            | Command::DebugScript
            | Command::DebugLoad { .. } => true,
        }
    }

    // Whether it is about files that are gone.
    pub(crate) fn is_after(&self) -> bool
        ensures { result ≡ given.is_after self.now }
    {
        match self {
            Command::Remove { after, .. } => *after,
            _ => false,
        }
    }
}
