//! What a process may do to the files below `.hg`: one call each, or its death.

ghost use Rattle.std.specs.Prelude.{◌≡◌};
ghost use Rattle.hg_race.specs.Enabled.{who_of};

use crate::edits::Edits;

/// One step of one actor, whose number is `who`.
#[derive(Debug, Drop)]
pub enum Event {
    /// Reads the docket.
    ReadDocket { who: u32 },
    /// Reads the data file that the docket named which it read before.
    ReadData { who: u32 },
    /// Takes the lock.
    Lock { who: u32 },
    /// Writes the change behind the used rows of the file that it loaded.
    Append { who: u32, change: Edits },
    /// Writes a file with the next identifier: what it loaded, after the change.
    NewFile { who: u32, change: Edits },
    /// Puts a docket in place that names what was written.
    Swap { who: u32 },
    /// Removes the file that its last new one took the place of.
    Drop { who: u32 },
    /// Gives the lock back.
    Unlock { who: u32 },
    /// Dies, and the lock is free where it was held.
    Die { who: u32 },
}

impl Event {
    // Whose event it is.
    pub(crate) fn who(&self) -> u32
        ensures { result ≡ who_of self.now }
    {
        match self {
            Event::ReadDocket { who } => *who,
            Event::ReadData { who } => *who,
            Event::Lock { who } => *who,
            Event::Append { who, .. } => *who,
            Event::NewFile { who, .. } => *who,
            Event::Swap { who } => *who,
            Event::Drop { who } => *who,
            Event::Unlock { who } => *who,
            Event::Die { who } => *who,
        }
    }
}
