// Notes of what a shelf in memory is asked.
ghost use Rattle.std.specs.Prelude.{◌≡◌, ◌∷◌, ◌++◌, [], length, OnOk, OnErr};
ghost use Rattle.hg_shelf.specs.declared.asked.Asked.TheVariants as an_ask;

use crate::asked::{Asked, LockAnswer, LockCall};
use crate::log::Log;
use hg_base::{OutOfMemory, Text};
use std::alloc::Global;

/// A size is asked for.
pub fn note_size(alloc: Global, asked: &mut Vec<Asked>, name: &str) -> Result<(), OutOfMemory>
    ensures ok { OnOk result (asked.new.items ≡ asked.old.items ++ an_ask.Size name.now ∷ []) }
    ensures err { OnErr result (asked.new.items ≡ asked.old.items) }
{
    let name = Text::of(alloc, name)?;
    asked.push(Asked::Size { name })?;
    Ok(())
}

/// So many bytes from a place on are asked for.
pub fn note_read(
    alloc: Global,
    asked: &mut Vec<Asked>,
    name: &str,
    place: u64,
    length: u64,
) -> Result<(), OutOfMemory>
    ensures ok { OnOk result (asked.new.items ≡ asked.old.items ++ an_ask.Read name.now place length ∷ []) }
    ensures err { OnErr result (asked.new.items ≡ asked.old.items) }
{
    let name = Text::of(alloc, name)?;
    asked.push(Asked::Read {
        name,
        place,
        length,
    })?;
    Ok(())
}

/// What a call of the lock came to, at the last moment.
pub fn note_lock(
    locks: &mut Vec<LockCall>,
    answer: LockAnswer,
    log: &Log,
) -> Result<(), OutOfMemory>
    ensures ok { OnOk
        result
        (locks.new.items ≡ locks.old.items ++ record { answer = answer; moment = length log.now } ∷ []) }
    ensures err { OnErr result (locks.new.items ≡ locks.old.items) }
{
    let moment = log.changes().len() as u64;
    locks.push(LockCall { answer, moment })?;
    Ok(())
}
