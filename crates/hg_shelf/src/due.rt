// What others change just before a call of a shelf in memory.
ghost use Rattle.std.specs.Prelude.{◌≡◌, true, ◌==◌, ◌∷◌, ◌++◌, [], OnOk, OnErr};
ghost use Rattle.hg_shelf.specs.Memory.{Stops, coming_of};

use crate::log::Log;
use crate::outside::{Change, Due};
use crate::steps::step_of;
use hg_base::OutOfMemory;
use std::alloc::Global;

// Makes a change if it is due at that call.
fn make_one(
    alloc: Global,
    log: &mut Log,
    one: &Due,
    call: u64,
    ours: bool,
) -> Result<(), OutOfMemory>
    ensures ok { OnOk result (log.new ≡ log.old ++ coming_of call ours (one.now ∷ [])) }
    ensures err { OnErr result (log.new ≡ log.old) }
    ensures there { OnErr result ((one.now.call == call) ≡ true) }
{
    if one.call != call {
        return Ok(());
    }
    let what = step_of(alloc, &one.change)?;
    log.make(Change {
        call,
        by_us: false,
        under_lock: ours,
        what,
    })?;
    Ok(())
}

/// Makes what is due at that call.
pub fn make_due(
    alloc: Global,
    log: &mut Log,
    due: &[Due],
    call: u64,
    ours: bool,
) -> Result<(), OutOfMemory>
    ensures ok { OnOk result (log.new ≡ log.old ++ coming_of call ours due.now) }
    ensures err { OnErr result (Stops log.old (coming_of call ours due.now) log.new) }
{
    for one in due {
        make_one(alloc, log, one, call, ours)?;
    }
    Ok(())
}
