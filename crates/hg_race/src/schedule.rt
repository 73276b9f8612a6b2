//! A list of events, made one after another.

ghost use Rattle.std.specs.Prelude.{◌≡◌, ◌<◌, ◌^◌, length, IfOk, IfErr};
ghost use Rattle.hg_race.specs.Running.{HasRaceCause};
ghost use Rattle.hg_race.specs.Safe.{IsSafe};
ghost use Rattle.hg_race.specs.Seen.{world_of};
ghost use Rattle.hg_race.specs.Steps.{Reaches};
ghost use Rattle.hg_race.specs.declared.schedule.RaceFault.TheVariants as a_fault;

use crate::event::Event;
use crate::world::World;
use hg_base::OutOfMemory;
use std::alloc::Global;

/// Why a list of events leads to no world.
#[derive(Clone, Copy, Debug, PartialEq, Eq)]
pub enum RaceFault {
    /// No memory.
    OutOfMemory,
    /// The event at this place of the list, counted from 0, isn't enabled behind those before it: the first such.
    NotEnabled { at: u32 },
}

impl From<OutOfMemory> for RaceFault {
    ghost from_gives = { λ _ e. e ≡ a_fault.OutOfMemory };

    fn from(_: OutOfMemory) -> RaceFault {
        RaceFault::OutOfMemory
    }
}

/// The world to which the events lead, one after another, from the start of so many actors.
pub fn run(alloc: Global, actors: u32, events: &[Event]) -> Result<World, RaceFault>
    requires { length events.now < 2 ^ 32 }
    ensures reached { IfOk result (λ w. Reaches actors events.now (world_of w)) }
    ensures safe { IfOk result (λ w. IsSafe (world_of w)) }
    ensures cause { IfErr result (HasRaceCause actors events.now) }
{
    let mut world = World::new(alloc, actors)?;
    for (at, event) in events.iter().enumerate() {
        if !world.enabled(event) {
            return Err(RaceFault::NotEnabled { at: at as u32 });
        }
        world.step(alloc, event)?;
    }
    Ok(world)
}
