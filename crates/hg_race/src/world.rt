//! The world: the files, the docket, the lock, and what was published.

ghost use Rattle.std.specs.Prelude.{◌≡◌, length, replicate, IfOk};
ghost use Rattle.hg_race.specs.Enabled.{is_enabled, is_ready, is_renewable, next_id, takes_more, who_of};
ghost use Rattle.hg_race.specs.Seen.{world_of};
ghost use Rattle.hg_race.specs.World.{actor_of, holds, idle, start};

use crate::actor::{Actor, Loading};
use crate::edits::Edits;
use crate::event::Event;
use crate::parts::{Naming, Publication};
use hg_base::OutOfMemory;
use std::alloc::Global;
use std::collections::BTreeMap;

/// The files below `.hg` that the record lies in, with all that its actors know of them and all that was ever published.
#[derive(Debug, Drop)]
pub struct World {
    pub(crate) actors: Vec<Actor>,
    pub(crate) files: BTreeMap<u64, Edits>,
    pub(crate) docket: Option<Naming>,
    pub(crate) holder: Option<u32>,
    pub(crate) published: Vec<Publication>,
}

// The identifier of a new file behind a docket.
pub(crate) fn next_id(docket: Option<Naming>) -> Option<u64>
    ensures { result ≡ next_id docket }
{
    match docket {
        None => Some(0),
        Some(docket) => docket.id.checked_add(1),
    }
}

// Whether a load may be appended to.
fn takes_more(load: &Option<Loading>) -> bool
    ensures { result ≡ takes_more load.now }
{
    match load {
        None => false,
        Some(load) => load.locked & load.docket.is_some(),
    }
}

// Whether a load may be written anew.
fn is_renewable(load: &Option<Loading>) -> bool
    ensures { result ≡ is_renewable load.now }
{
    match load {
        None => false,
        Some(load) => load.locked & next_id(load.docket).is_some(),
    }
}

// Whether that actor holds the lock.
pub(crate) fn holds(holder: Option<u32>, who: u32) -> bool
    ensures { result ≡ holds holder who }
{
    match holder {
        None => false,
        Some(holder) => holder == who,
    }
}

// Whether an event has what it asks of the lock and of its actor.
fn is_ready(holder: Option<u32>, actor: &Actor, event: &Event) -> bool
    ensures { result ≡ is_ready holder actor.now event.now }
{
    match event {
        Event::ReadDocket { .. } | Event::Die { .. } => true,
        Event::ReadData { .. } => actor.reading.is_some(),
        Event::Lock { .. } => holder.is_none(),
        Event::Append { who, .. } => holds(holder, *who)
            & (takes_more(&actor.load) & actor.writing.is_none()),
        Event::NewFile { who, .. } => holds(holder, *who)
            & (is_renewable(&actor.load) & actor.writing.is_none()),
        Event::Swap { .. } => actor.writing.is_some(),
        Event::Drop { .. } => actor.spare.is_some(),
        Event::Unlock { who } => holds(holder, *who),
    }
}

// So many actors that have done nothing.
fn idle_actors(alloc: Global, actors: u32) -> Result<Vec<Actor>, OutOfMemory>
    ensures { IfOk result (λ made. made.items ≡ replicate actors idle) }
{
    let mut made = Vec::new(alloc);
    for _who in 0..actors {
        made.push(Actor::idle())?;
    }
    Ok(made)
}

impl World {
    /// A world of so many actors: no file, a docket that names none, a free lock. One publication stands there, of no rows.
    pub fn new(alloc: Global, actors: u32) -> Result<World, OutOfMemory>
        ensures { IfOk result (λ w. world_of w ≡ start actors) }
    {
        let actors = idle_actors(alloc, actors)?;
        let mut published = Vec::new(alloc);
        published.push(Publication {
            docket: None,
            change: Edits::new(alloc),
            rows: Edits::new(alloc),
        })?;
        Ok(World {
            actors,
            files: BTreeMap::new(alloc),
            docket: None,
            holder: None,
            published,
        })
    }

    /// Whether the event may come now: its actor is there and alive, and it has what it asks.
    pub fn enabled(&self, e: &Event) -> bool
        ensures { result ≡ is_enabled (world_of self.now) e.now }
    {
        let who = e.who() as usize;
        if who >= self.actors.len() {
            return false;
        }
        let actor = &self.actors[who];
        !actor.dead & is_ready(self.holder, actor, e)
    }

    /// How many maps were published, the empty one with which all begins among them.
    pub fn published(&self) -> usize
        ensures { result ≡ length (world_of self.now).published }
    {
        self.published.len()
    }

    /// Whether the last reading of data by that actor found the file gone; false for an actor that isn't there.
    pub fn missed(&self, who: u32) -> bool
        ensures { result ≡ (actor_of (world_of self.now) who).missed }
    {
        let who = who as usize;
        if who >= self.actors.len() {
            return false;
        }
        self.actors[who].missed
    }
}
