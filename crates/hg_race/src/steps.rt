//! One event made: what each does to the files, the docket and the lock.

ghost use Rattle.std.specs.Prelude.{◌≡◌, ◌<◌, length, take, IfOk, IsTrue, OnOk, OnErr};
ghost use Rattle.hg_race.specs.Enabled.{is_enabled};
ghost use Rattle.hg_race.specs.Rows.{HoldsEach, edited};
ghost use Rattle.hg_race.specs.Seen.{world_of};
ghost use Rattle.hg_race.specs.Steps.{Makes, MakesAnew, appended, data_read, died, docket_behind, docket_read, docket_swapped, loaded_map, lock_given, lock_taken, next_behind, publication_of, rows_behind, spare_dropped, written};
ghost use Rattle.hg_race.specs.World.{actor_of, front_of, rows_in};

use crate::actor::Writing;
use crate::copies::{compact, copied, front};
use crate::edits::Edits;
use crate::event::Event;
use crate::parts::{Naming, Publication};
use crate::world::{World, holds, next_id};
use hg_base::OutOfMemory;
use std::alloc::Global;

impl World {
    // Reads the docket, under the lock where the actor holds it.
    fn read_docket(&mut self, who: u32)
        requires { who < length (world_of self.old).actors }
        ensures { world_of self.new ≡ docket_read who (world_of self.old) }
    {
        let mine = holds(self.holder, who);
        let count = self.published.len();
        let docket = self.docket;
        self.actors[who as usize].read_docket(docket, count, mine);
    }

    // The rows that a docket names, where its file is there.
    fn front(&self, alloc: Global, docket: Option<Naming>) -> Result<Option<Edits>, OutOfMemory>
        ensures { IfOk result (λ rows. rows ≡ front_of (world_of self.now).files docket) }
    {
        let Some(docket) = docket else {
            return Ok(Some(Edits::new(alloc)));
        };
        match self.files.get(&docket.id) {
            None => Ok(None),
            Some(rows) => Ok(Some(front(alloc, rows, docket.used)?)),
        }
    }

    // Reads what the docket names that the actor had read.
    fn read_data(&mut self, alloc: Global, who: u32) -> Result<(), OutOfMemory>
        requires { who < length (world_of self.old).actors }
        ensures ok { OnOk result (world_of self.new ≡ data_read who (world_of self.old)) }
        ensures err { OnErr result (world_of self.new ≡ world_of self.old) }
    {
        let Some(reading) = self.actors[who as usize].reading else {
            return Ok(());
        };
        match self.front(alloc, reading.docket)? {
            None => self.actors[who as usize].missed = true,
            Some(rows) => self.actors[who as usize].load(reading, rows),
        }
        Ok(())
    }

    // Takes the lock.
    fn lock(&mut self, who: u32)
        requires { who < length (world_of self.old).actors }
        ensures { world_of self.new ≡ lock_taken who (world_of self.old) }
    {
        self.holder = Some(who);
        self.actors[who as usize].lock();
    }

    // Writes a file, which a docket will name.
    fn write(&mut self, who: u32, writing: Writing, rows: Edits) -> Result<(), OutOfMemory>
        requires { who < length (world_of self.old).actors }
        ensures ok { OnOk result (world_of self.new ≡ written who writing rows (world_of self.old)) }
        ensures err { OnErr result (world_of self.new ≡ world_of self.old) }
    {
        self.files.insert(writing.docket.id, rows)?;
        self.actors[who as usize].writing = Some(writing);
        Ok(())
    }

    // The first rows of a file, none where it isn't there.
    fn rows_in_front(&self, alloc: Global, docket: Naming) -> Result<Edits, OutOfMemory>
        ensures { IfOk result (λ rows. rows ≡ take docket.used (rows_in (world_of self.now).files docket.id)) }
    {
        match self.files.get(&docket.id) {
            None => Ok(Edits::new(alloc)),
            Some(rows) => front(alloc, rows, docket.used),
        }
    }

    // The docket of what the actor loaded, where it names a file.
    fn loaded_docket(&self, who: u32) -> Option<Naming>
        requires { who < length (world_of self.now).actors }
        ensures { result ≡ docket_behind (actor_of (world_of self.now) who).load }
    {
        match &self.actors[who as usize].load {
            None => None,
            Some(load) => load.docket,
        }
    }

    // Writes the change behind the used rows of the file that the actor loaded.
    fn append(&mut self, alloc: Global, who: u32, change: &Edits) -> Result<(), OutOfMemory>
        requires { who < length (world_of self.old).actors }
        ensures ok { OnOk result (world_of self.new ≡ appended who change.now (world_of self.old)) }
        ensures err { OnErr result (world_of self.new ≡ world_of self.old) }
    {
        let Some(docket) = self.loaded_docket(who) else {
            return Ok(());
        };
        let mut rows = self.rows_in_front(alloc, docket)?;
        rows.add(alloc, change.as_slice())?;
        let writing = Writing {
            docket: Naming {
                id: docket.id,
                used: rows.len(),
            },
            change: copied(alloc, change)?,
            fresh: false,
        };
        self.write(who, writing, rows)
    }

    // The identifier of a new file behind the one that the actor loaded.
    fn loaded_next(&self, who: u32) -> Option<u64>
        requires { who < length (world_of self.now).actors }
        ensures { result ≡ next_behind (actor_of (world_of self.now) who).load }
    {
        match &self.actors[who as usize].load {
            None => None,
            Some(load) => next_id(load.docket),
        }
    }

    // The rows that the actor loaded.
    fn loaded_rows(&self, alloc: Global, who: u32) -> Result<Edits, OutOfMemory>
        requires { who < length (world_of self.now).actors }
        ensures { IfOk result (λ rows. rows ≡ rows_behind (actor_of (world_of self.now) who).load) }
    {
        match &self.actors[who as usize].load {
            None => Ok(Edits::new(alloc)),
            Some(load) => copied(alloc, &load.rows),
        }
    }

    // One row for each path of what the actor loaded, after the change.
    #[tactic(auto, using(crate::proofs::Copying::holds_behind))]
    fn renewed_rows(&self, alloc: Global, who: u32, change: &Edits) -> Result<Edits, OutOfMemory>
        requires { who < length (world_of self.now).actors }
        ensures { IfOk result (λ rows. HoldsEach rows (edited change.now (loaded_map (actor_of (world_of self.now) who).load))) }
    {
        let mut rows = self.loaded_rows(alloc, who)?;
        rows.add(alloc, change.as_slice())?;
        compact(alloc, &rows)
    }

    // Writes a new file: what the actor loaded, after the change.
    fn make_anew(&mut self, alloc: Global, who: u32, change: &Edits) -> Result<(), OutOfMemory>
        requires { who < length (world_of self.old).actors }
        ensures ok { OnOk result (MakesAnew who change.now (world_of self.old) (world_of self.new)) }
        ensures err { OnErr result (world_of self.new ≡ world_of self.old) }
    {
        let rows = self.renewed_rows(alloc, who, change)?;
        let Some(id) = self.loaded_next(who) else {
            return Ok(());
        };
        let writing = Writing {
            docket: Naming {
                id,
                used: rows.len(),
            },
            change: copied(alloc, change)?,
            fresh: true,
        };
        self.write(who, writing, rows)
    }

    // What is published of a write.
    fn publication(&self, alloc: Global, writing: &Writing) -> Result<Publication, OutOfMemory>
        ensures { IfOk result (λ made. made ≡ publication_of (world_of self.now).files writing.now) }
    {
        Ok(Publication {
            docket: Some(writing.docket),
            change: copied(alloc, &writing.change)?,
            rows: self.rows_in_front(alloc, writing.docket)?,
        })
    }

    // Puts a docket in place that names what the actor wrote.
    fn swap_docket(&mut self, alloc: Global, who: u32) -> Result<(), OutOfMemory>
        requires { who < length (world_of self.old).actors }
        ensures ok { OnOk result (world_of self.new ≡ docket_swapped who (world_of self.old)) }
        ensures err { OnErr result (world_of self.new ≡ world_of self.old) }
    {
        let Some(writing) = &self.actors[who as usize].writing else {
            return Ok(());
        };
        let docket = writing.docket;
        let fresh = writing.fresh;
        let publication = self.publication(alloc, writing)?;
        self.published.push(publication)?;
        let before = self.docket;
        self.actors[who as usize].publish(before, fresh);
        self.docket = Some(docket);
        Ok(())
    }

    // Removes the file that the actor's new one took the place of.
    fn drop_spare(&mut self, who: u32)
        requires { who < length (world_of self.old).actors }
        ensures { world_of self.new ≡ spare_dropped who (world_of self.old) }
    {
        if let Some(id) = self.actors[who as usize].spare {
            let _ = self.files.remove(&id);
            self.actors[who as usize].spare = None;
        }
    }

    // Gives the lock back.
    fn unlock(&mut self, who: u32)
        requires { who < length (world_of self.old).actors }
        ensures { world_of self.new ≡ lock_given who (world_of self.old) }
    {
        self.holder = None;
        self.actors[who as usize].give_back();
    }

    // Dies, and frees the lock where the actor holds it.
    fn die(&mut self, who: u32)
        requires { who < length (world_of self.old).actors }
        ensures { world_of self.new ≡ died who (world_of self.old) }
    {
        if holds(self.holder, who) {
            self.holder = None;
        }
        let actor = &mut self.actors[who as usize];
        actor.give_back();
        actor.dead = true;
    }

    /// Makes the event, which has to be enabled. Where memory is short nothing has changed.
    pub fn step(&mut self, alloc: Global, e: &Event) -> Result<(), OutOfMemory>
        requires { IsTrue (is_enabled (world_of self.old) e.now) }
        ensures ok { OnOk result (Makes e.now (world_of self.old) (world_of self.new)) }
        ensures err { OnErr result (world_of self.new ≡ world_of self.old) }
    {
        match e {
            Event::ReadDocket { who } => self.read_docket(*who),
            Event::ReadData { who } => self.read_data(alloc, *who)?,
            Event::Lock { who } => self.lock(*who),
            Event::Append { who, change } => self.append(alloc, *who, change)?,
            Event::NewFile { who, change } => self.make_anew(alloc, *who, change)?,
            Event::Swap { who } => self.swap_docket(alloc, *who)?,
            Event::Drop { who } => self.drop_spare(*who),
            Event::Unlock { who } => self.unlock(*who),
            Event::Die { who } => self.die(*who),
        }
        Ok(())
    }
}
