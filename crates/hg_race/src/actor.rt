//! An actor: what one process has read, loaded and written and has still to do, and what each of its events makes of that.

ghost use Rattle.std.specs.Prelude.{◌≡◌, Some, None, true, false};
ghost use Rattle.hg_race.specs.Steps.{with_docket, with_data, locked_now, given_back, published_now};
ghost use Rattle.hg_race.specs.World.{idle, is_same};

use crate::edits::Edits;
use crate::parts::Naming;

/// A docket that was read and not loaded yet.
#[derive(Clone, Copy, Debug)]
pub struct Reading {
    pub docket: Option<Naming>,
    /// How many publications there were then.
    pub count: usize,
    /// It was read since the actor's present lock.
    pub locked: bool,
}

/// A load: the rows that the docket's file had in front, as many as were used.
#[derive(Debug, Drop)]
pub struct Loading {
    pub docket: Option<Naming>,
    pub rows: Edits,
    /// How many publications there were when its docket was read.
    pub count: usize,
    /// Its docket was read, or read again and found the same, since the actor's present lock.
    pub locked: bool,
}

/// A file that was written and that no docket names yet: the docket that will.
#[derive(Debug, Drop)]
pub struct Writing {
    pub docket: Naming,
    pub change: Edits,
    /// The file was made anew, so the one before it is to go.
    pub fresh: bool,
}

/// One process, as far as the files below `.hg` know of it.
#[derive(Debug, Drop)]
pub struct Actor {
    pub reading: Option<Reading>,
    pub load: Option<Loading>,
    pub writing: Option<Writing>,
    /// The file that its last new one took the place of, until it is dropped.
    pub spare: Option<u64>,
    /// Its last reading of data found the file gone.
    pub missed: bool,
    pub dead: bool,
}

// Whether two dockets are the same: both name no file, or one file with as many rows used.
fn is_same(one: Option<Naming>, other: Option<Naming>) -> bool
    ensures { result ≡ is_same one other }
{
    match (one, other) {
        (None, None) => true,
        (Some(one), Some(other)) => (one.id == other.id) & (one.used == other.used),
        _ => false,
    }
}

impl Actor {
    pub fn idle() -> Actor
        ensures { result ≡ idle }
    {
        Actor {
            reading: None,
            load: None,
            writing: None,
            spare: None,
            missed: false,
            dead: false,
        }
    }

    // It read the docket; `mine` says whether it holds the lock.
    pub fn read_docket(&mut self, docket: Option<Naming>, count: usize, mine: bool)
        ensures { self.new ≡ with_docket docket count mine self.old }
    {
        self.reading = Some(Reading {
            docket,
            count,
            locked: mine,
        });
        if let Some(load) = &mut self.load {
            let again = mine & is_same(load.docket, docket);
            load.locked |= again;
        }
    }

    // It found these rows in the file of the docket that it had read.
    pub fn load(&mut self, reading: Reading, rows: Edits)
        ensures { self.new ≡ with_data reading (Some rows) self.old }
    {
        self.reading = None;
        self.load = Some(Loading {
            docket: reading.docket,
            rows,
            count: reading.count,
            locked: reading.locked,
        });
        self.missed = false;
    }

    // It took the lock, under which it has read nothing yet.
    pub fn lock(&mut self)
        ensures { self.new ≡ locked_now self.old }
    {
        if let Some(reading) = &mut self.reading {
            reading.locked = false;
        }
        if let Some(load) = &mut self.load {
            load.locked = false;
        }
    }

    // What it wrote is published, behind the docket `before`.
    pub fn publish(&mut self, before: Option<Naming>, fresh: bool)
        ensures { self.new ≡ published_now before fresh self.old }
    {
        self.reading = None;
        self.load = None;
        self.writing = None;
        if fresh {
            self.spare = before.map(|docket| docket.id);
        }
    }

    // Its lock is gone, and what it had still to do.
    pub fn give_back(&mut self)
        ensures { self.new ≡ given_back self.old }
    {
        self.load = None;
        self.writing = None;
        self.spare = None;
    }
}
