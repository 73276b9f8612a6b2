//! Readers and writers in several processes: to which world a list of events leads, or where it is refused.
ghost use Rattle.std.specs.Prelude.{IfOk, ◌<◌, ◌^◌, length, vec_len};

use hg_base::Path;
use hg_case_tests::{Play, agree, number, word};
use hg_race::{Edit, Edits, Event, RaceFault, World, run};
use std::alloc::Global;
use std::string::String;
use std::test::Fail;

// A change that takes the entry of one path away.
fn change(alloc: Global, path: &str) -> Result<Edits, Fail> {
    let mut change = Edits::new(alloc);
    if let Ok(path) = Path::read(alloc, path) {
        change.push(Edit { path, entry: None })?;
    }
    Ok(change)
}

// What is done, by whom, and where something is written a path.
fn event(alloc: Global, step: &str) -> Result<Event, Fail> {
    let who = u32::try_from(number(step, 1)?)?;
    let event = match word(step, 0) {
        "docket" => Event::ReadDocket { who },
        "data" => Event::ReadData { who },
        "lock" => Event::Lock { who },
        "append" => Event::Append {
            who,
            change: change(alloc, word(step, 2))?,
        },
        "new" => Event::NewFile {
            who,
            change: change(alloc, word(step, 2))?,
        },
        "swap" => Event::Swap { who },
        "drop" => Event::Drop { who },
        "unlock" => Event::Unlock { who },
        "die" => Event::Die { who },
        _ => return Err(Fail::new("no event")),
    };
    Ok(event)
}

fn events(alloc: Global, steps: &str) -> Result<Vec<Event>, Fail>
    ensures { IfOk result (λ events. vec_len events < 2 ^ 32) }
{
    let mut events = Vec::new(alloc);
    for step in steps.split(';') {
        events.push(event(alloc, step.trim())?)?;
    }
    if events.len() > 1000 {
        return Err(Fail::new("too many events"));
    }
    Ok(events)
}

fn made(alloc: Global, events: &[Event]) -> Result<World, RaceFault>
    requires { length events.now < 2 ^ 32 }
{
    run(alloc, 2, events)
}

// How many maps were published, and whether the first actor missed a file, and the second.
struct Races;

impl Play for Races {
    fn play(alloc: Global, steps: &str, answer: &mut String) -> Result<(), Fail> {
        let events = events(alloc, steps)?;
        match made(alloc, events.as_slice()) {
            Ok(world) => {
                let published = world.published();
                let first = world.missed(0);
                let second = world.missed(1);
                Ok(write!(answer, "{published} {first} {second}")?)
            }
            Err(fault) => Ok(write!(answer, "{fault:?}")?),
        }
    }
}

const RACES: &str = "
lock 0; lock 1 => NotEnabled { at: 1 }
lock 0; die 0; lock 1 => 1 false false
die 0; docket 0 => NotEnabled { at: 1 }
docket 2 => NotEnabled { at: 0 }
docket 0; data 0; data 0 => NotEnabled { at: 2 }
lock 1; docket 1; data 1; new 1 a; swap 1; unlock 1; docket 0; lock 1; docket 1; data 1; new 1 a; swap 1; drop 1; data 0 => 3 true false
lock 1; docket 1; data 1; new 1 a; swap 1; unlock 1; docket 0; lock 1; docket 1; data 1; new 1 a; swap 1; data 0 => 3 false false
lock 1; docket 1; data 1; new 1 a; swap 1; unlock 1; docket 0; lock 1; docket 1; data 1; append 1 a; swap 1; drop 1 => NotEnabled { at: 12 }
lock 1; docket 1; data 1; append 1 a; swap 1; unlock 1; docket 0; lock 1; docket 1; data 1; new 1 a; swap 1; drop 1; data 0 => NotEnabled { at: 3 }
lock 0; docket 0; unlock 0; lock 0; data 0; new 0 a => NotEnabled { at: 5 }
lock 0; docket 0; data 0; unlock 0; lock 0; new 0 a => NotEnabled { at: 5 }
docket 0; data 0; lock 0; docket 0; new 0 a; swap 0 => 2 false false
";

#[test]
fn leads_to_a_world_or_is_refused(rt: HostRuntime) -> Result<(), Fail> {
    agree::<Races>(rt.alloc(), "", RACES)
}
