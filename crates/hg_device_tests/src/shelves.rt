//! Files below `.hg` in memory: what calls answer, and what a crash leaves.
use hg_base::{Blob, Failed, Got, Text};
use hg_case_tests::{Play, agree, bytes, number, print, word};
use hg_shelf::{Asked, MemShelf, Outside, Shelf};
use std::alloc::Global;
use std::string::String;
use std::test::Fail;

// The calls, each by itself: what they promise isn't carried through a case.
fn place(alloc: Global, shelf: &mut MemShelf, step: &str) -> Result<(), Fail> {
    let bytes = bytes(alloc, word(step, 2))?;
    shelf.place(word(step, 1), bytes.as_slice())?;
    Ok(())
}

fn size(shelf: &mut MemShelf, name: &str) -> Result<Option<u64>, Failed> {
    shelf.size(name)
}

fn read(shelf: &mut MemShelf, name: &str, place: u64, buf: &mut [u8]) -> Result<Got, Failed> {
    shelf.read_at(name, place, buf)
}

fn write(shelf: &mut MemShelf, name: &str, place: u64, bytes: &str) -> Result<(), Failed> {
    shelf.write_at(name, place, bytes.as_bytes())
}

fn sync(shelf: &mut MemShelf, name: &str) -> Result<(), Failed> {
    shelf.sync(name)
}

fn rename(shelf: &mut MemShelf, from: &str, to: &str) -> Result<(), Failed> {
    shelf.rename(from, to)
}

fn sync_names(shelf: &mut MemShelf) -> Result<(), Failed> {
    shelf.sync_names()
}

fn remove(shelf: &mut MemShelf, name: &str) -> Result<(), Failed> {
    shelf.remove(name)
}

fn lock(shelf: &mut MemShelf) -> Result<bool, Failed> {
    shelf.lock()
}

fn unlock(shelf: &mut MemShelf) -> Result<(), Failed> {
    shelf.unlock()
}

// Another puts a file, or removes one, just before a call.
fn due(alloc: Global, shelf: &mut MemShelf, step: &str) -> Result<(), Fail> {
    let name = Text::of(alloc, word(step, 3))?;
    let outside = if word(step, 2) == "place" {
        let bytes = Blob::of(alloc, word(step, 4).as_bytes())?;
        Outside::Place { name, bytes }
    } else {
        Outside::Remove { name }
    };
    shelf.due(number(step, 1)?, outside)?;
    Ok(())
}

// What a crash leaves stands in the place of the shelf.
fn crash(shelf: &mut MemShelf, step: &str) -> Result<(), Fail> {
    let moment = number(step, 1)?.min(shelf.calls());
    let pick = u8::try_from(number(step, 2)?)?;
    let left = shelf.crashed(moment, pick)?;
    *shelf = left;
    Ok(())
}

// What a call gave, and the buffer of which it filled the beginning.
fn read_step(shelf: &mut MemShelf, step: &str, answer: &mut String) -> Result<(), Fail> {
    let mut buf = [b'.'; 4];
    match read(shelf, word(step, 1), number(step, 2)?, &mut buf) {
        Ok(got) => write!(answer, " {got:?} ")?,
        Err(fault) => write!(answer, " {fault:?} ")?,
    }
    print(answer, &buf)
}

// The file, of at most 32 bytes, or a dash.
fn show(shelf: &mut MemShelf, name: &str, answer: &mut String) -> Result<(), Fail> {
    let mut buf = [0; 32];
    match read(shelf, name, 0, &mut buf)? {
        Got::Absent => answer.push_str(" -")?,
        Got::Bytes(len) => {
            answer.push(' ')?;
            print(answer, buf.get(..len).unwrap_or(&[]))?;
        }
    }
    Ok(())
}

fn answered(shelf: &mut MemShelf, step: &str) -> Result<Result<(), Failed>, Fail> {
    let name = word(step, 1);
    Ok(match word(step, 0) {
        "write" => write(shelf, name, number(step, 2)?, word(step, 3)),
        "sync" => sync(shelf, name),
        "rename" => rename(shelf, name, word(step, 2)),
        "sync_names" => sync_names(shelf),
        "remove" => remove(shelf, name),
        "unlock" => unlock(shelf),
        _ => return Err(Fail::new("no such step")),
    })
}

fn changed(shelf: &mut MemShelf, step: &str, answer: &mut String) -> Result<(), Fail> {
    let done = answered(shelf, step)?;
    write!(answer, " {done:?}")?;
    Ok(())
}

fn sized(shelf: &mut MemShelf, name: &str, answer: &mut String) -> Result<(), Fail> {
    let size = size(shelf, name);
    write!(answer, " {size:?}")?;
    Ok(())
}

fn locked(shelf: &mut MemShelf, answer: &mut String) -> Result<(), Fail> {
    let locked = lock(shelf);
    write!(answer, " {locked:?}")?;
    Ok(())
}

fn counted(shelf: &MemShelf, answer: &mut String) -> Result<(), Fail> {
    let calls = shelf.calls();
    write!(answer, " {calls} calls")?;
    Ok(())
}

// What was asked, and what the calls of the lock came to at which moments.
fn tell(shelf: &MemShelf, answer: &mut String) -> Result<(), Fail> {
    for ask in shelf.asked() {
        match ask {
            Asked::Size { name } => write!(answer, " size {}", name.as_str())?,
            Asked::Read {
                name,
                place,
                length,
            } => write!(answer, " read {} {} {}", name.as_str(), *place, *length)?,
        }
    }
    for call in shelf.locks() {
        write!(answer, " {:?} at {}", call.answer, call.moment)?;
    }
    Ok(())
}

fn done(alloc: Global, shelf: &mut MemShelf, step: &str, answer: &mut String) -> Result<(), Fail> {
    match word(step, 0) {
        "place" => place(alloc, shelf, step),
        "due" => due(alloc, shelf, step),
        "fail" => Ok(shelf.fail_at(number(step, 1)?)?),
        "hold" => {
            shelf.hold(word(step, 1) == "true");
            Ok(())
        }
        "crash" => crash(shelf, step),
        "size" => sized(shelf, word(step, 1), answer),
        "read" => read_step(shelf, step, answer),
        "show" => show(shelf, word(step, 1), answer),
        "lock" => locked(shelf, answer),
        "calls" => counted(shelf, answer),
        "tell" => tell(shelf, answer),
        _ => changed(shelf, step, answer),
    }
}

pub(crate) struct Shelves;

impl Play for Shelves {
    fn play(alloc: Global, steps: &str, answer: &mut String) -> Result<(), Fail> {
        let mut shelf = MemShelf::new(alloc)?;
        for step in steps.split(';') {
            take(alloc, &mut shelf, step.trim(), answer)?;
        }
        Ok(())
    }
}

/// Does a step; one whose answer isn't looked at stands behind `mute`.
pub(crate) fn take(
    alloc: Global,
    shelf: &mut MemShelf,
    step: &str,
    answer: &mut String,
) -> Result<(), Fail> {
    match step.strip_prefix("mute ") {
        Some(step) => done(alloc, shelf, step, &mut String::new(alloc)),
        None => done(alloc, shelf, step, answer),
    }
}

// A file of `.hg` whose bytes are told, and others of no such name.
const SIZES: &str = r"
size dirstate => Ok(Some(3))
size branch => Ok(Some(0))
fail 0; size dirstate => Err(Failed)
size Branch => Ok(None)
size \e => Ok(None)
fail 2; size dirstate; size branch; size dirstate; size Branch; size \e => Ok(Some(3)) Ok(Some(0)) Err(Failed) Ok(None) Ok(None)
";

#[test]
fn tells_sizes(rt: HostRuntime) -> Result<(), Fail> {
    let before = r"place dirstate dirstate-v2\n; place dirstate v2\n; place branch \e; ";
    agree::<Shelves>(rt.alloc(), before, SIZES)
}

// The greatest place is 2^64 - 1.
const READS: &str = r"
read dirstate 0 => Bytes(4) abcd
read dirstate 2 => Bytes(4) cdef
read dirstate 4 => Bytes(2) ef..
read dirstate 6 => Bytes(0) ....
read dirstate 7 => Bytes(0) ....
read dirstate 18446744073709551615 => Bytes(0) ....
read data 0 => Absent ....
fail 0; read dirstate 0 => Failed ....
";

#[test]
fn reads_past_a_place(rt: HostRuntime) -> Result<(), Fail> {
    agree::<Shelves>(rt.alloc(), "place dirstate abcdef; ", READS)?;
    Ok(())
}

// What a write leaves of a file, and how many calls that and the look at it made.
const WRITES: &str = r"
place data abcdef; write data 0 XY; show data; calls => Ok(()) XYcdef 2 calls
place data abcdef; write data 1 XY; show data; calls => Ok(()) aXYdef 2 calls
place data abcdef; write data 5 XY; show data; calls => Ok(()) abcdeXY 2 calls
place data abcdef; write data 6 XY; show data; calls => Ok(()) abcdefXY 2 calls
place data ab; write data 4 XY; show data; calls => Ok(()) ab\0\0XY 2 calls
place data \e; write data 2 X; show data; calls => Ok(()) \0\0X 2 calls
place data abc; write data 1; show data; calls => Ok(()) abc 2 calls
place data abc; write data 5; show data; calls => Ok(()) abc\0\0 2 calls
place data abc; write data 18446744073709551615 X; show data; calls => Err(Failed) abc 2 calls
";

#[test]
fn writes_at_a_place(rt: HostRuntime) -> Result<(), Fail> {
    agree::<Shelves>(rt.alloc(), "", WRITES)
}

const MAKES: &str = r"
size data => Ok(None)
write data 0; size data => Ok(()) Ok(Some(0))
write data 0; write data 1 b; sync data; sync branch; sync_names; size data; size branch => Ok(()) Ok(()) Ok(()) Ok(()) Ok(()) Ok(Some(2)) Ok(None)
";

#[test]
fn makes_an_absent_file(rt: HostRuntime) -> Result<(), Fail> {
    agree::<Shelves>(rt.alloc(), "", MAKES)
}

// `one` has one byte and `two` has two.
const MOVES: &str = r"
rename one two; size one; size two; size three => Ok(()) Ok(None) Ok(Some(1)) Ok(None)
rename one three; size one; size two; size three => Ok(()) Ok(None) Ok(Some(2)) Ok(Some(1))
rename two one; size one; size two; size three => Ok(()) Ok(Some(2)) Ok(None) Ok(None)
rename one one; size one; size two; size three => Ok(()) Ok(Some(1)) Ok(Some(2)) Ok(None)
rename three one; size one; size two; size three => Ok(()) Ok(Some(1)) Ok(Some(2)) Ok(None)
rename three three; size one; size two; size three => Ok(()) Ok(Some(1)) Ok(Some(2)) Ok(None)
remove one; size one; size two => Ok(()) Ok(None) Ok(Some(2))
remove three; size one; size two => Ok(()) Ok(Some(1)) Ok(Some(2))
fail 0; write one 1 b; size one; size two => Err(Failed) Ok(Some(1)) Ok(Some(2))
fail 0; sync one; size one; size two => Err(Failed) Ok(Some(1)) Ok(Some(2))
fail 0; rename one two; size one; size two => Err(Failed) Ok(Some(1)) Ok(Some(2))
fail 0; sync_names; size one; size two => Err(Failed) Ok(Some(1)) Ok(Some(2))
fail 0; remove one; size one; size two => Err(Failed) Ok(Some(1)) Ok(Some(2))
fail 0; unlock; size one; size two => Err(Failed) Ok(Some(1)) Ok(Some(2))
fail 0; fail 1; write one 1 b; sync one; sync one => Err(Failed) Err(Failed) Ok(())
";

#[test]
fn renames_removes_and_fails(rt: HostRuntime) -> Result<(), Fail> {
    agree::<Shelves>(rt.alloc(), "place one a; place two ab; ", MOVES)?;
    Ok(())
}

const LOCKS: &str = r"
hold true; lock => Ok(false)
hold true; lock; hold false; fail 1; lock; lock; unlock; unlock; calls => Ok(false) Err(Failed) Ok(true) Ok(()) Ok(()) 5 calls
due 1 place one abc; size one; size one => Ok(None) Ok(Some(3))
due 1 place one abc; due 2 remove one; due 2 place two ab; fail 2; size one; size one; write two 2 c; size one; size two => Ok(None) Ok(Some(3)) Err(Failed) Ok(None) Ok(Some(2))
";

#[test]
fn takes_the_lock_and_lets_others_act(rt: HostRuntime) -> Result<(), Fail> {
    agree::<Shelves>(rt.alloc(), "", LOCKS)
}

// Only sizes and reads are told by their names, reads with their place and length, and calls of the lock with the last moment at their end.
const TELLS: &str = r"
tell =>
mute size one; mute read two 0; mute size one; tell => size one read two 0 4 size one
fail 0; fail 1; mute size one; mute read one 3; tell => size one read one 3 4
mute write one 0 a; mute sync one; mute rename one two; mute sync_names; mute remove two; tell =>
mute lock; mute write one 0 a; mute unlock; tell => Taken at 0 GivenBack at 1
hold true; mute lock; hold false; mute lock; tell => Refused at 0 Taken at 0
due 1 place one a; fail 0; fail 2; mute lock; mute lock; mute unlock; tell => NotTaken at 0 Taken at 1 NotGivenBack at 1
";

#[test]
fn tells_its_calls(rt: HostRuntime) -> Result<(), Fail> {
    agree::<Shelves>(rt.alloc(), "", TELLS)
}
