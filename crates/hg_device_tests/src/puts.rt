//! A working copy in memory: what its caller puts and takes away.
use crate::trees::{NOON, SAMPLE, at, done};
use hg_base::{Blob, Failed, Kind, Path, PathRef};
use hg_case_tests::{Play, agree, bytes, number, word};
use hg_tree::{MemTree, Outside, Thing, Tree};
use std::alloc::Global;
use std::string::String;
use std::test::Fail;

// The calls, each by itself: what they promise isn't carried through a case.
fn unlink(tree: &mut MemTree, path: PathRef<'_>) -> Result<bool, Failed> {
    tree.unlink(path)
}

fn put_file(
    tree: &mut MemTree,
    path: PathRef<'_>,
    exec: bool,
    place: u64,
    bytes: &[u8],
) -> Result<bool, Failed> {
    tree.put(path, Kind::File, exec, place, bytes)
}

fn put_link(
    tree: &mut MemTree,
    path: PathRef<'_>,
    place: u64,
    bytes: &[u8],
) -> Result<bool, Failed> {
    tree.put(path, Kind::Link, false, place, bytes)
}

// A file, a program or a link.
fn put(tree: &mut MemTree, step: &str, bytes: &[u8]) -> Result<Result<bool, Failed>, Fail> {
    let path = PathRef::read(word(step, 1))?;
    let place = number(step, 3)?;
    match word(step, 2) {
        "file" => Ok(put_file(tree, path, false, place, bytes)),
        "program" => Ok(put_file(tree, path, true, place, bytes)),
        "link" => Ok(put_link(tree, path, place, bytes)),
        _ => Err(Fail::new("no such kind")),
    }
}

fn put_word(
    alloc: Global,
    tree: &mut MemTree,
    step: &str,
    answer: &mut String,
) -> Result<(), Fail> {
    let bytes = bytes(alloc, word(step, 4))?;
    let done = put(tree, step, bytes.as_slice())?;
    write!(answer, " {done:?}")?;
    Ok(())
}

// Bytes that are told by their number.
fn put_many(
    alloc: Global,
    tree: &mut MemTree,
    step: &str,
    answer: &mut String,
) -> Result<(), Fail> {
    let count = usize::try_from(number(step, 4)?)?;
    let bytes = vec![in alloc; b'x'; count]?;
    let done = put(tree, step, bytes.as_slice())?;
    write!(answer, " {done:?}")?;
    Ok(())
}

fn take_away(tree: &mut MemTree, step: &str, answer: &mut String) -> Result<(), Fail> {
    let done = unlink(tree, PathRef::read(word(step, 1))?);
    write!(answer, " {done:?}")?;
    Ok(())
}

// Another is to place a file or a directory just before a call, to take away what stands there, or to set the clock.
fn due(alloc: Global, tree: &mut MemTree, step: &str) -> Result<(), Fail> {
    let call = number(step, 1)?;
    match word(step, 2) {
        "file" => due_file(alloc, tree, call, step),
        "dir" => due_dir(alloc, tree, call, step),
        "clock" => due_clock(tree, call, step),
        _ => due_take(alloc, tree, call, step),
    }
}

fn due_file(alloc: Global, tree: &mut MemTree, call: u64, step: &str) -> Result<(), Fail> {
    let path = Path::of(alloc, PathRef::read(word(step, 3))?)?;
    let bytes = Blob::of(alloc, word(step, 4).as_bytes())?;
    let thing = Thing::File { exec: false, bytes };
    let mtime = at(number(step, 5)?);
    tree.due(call, Outside::Place { path, thing, mtime })?;
    Ok(())
}

fn due_dir(alloc: Global, tree: &mut MemTree, call: u64, step: &str) -> Result<(), Fail> {
    let path = Path::of(alloc, PathRef::read(word(step, 3))?)?;
    let (thing, mtime) = (Thing::Dir, at(number(step, 4)?));
    tree.due(call, Outside::Place { path, thing, mtime })?;
    Ok(())
}

fn due_take(alloc: Global, tree: &mut MemTree, call: u64, step: &str) -> Result<(), Fail> {
    let path = Path::of(alloc, PathRef::read(word(step, 3))?)?;
    tree.due(call, Outside::Take { path })?;
    Ok(())
}

fn due_clock(tree: &mut MemTree, call: u64, step: &str) -> Result<(), Fail> {
    let to = at(number(step, 3)?);
    tree.due(call, Outside::Clock { to })?;
    Ok(())
}

fn changed(alloc: Global, tree: &mut MemTree, step: &str, answer: &mut String) -> Result<(), Fail> {
    match word(step, 0) {
        "put" => put_word(alloc, tree, step, answer),
        "many" => put_many(alloc, tree, step, answer),
        "unlink" => take_away(tree, step, answer),
        "due" => due(alloc, tree, step),
        _ => done(alloc, tree, step, answer),
    }
}

struct Puts;

impl Play for Puts {
    fn play(alloc: Global, steps: &str, answer: &mut String) -> Result<(), Fail> {
        let mut tree = MemTree::new(alloc, NOON)?;
        for step in steps.split(';') {
            changed(alloc, &mut tree, step.trim(), answer)?;
        }
        Ok(())
    }
}

// Whatever is put or loses a name has the clock's time, 43200.
const UNLINKS: &str = r"
unlink a; stat a; list -; unlink a => Ok(true) nothing d Ok(false)
unlink d/e/f; stat d/e/f; list d/e; list d; stat d/e; stat d => Ok(true) nothing e g Dir false 0 43200 Dir false 0 2
unlink d; unlink d/e; unlink d/g; list d; stat d/g => Ok(false) Ok(false) Ok(false) e g Other false 0 0
unlink b; unlink a/b; unlink d/e/f/g; unlink d/x/y; list -; stat a => Ok(false) Ok(false) Ok(false) Ok(false) a d File true 5 1
unlink a; unlink d/e/f; asked => Ok(true) Ok(true)
";

#[test]
fn takes_files_and_links(rt: HostRuntime) -> Result<(), Fail> {
    agree::<Puts>(rt.alloc(), SAMPLE, UNLINKS)
}

const ANEW: &str = r"
put b file 0 hi; stat b; read b 0; list - => Ok(true) File false 2 43200 Bytes(2) hi.. a b d
put b program 0 \e; stat b; put b link 0 a; stat b; read b 0 => Ok(true) File true 0 43200 Ok(true) Link false 1 43200 Bytes(1) a...
put a file 0 hi; stat a; read a 0 => Ok(true) File false 2 43200 Bytes(2) hi..
put a link 0 d; stat a; read a 0; list a => Ok(true) Link false 1 43200 Bytes(1) d... -
put d/e/f program 0 new; stat d/e/f; read d/e/f 0; stat a; stat d/e => Ok(true) File true 3 43200 Bytes(3) new. File true 5 1 Dir false 0 2
put d/e/f link 0 b; stat d/e/f; stat b => Ok(true) Link false 1 43200 nothing
put d file 0 x; put d/e link 0 x; put d/g file 0 x; list d; stat d/g => Ok(false) Ok(false) Ok(false) e g Other false 0 0
put d/h file 0 x; list d; stat d; stat d/e => Ok(true) e g h Dir false 0 43200 Dir false 0 2
put x/y/z file 0 v; stat x; stat x/y; list x/y; stat x/y/z => Ok(true) Dir false 0 43200 Dir false 0 43200 z File false 1 43200
put d/new/deep link 0 t; list d; stat d; stat d/new; stat d/e => Ok(true) e g new Dir false 0 43200 Dir false 0 43200 Dir false 0 2
put a/b file 0 x; put a/b/c link 0 x; put d/e/f/g file 0 x; put d/g/h file 0 x; list -; stat a => Ok(false) Ok(false) Ok(false) Ok(false) a d File true 5 1
put b file 0 x; put c link 0 x; asked => Ok(true) Ok(true)
";

#[test]
fn puts_files_and_links_anew(rt: HostRuntime) -> Result<(), Fail> {
    agree::<Puts>(rt.alloc(), SAMPLE, ANEW)
}

const BEHIND: &str = r"
put a file 5 !!; stat a; read a 3 => Ok(true) File true 7 43200 Bytes(4) lo!!
put d/h file 0 ab; put d/h program 2 cd; put d/h file 4 \e; stat d/h; read d/h 0 => Ok(true) Ok(true) Ok(true) File false 4 43200 Bytes(4) abcd
put a file 4 x; put a file 6 x; put a file 18446744073709551615 x; stat a => Ok(false) Ok(false) Ok(false) File true 5 1
put b file 1 x; put a/b file 5 x; put d file 1 x; put d/e/f file 4 x; put d/g file 1 x; stat d/e/f => Ok(false) Ok(false) Ok(false) Ok(false) Ok(false) Link false 4 2
many l link 0 4095; stat l; put l file 4095 x; many m link 0 4096; stat m; many m file 0 4096; stat m => Ok(true) Link false 4095 43200 Ok(false) Ok(false) nothing Ok(true) File false 4096 43200
many a link 0 4096; stat a => Ok(false) File true 5 1
";

#[test]
fn puts_bytes_behind_a_file(rt: HostRuntime) -> Result<(), Fail> {
    agree::<Puts>(rt.alloc(), SAMPLE, BEHIND)
}

// What is due is seen by the call, which answers by it; the call after it finds what both left.
const DUE: &str = r"
due 0 take a; put a file 0 hi; stat a => Ok(true) File false 2 43200
due 0 take a; put a file 5 hi; stat a => Ok(false) nothing
due 0 take a; unlink a; list - => Ok(false) d
due 0 file b one 7; unlink b; stat b => Ok(true) nothing
due 0 file b one 7; put b file 0 hi; read b 0 => Ok(true) Bytes(2) hi..
due 0 file b one 7; put b/c file 0 x; stat b => Ok(false) File false 3 7
due 0 dir b 7; put b file 0 hi; stat b => Ok(false) Dir false 0 7
due 0 dir a 7; unlink a; stat a => Ok(false) Dir false 0 7
due 0 file a longer 7; put a file 5 x; stat a => Ok(false) File false 6 7
due 0 file a other 7; put a file 5 x; stat a => Ok(true) File false 6 43200
due 0 take d; put d/e/f file 0 x; list d; stat d => Ok(true) e Dir false 0 43200
due 1 take a; stat a; unlink a; stat a => File true 5 1 Ok(false) nothing
due 1 file b one 7; put b file 0 hi; put b file 2 x; put b file 3 x; stat b => Ok(true) Ok(false) Ok(true) File false 4 43200
due 1 take d/e; due 1 file d two 7; put b file 0 x; put d/e file 0 x; stat d => Ok(true) Ok(false) File false 3 7
";

#[test]
fn answers_by_what_is_due(rt: HostRuntime) -> Result<(), Fail> {
    agree::<Puts>(rt.alloc(), SAMPLE, DUE)
}

// What is put or loses a name has the time that the clock shows by then.
const CLOCKS: &str = r"
due 0 clock 50000; now; now => 50000 999999999 50000 999999999
due 1 clock 50000; now; now; stat a => 43200 0 50000 999999999 File true 5 1
due 0 clock 7; due 0 clock 8; now => 8 999999999
due 0 clock 50000; fail 0; now; now => Failed 50000 999999999
due 1 clock 7; put b file 0 hi; stat b; put c/b file 0 hi; stat c; stat c/b => Ok(true) File false 2 43200 Ok(true) Dir false 0 7 File false 2 7
clock 50000; put a file 5 !; stat a; unlink d/e/f; stat d/e; stat d => Ok(true) File true 6 50000 Ok(true) Dir false 0 50000 Dir false 0 2
";

#[test]
fn goes_by_the_clock(rt: HostRuntime) -> Result<(), Fail> {
    agree::<Puts>(rt.alloc(), SAMPLE, CLOCKS)
}

// What is due just before a call that fails is made.
const FAILS: &str = r"
fail 0; put a file 0 x; stat a; put a file 0 x => Err(Failed) File true 5 1 Ok(true)
fail 0; put x/y file 0 x; list -; stat x => Err(Failed) a d nothing
fail 0; unlink a; stat a; unlink a => Err(Failed) File true 5 1 Ok(true)
fail 0; unlink b; put d file 0 x; fail 2; put d file 0 x => Err(Failed) Ok(false) Err(Failed)
fail 1; put b file 0 ab; put b file 2 cd; stat b; put b file 2 cd; stat b => Ok(true) Err(Failed) File false 2 43200 Ok(true) File false 4 43200
due 0 take a; fail 0; unlink a; stat a => Err(Failed) nothing
due 0 file b one 7; fail 0; put b file 0 hi; read b 0; put b file 3 !; read b 0 => Err(Failed) Bytes(3) one. Ok(true) Bytes(4) one!
";

#[test]
fn fails_where_it_was_told_to(rt: HostRuntime) -> Result<(), Fail> {
    agree::<Puts>(rt.alloc(), SAMPLE, FAILS)
}
