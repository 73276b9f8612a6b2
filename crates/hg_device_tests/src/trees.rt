//! A working copy in memory: what looks answer, that calls fail where they were told to and nowhere else, and what was asked.
use hg_base::{Blob, Failed, Got, PathFault, PathRef, Stat, Time};
use hg_case_tests::{Play, agree, number, print, word};
use hg_tree::{Asked, MemTree, Name, Thing, Tree, TreeFault};
use std::alloc::Global;
use std::string::String;
use std::test::Fail;

/// What the clock of each tree shows.
pub(crate) const NOON: Time = Time {
    seconds: 43_200,
    nanos: 0,
};

/// A time in that second.
pub(crate) fn at(seconds: u64) -> Time {
    Time {
        seconds: i64::try_from(seconds).unwrap_or(0),
        nanos: 999_999_999,
    }
}

// The calls, each by itself: what they promise isn't carried through a case.
fn now(tree: &mut MemTree) -> Result<Time, Failed> {
    tree.now()
}

fn stat(tree: &mut MemTree, path: PathRef<'_>) -> Result<Option<Stat>, Failed> {
    tree.stat(path)
}

fn list(
    alloc: Global,
    tree: &mut MemTree,
    dir: Option<PathRef<'_>>,
) -> Result<Option<Vec<Name>>, TreeFault> {
    tree.list(alloc, dir)
}

fn read(tree: &mut MemTree, path: PathRef<'_>, place: u64, buf: &mut [u8]) -> Result<Got, Failed> {
    tree.read(path, place, buf)
}

fn place_file(alloc: Global, tree: &mut MemTree, step: &str) -> Result<(), Fail> {
    let bytes = Blob::of(alloc, word(step, 2).as_bytes())?;
    let exec = word(step, 0) == "program";
    let thing = Thing::File { exec, bytes };
    tree.place(PathRef::read(word(step, 1))?, thing, at(number(step, 3)?))?;
    Ok(())
}

fn place_link(alloc: Global, tree: &mut MemTree, step: &str) -> Result<(), Fail> {
    let to = word(step, 2);
    if to.len() > 4_095 {
        return Err(Fail::new("too long a target"));
    }
    let target = Blob::of(alloc, to.as_bytes())?;
    let thing = Thing::Link { target };
    tree.place(PathRef::read(word(step, 1))?, thing, at(number(step, 3)?))?;
    Ok(())
}

fn place_dir(tree: &mut MemTree, step: &str) -> Result<(), Fail> {
    tree.place(
        PathRef::read(word(step, 1))?,
        Thing::Dir,
        at(number(step, 2)?),
    )?;
    Ok(())
}

fn place_other(tree: &mut MemTree, step: &str) -> Result<(), Fail> {
    tree.place(
        PathRef::read(word(step, 1))?,
        Thing::Other,
        at(number(step, 2)?),
    )?;
    Ok(())
}

fn set_clock(tree: &mut MemTree, step: &str) -> Result<(), Fail> {
    tree.set_clock(at(number(step, 1)?))?;
    Ok(())
}

fn take(tree: &mut MemTree, path: &str) -> Result<(), Fail> {
    tree.take(PathRef::read(path)?)?;
    Ok(())
}

// The kind, whether it can be run, the size, and the seconds of the time.
fn looked(tree: &mut MemTree, path: &str, answer: &mut String) -> Result<(), Fail> {
    match stat(tree, PathRef::read(path)?) {
        Ok(Some(stat)) => print_stat(stat, answer),
        Ok(None) => Ok(answer.push_str(" nothing")?),
        Err(Failed) => Ok(answer.push_str(" Failed")?),
    }
}

fn print_stat(stat: Stat, answer: &mut String) -> Result<(), Fail> {
    let (kind, exec) = (stat.kind, stat.exec);
    write!(answer, " {kind:?} {exec}")?;
    let (size, seconds) = (stat.size, stat.mtime.seconds);
    write!(answer, " {size} {seconds}")?;
    Ok(())
}

// The seconds and nanoseconds of the clock.
fn print_now(tree: &mut MemTree, answer: &mut String) -> Result<(), Fail> {
    match now(tree) {
        Ok(time) => print_time(time, answer),
        Err(Failed) => Ok(answer.push_str(" Failed")?),
    }
}

fn print_time(time: Time, answer: &mut String) -> Result<(), Fail> {
    let (seconds, nanos) = (time.seconds, time.nanos);
    write!(answer, " {seconds} {nanos}")?;
    Ok(())
}

// The root is a dash.
fn dir(text: &str) -> Result<Option<PathRef<'_>>, PathFault> {
    if text == "-" {
        return Ok(None);
    }
    Ok(Some(PathRef::read(text)?))
}

// The names in order, or a dash where no directory is.
fn listed(alloc: Global, tree: &mut MemTree, path: &str, answer: &mut String) -> Result<(), Fail> {
    match list(alloc, tree, dir(path)?) {
        Ok(Some(names)) => print_names(names, answer),
        Ok(None) => Ok(answer.push_str(" -")?),
        Err(fault) => Ok(write!(answer, " {fault:?}")?),
    }
}

fn print_names(names: Vec<Name>, answer: &mut String) -> Result<(), Fail> {
    let mut names = names;
    names.sort()?;
    for name in &names {
        answer.push(' ')?;
        answer.push_str(name.as_str())?;
    }
    Ok(())
}

// What was got, and the buffer of which it filled the beginning.
fn read_step(tree: &mut MemTree, step: &str, answer: &mut String) -> Result<(), Fail> {
    let mut buf = [b'.'; 4];
    match read(
        tree,
        PathRef::read(word(step, 1))?,
        number(step, 2)?,
        &mut buf,
    ) {
        Ok(got) => write!(answer, " {got:?} ")?,
        Err(fault) => write!(answer, " {fault:?} ")?,
    }
    print(answer, &buf)
}

fn print_asked(tree: &MemTree, answer: &mut String) -> Result<(), Fail> {
    for asked in tree.asked() {
        match asked {
            Asked::List { dir: None } => answer.push_str(" list -")?,
            Asked::List { dir: Some(dir) } => {
                answer.push_str(" list ")?;
                answer.push_str(dir.as_str())?;
            }
            Asked::Read { path } => {
                answer.push_str(" read ")?;
                answer.push_str(path.as_str())?;
            }
        }
    }
    Ok(())
}

fn laid(alloc: Global, tree: &mut MemTree, step: &str) -> Result<(), Fail> {
    match word(step, 0) {
        "file" => place_file(alloc, tree, step),
        "program" => place_file(alloc, tree, step),
        "link" => place_link(alloc, tree, step),
        "dir" => place_dir(tree, step),
        "other" => place_other(tree, step),
        "take" => take(tree, word(step, 1)),
        "clock" => set_clock(tree, step),
        "fail" => Ok(tree.fail_at(number(step, 1)?)?),
        _ => Err(Fail::new("no such step")),
    }
}

/// A step by another or a look, and what it answers.
pub(crate) fn done(
    alloc: Global,
    tree: &mut MemTree,
    step: &str,
    answer: &mut String,
) -> Result<(), Fail> {
    match word(step, 0) {
        "stat" => looked(tree, word(step, 1), answer),
        "list" => listed(alloc, tree, word(step, 1), answer),
        "read" => read_step(tree, step, answer),
        "asked" => print_asked(tree, answer),
        "now" => print_now(tree, answer),
        _ => laid(alloc, tree, step),
    }
}

struct Trees;

impl Play for Trees {
    fn play(alloc: Global, steps: &str, answer: &mut String) -> Result<(), Fail> {
        let mut tree = MemTree::new(alloc, NOON)?;
        for step in steps.split(';') {
            done(alloc, &mut tree, step.trim(), answer)?;
        }
        Ok(())
    }
}

/// A program, a link below two directories, and a fifo beside them.
pub(crate) const SAMPLE: &str = "program a hello 1; link d/e/f ../a 2; other d/g 3; ";

const SHOWS: &str = r"
stat a => File true 5 1
stat d => Dir false 0 2
stat d/e => Dir false 0 2
stat d/e/f => Link false 4 2
stat d/g => Other false 0 0
stat b => nothing
stat a/b => nothing
stat d/e/f/g => nothing
list - => a d
list d => e g
list d/e => f
list a => -
list d/e/f => -
list x => -
";

#[test]
fn shows_what_was_placed(rt: HostRuntime) -> Result<(), Fail> {
    agree::<Trees>(rt.alloc(), SAMPLE, SHOWS)
}

const CHANGES: &str = r"
dir d 4; list d => e g
dir d 4; other d/e 5; list d; stat d/e/f => e g nothing
dir a/b 6; list a => b
dir d 4; other d/e 5; dir a/b 6; take d; list -; stat d/g => a nothing
";

#[test]
fn replaces_and_takes(rt: HostRuntime) -> Result<(), Fail> {
    agree::<Trees>(rt.alloc(), SAMPLE, CHANGES)
}

const FAILS: &str = r"
fail 1; stat a; stat a; stat a => File true 5 1 Failed File true 5 1
fail 0; list -; list a; asked => Failed - list - list a
fail 1; fail 3; stat a; stat a; stat a; list -; list a; asked => File true 5 1 Failed File true 5 1 Failed - list - list a
";

#[test]
fn fails_where_it_was_told_to(rt: HostRuntime) -> Result<(), Fail> {
    agree::<Trees>(rt.alloc(), SAMPLE, FAILS)
}

// The clock stays where it was set, and leaves what stands there; a look at it is a call.
const TELLS: &str = r"
now; now => 43200 0 43200 0
clock 7; now; stat a; list -; asked => 7 999999999 File true 5 1 a d list -
clock 90000; clock 5; now; take a; now => 5 999999999 5 999999999
fail 1; now; clock 9; now; now => 43200 0 Failed 9 999999999
fail 0; stat a; now; asked => Failed 43200 0
";

#[test]
fn tells_the_clock(rt: HostRuntime) -> Result<(), Fail> {
    agree::<Trees>(rt.alloc(), SAMPLE, TELLS)
}

const READS: &str = r"
read a 0 => Bytes(4) hell
read a 3 => Bytes(2) lo..
read a 5 => Bytes(0) ....
read d/e/f 1 => Bytes(3) ./a.
read d 0 => Absent ....
read d/g 0 => Absent ....
fail 0; read a 0; asked => Failed .... read a
read b 0 => Absent ....
fail 1; read b 0; read a 0; read d 0; asked => Absent .... Failed .... Absent .... read b read a read d
";

#[test]
fn reads_past_a_place(rt: HostRuntime) -> Result<(), Fail> {
    agree::<Trees>(rt.alloc(), SAMPLE, READS)
}
