//! Cases over real files: their steps, one function each.
use crate::acting::acted;
use crate::open::{open_files, print_open};
use hg_base::{Failed, Got, PathRef, Stat};
use hg_case_tests::{bytes, none, note, number, print, word};
use hg_disk::{RealShelf, RealTree, Root};
use hg_shelf::Shelf;
use hg_tree::{Name, Tree, TreeFault};
use std::fs;
use std::fs::Permissions;
use std::os::unix::fs::{MetadataExt, PermissionsExt, symlink};
use std::test::Fail;
use std::time::{Duration, SystemTime};

type Shelves<'a> = RealShelf<'a, HostRuntime>;

type Files<'a> = RealTree<'a, HostRuntime>;

// What a case is played over: two shelves that share a working copy, and its tree; and how many files were open before.
#[derive(Drop)]
struct World<'a> {
    before: usize,
    one: Shelves<'a>,
    other: Shelves<'a>,
    tree: Files<'a>,
}

// The calls, each by itself: what they promise isn't carried through a case.
fn size(shelf: &mut Shelves<'_>, name: &str) -> Result<Option<u64>, Failed> {
    shelf.size(name)
}

fn read_below(
    shelf: &mut Shelves<'_>,
    name: &str,
    place: u64,
    buf: &mut [u8],
) -> Result<Got, Failed> {
    shelf.read_at(name, place, buf)
}

fn write(shelf: &mut Shelves<'_>, name: &str, place: u64, bytes: &str) -> Result<(), Failed> {
    shelf.write_at(name, place, bytes.as_bytes())
}

fn sync(shelf: &mut Shelves<'_>, name: &str) -> Result<(), Failed> {
    shelf.sync(name)
}

fn rename(shelf: &mut Shelves<'_>, from: &str, to: &str) -> Result<(), Failed> {
    shelf.rename(from, to)
}

fn sync_names(shelf: &mut Shelves<'_>) -> Result<(), Failed> {
    shelf.sync_names()
}

// Makes the names sure so often, and answers the first failure.
fn sync_names_often(shelf: &mut Shelves<'_>, times: u64) -> Result<(), Failed> {
    for _ in 0..times {
        sync_names(shelf)?;
    }
    Ok(())
}

fn remove(shelf: &mut Shelves<'_>, name: &str) -> Result<(), Failed> {
    shelf.remove(name)
}

fn lock(shelf: &mut Shelves<'_>) -> Result<bool, Failed> {
    shelf.lock()
}

fn unlock(shelf: &mut Shelves<'_>) -> Result<(), Failed> {
    shelf.unlock()
}

fn stat(tree: &mut Files<'_>, path: PathRef<'_>) -> Result<Option<Stat>, Failed> {
    tree.stat(path)
}

fn read(
    tree: &mut Files<'_>,
    path: PathRef<'_>,
    place: u64,
    buf: &mut [u8],
) -> Result<Got, Failed> {
    tree.read(path, place, buf)
}

fn list(
    rt: &HostRuntime,
    tree: &mut Files<'_>,
    dir: Option<PathRef<'_>>,
) -> Result<Option<Vec<Name>>, TreeFault> {
    tree.list(rt.alloc(), dir)
}

// What a shelf answers to a change.
fn change(shelf: &mut Shelves<'_>, step: &str) -> Result<Result<(), Failed>, Fail> {
    let name = word(step, 1);
    match word(step, 0) {
        "write" => Ok(write(shelf, name, number(step, 2)?, word(step, 3))),
        "sync" => Ok(sync(shelf, name)),
        "rename" => Ok(rename(shelf, name, word(step, 2))),
        "sync_names" => Ok(sync_names(shelf)),
        "names" => Ok(sync_names_often(shelf, number(step, 1)?)),
        "remove" => Ok(remove(shelf, name)),
        "unlock" => Ok(unlock(shelf)),
        _ => Err(Fail::new("no such step")),
    }
}

fn print_changed(shelf: &mut Shelves<'_>, step: &str, answer: &mut String) -> Result<(), Fail> {
    let changed = change(shelf, step)?;
    write!(answer, " {changed:?}")?;
    Ok(())
}

fn print_size(size: Result<Option<u64>, Failed>, answer: &mut String) -> Result<(), Fail> {
    write!(answer, " {size:?}")?;
    Ok(())
}

fn print_locked(locked: Result<bool, Failed>, answer: &mut String) -> Result<(), Fail> {
    write!(answer, " {locked:?}")?;
    Ok(())
}

// What was got, and the buffer of which it filled the beginning.
fn print_got(got: Result<Got, Failed>, buf: &[u8], answer: &mut String) -> Result<(), Fail> {
    match got {
        Ok(got) => write!(answer, " {got:?} ")?,
        Err(fault) => write!(answer, " {fault:?} ")?,
    }
    print(answer, buf)
}

fn read_step(shelf: &mut Shelves<'_>, step: &str, answer: &mut String) -> Result<(), Fail> {
    let mut buf = [b'.'; 4];
    let got = read_below(shelf, word(step, 1), number(step, 2)?, &mut buf);
    print_got(got, &buf, answer)
}

fn print_failure(shelf: &Shelves<'_>, answer: &mut String) -> Result<(), Fail> {
    answer.push(' ')?;
    answer.push_str(shelf.failure().unwrap_or("none"))?;
    Ok(())
}

// A step of the files below `.hg`.
fn below(shelf: &mut Shelves<'_>, step: &str, answer: &mut String) -> Result<(), Fail> {
    match word(step, 0) {
        "size" => print_size(size(shelf, word(step, 1)), answer),
        "read" => read_step(shelf, step, answer),
        "lock" => print_locked(lock(shelf), answer),
        "failure" => print_failure(shelf, answer),
        _ => print_changed(shelf, step, answer),
    }
}

// A shelf that is dropped with the lock.
fn lock_briefly(rt: &HostRuntime, root: &Root) -> Result<bool, Failed> {
    let mut shelf = RealShelf::new(rt, root);
    shelf.lock()
}

fn look(tree: &mut Files<'_>, path: &str, answer: &mut String) -> Result<(), Fail> {
    match stat(tree, PathRef::read(path)?) {
        Ok(Some(stat)) => print_stat(stat, answer),
        Ok(None) => Ok(answer.push_str(" nothing")?),
        Err(Failed) => Ok(answer.push_str(" Failed")?),
    }
}

fn print_stat(stat: Stat, answer: &mut String) -> Result<(), Fail> {
    let (kind, exec, size) = (stat.kind, stat.exec, stat.size);
    write!(answer, " {kind:?} {exec} {size}")?;
    Ok(())
}

fn read_file(tree: &mut Files<'_>, step: &str, answer: &mut String) -> Result<(), Fail> {
    let mut buf = [b'.'; 4];
    let path = PathRef::read(word(step, 1))?;
    let got = read(tree, path, number(step, 2)?, &mut buf);
    print_got(got, &buf, answer)
}

// The names that a listing answers; of the root, for which there is a dash, whether `.hg` is among them.
fn list_dir(
    rt: &HostRuntime,
    tree: &mut Files<'_>,
    path: &str,
    answer: &mut String,
) -> Result<(), Fail> {
    if path == "-" {
        return print_reserved(list(rt, tree, None)?, answer);
    }
    match list(rt, tree, Some(PathRef::read(path)?))? {
        Some(names) => print_names(&names, answer),
        None => Ok(answer.push_str(" none")?),
    }
}

fn print_names(names: &Vec<Name>, answer: &mut String) -> Result<(), Fail> {
    for name in names {
        answer.push(' ')?;
        answer.push_str(name.as_str())?;
    }
    Ok(())
}

fn print_reserved(names: Option<Vec<Name>>, answer: &mut String) -> Result<(), Fail> {
    let Some(names) = names else {
        return Err("no root".into());
    };
    let mut is_listed = false;
    for name in &names {
        is_listed |= name.as_str() == ".hg";
    }
    write!(answer, " {is_listed}")?;
    Ok(())
}

// The time of what stands there by the adapter, and by std.
fn times(
    rt: &HostRuntime,
    tree: &mut Files<'_>,
    path: &str,
) -> Result<((i64, i64), (i64, i64)), Fail> {
    let stat = stat(tree, PathRef::read(path)?)?.ok_or("nothing there")?;
    let metadata = fs::symlink_metadata(rt, path)?;
    Ok((
        (stat.mtime.seconds, i64::from(stat.mtime.nanos)),
        (metadata.mtime(), metadata.mtime_nsec()),
    ))
}

fn print_times(
    rt: &HostRuntime,
    tree: &mut Files<'_>,
    path: &str,
    answer: &mut String,
) -> Result<(), Fail> {
    let (ours, theirs) = times(rt, tree, path)?;
    if ours != theirs || !is_time(rt, path, ours.0, ours.1)? {
        return Ok(write!(answer, " {ours:?}, but {theirs:?}")?);
    }
    let (seconds, nanos) = ours;
    write!(answer, " {seconds} {nanos}")?;
    Ok(())
}

// So long after the beginning of 1970, up to the year 2286.
fn time_of(seconds: u64, nanos: u32) -> Result<SystemTime, Fail> {
    if seconds > 9_999_999_999 || nanos > 999_999_999 {
        return Err("no time".into());
    }
    let since = Duration::new(seconds, nanos);
    Ok(SystemTime::UNIX_EPOCH.checked_add(since).ok_or("no time")?)
}

// Whether std tells the time as one value too.
fn is_time(rt: &HostRuntime, path: &str, seconds: i64, nanos: i64) -> Result<bool, Fail> {
    let time = time_of(u64::try_from(seconds)?, u32::try_from(nanos)?)?;
    let told = fs::symlink_metadata(rt, path)?.modified()?;
    Ok(told == time)
}

// Whether a thing's time is the same for both, and later than such a second.
fn print_later(
    rt: &HostRuntime,
    tree: &mut Files<'_>,
    step: &str,
    answer: &mut String,
) -> Result<(), Fail> {
    let (ours, theirs) = times(rt, tree, word(step, 1))?;
    let (same, later) = (ours == theirs, ours.0 > i64::try_from(number(step, 2)?)?);
    write!(answer, " {same} {later}")?;
    Ok(())
}

// A step of the working copy.
fn above(
    rt: &HostRuntime,
    tree: &mut Files<'_>,
    step: &str,
    answer: &mut String,
) -> Result<(), Fail> {
    let path = word(step, 1);
    match word(step, 0) {
        "stat" => look(tree, path, answer),
        "list" => list_dir(rt, tree, path, answer),
        "contents" => read_file(tree, step, answer),
        "times" => print_times(rt, tree, path, answer),
        _ => print_later(rt, tree, step, answer),
    }
}

// What stands on the disk is changed by std.
fn lay(rt: &HostRuntime, step: &str) -> Result<(), Fail> {
    let path = word(step, 1);
    match word(step, 0) {
        "folder" => Ok(fs::create_dir_all(rt, path)?),
        "file" => lay_file(rt, path, word(step, 2)),
        "link" => Ok(symlink(rt, word(step, 2), path)?),
        "mode" => set_mode(rt, path, word(step, 2)),
        "time" => set_time(rt, step),
        _ => Ok(fs::remove_file(rt, path)?),
    }
}

fn lay_file(rt: &HostRuntime, path: &str, word: &str) -> Result<(), Fail> {
    let bytes = bytes(rt.alloc(), word)?;
    fs::write(rt, path, bytes.as_slice())?;
    Ok(())
}

fn set_mode(rt: &HostRuntime, path: &str, digits: &str) -> Result<(), Fail> {
    let mode = u32::from_str_radix(digits, 8)?;
    fs::set_permissions(rt, path, Permissions::from_mode(mode))?;
    Ok(())
}

// Gives a file or a folder a time. Neither is written to. (std makes no time before 1970.)
fn set_time(rt: &HostRuntime, step: &str) -> Result<(), Fail> {
    let nanos = u32::try_from(number(step, 3)?)?;
    let time = time_of(number(step, 2)?, nanos)?;
    let file = fs::OpenOptions::new().read(true).open(rt, word(step, 1))?;
    file.set_modified(time)?;
    Ok(())
}

// What stands on the disk, by std.
fn seen(rt: &HostRuntime, step: &str, answer: &mut String) -> Result<(), Fail> {
    let path = word(step, 1);
    answer.push(' ')?;
    match word(step, 0) {
        "text" => print(answer, fs::read_to_string(rt, path)?.as_str().as_bytes()),
        "is" => print_exists(rt, path, answer),
        _ => print_mode(rt, path, word(step, 2), answer),
    }
}

fn print_exists(rt: &HostRuntime, path: &str, answer: &mut String) -> Result<(), Fail> {
    let exists = fs::exists(rt, path)?;
    write!(answer, "{exists}")?;
    Ok(())
}

// The bits that a mask leaves.
fn print_mode(rt: &HostRuntime, path: &str, mask: &str, answer: &mut String) -> Result<(), Fail> {
    let mask = u32::from_str_radix(mask, 8)?;
    let mode = fs::metadata(rt, path)?.permissions().mode() & mask;
    write!(answer, "{mode:o}")?;
    Ok(())
}

fn done(
    rt: &HostRuntime,
    root: &Root,
    world: &mut World<'_>,
    step: &str,
    answer: &mut String,
) -> Result<(), Fail> {
    if let Some(step) = step.strip_prefix("other ") {
        return below(&mut world.other, step, answer);
    }
    match word(step, 0) {
        "briefly" => print_locked(lock_briefly(rt, root), answer),
        "opened" | "held" => print_open(rt, world.before, step, answer),
        "folder" | "file" | "link" | "mode" | "time" | "unlink" => lay(rt, step),
        "text" | "is" | "rights" => seen(rt, step, answer),
        "stat" | "list" | "contents" | "times" | "later" => {
            above(rt, &mut world.tree, step, answer)
        }
        "put" | "many" | "take" | "now" | "like" | "alike" | "target" | "told" | "home" => {
            acted(rt, &mut world.tree, step, answer)
        }
        _ => below(&mut world.one, step, answer),
    }
}

fn play(
    rt: &HostRuntime,
    root: &Root,
    before: usize,
    steps: &str,
    answer: &mut String,
) -> Result<(), Fail> {
    let mut world = World {
        before,
        one: RealShelf::new(rt, root),
        other: RealShelf::new(rt, root),
        tree: RealTree::new(rt, root),
    };
    play_steps(rt, root, &mut world, steps, answer)
}

// At its end the process stands in the root again, in which a tree that has its name doesn't stay.
fn play_steps(
    rt: &HostRuntime,
    root: &Root,
    world: &mut World<'_>,
    steps: &str,
    answer: &mut String,
) -> Result<(), Fail> {
    for step in steps.split(';') {
        done(rt, root, world, step.trim(), answer)?;
    }
    let _ = list(rt, &mut world.tree, None);
    Ok(())
}

// What a case lays out stands in `.hg` and in `real_test`.
fn clear(rt: &HostRuntime) {
    let _ = fs::remove_dir_all(rt, ".hg");
    let _ = fs::remove_dir_all(rt, "real_test");
}

fn case(
    rt: &HostRuntime,
    root: &Root,
    before: &str,
    line: &str,
    wrong: &mut String,
) -> Result<(), Fail> {
    let mut found = String::new(rt.alloc());
    if let Some((steps, _)) = line.split_once(" =>") {
        clear(rt);
        let whole = format!(in rt.alloc(); "{before}{steps}")?;
        let before = open_files(rt)?;
        play(rt, root, before, whole.as_str(), &mut found)?;
        let behind = open_files(rt)?;
        if behind != before {
            write!(found, " {behind} open files, and {before} before")?;
        }
        clear(rt);
    }
    note(line, found.as_str(), wrong)
}

/// Plays each line of a table in a folder of its own, behind the steps of `before`, and fails by the lines that are answered otherwise.
pub(crate) fn agree(rt: &HostRuntime, root: &Root, before: &str, table: &str) -> Result<(), Fail> {
    let mut wrong = String::new(rt.alloc());
    for line in table.split('\n') {
        case(rt, root, before, line, &mut wrong)?;
    }
    none(wrong.as_str())
}
