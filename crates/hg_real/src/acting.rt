//! Steps by which a tree puts something into real files and takes it away, and looks at what that left.
use hg_base::{Failed, Kind, PathRef, Time};
use hg_case_tests::{bytes, number, print, word};
use hg_disk::RealTree;
use hg_tree::Tree;
use std::fs;
use std::os::unix::fs::{MetadataExt, PermissionsExt};
use std::test::Fail;

type Files<'a> = RealTree<'a, HostRuntime>;

// The calls, each by itself: what they promise isn't carried through a case.
fn unlink(tree: &mut Files<'_>, path: PathRef<'_>) -> Result<bool, Failed> {
    tree.unlink(path)
}

fn put_file(
    tree: &mut Files<'_>,
    path: PathRef<'_>,
    exec: bool,
    place: u64,
    bytes: &[u8],
) -> Result<bool, Failed> {
    tree.put(path, Kind::File, exec, place, bytes)
}

fn put_link(
    tree: &mut Files<'_>,
    path: PathRef<'_>,
    place: u64,
    bytes: &[u8],
) -> Result<bool, Failed> {
    tree.put(path, Kind::Link, false, place, bytes)
}

fn now(tree: &mut Files<'_>) -> Result<Time, Failed> {
    tree.now()
}

// A file, a program or a link.
fn put(tree: &mut Files<'_>, step: &str, bytes: &[u8]) -> Result<Result<bool, Failed>, Fail> {
    let path = PathRef::read(word(step, 1))?;
    let place = number(step, 3)?;
    match word(step, 2) {
        "file" => Ok(put_file(tree, path, false, place, bytes)),
        "program" => Ok(put_file(tree, path, true, place, bytes)),
        "link" => Ok(put_link(tree, path, place, bytes)),
        _ => Err(Fail::new("no such kind")),
    }
}

fn put_word(
    rt: &HostRuntime,
    tree: &mut Files<'_>,
    step: &str,
    answer: &mut String,
) -> Result<(), Fail> {
    let bytes = bytes(rt.alloc(), word(step, 4))?;
    let done = put(tree, step, bytes.as_slice())?;
    write!(answer, " {done:?}")?;
    Ok(())
}

// Bytes that are told by their number.
fn put_many(
    rt: &HostRuntime,
    tree: &mut Files<'_>,
    step: &str,
    answer: &mut String,
) -> Result<(), Fail> {
    let count = usize::try_from(number(step, 4)?)?;
    let bytes = vec![in rt.alloc(); b'x'; count]?;
    let done = put(tree, step, bytes.as_slice())?;
    write!(answer, " {done:?}")?;
    Ok(())
}

fn take_away(tree: &mut Files<'_>, step: &str, answer: &mut String) -> Result<(), Fail> {
    let done = unlink(tree, PathRef::read(word(step, 1))?);
    write!(answer, " {done:?}")?;
    Ok(())
}

// Whether the clock isn't before the time that a file has by std, or that it is the lowest time.
fn print_now(
    rt: &HostRuntime,
    tree: &mut Files<'_>,
    path: &str,
    answer: &mut String,
) -> Result<(), Fail> {
    let metadata = fs::symlink_metadata(rt, path)?;
    let told = (metadata.mtime(), metadata.mtime_nsec());
    match now(tree) {
        Ok(time) => print_past(time, told, answer),
        Err(Failed) => Ok(answer.push_str(" Failed")?),
    }
}

fn print_past(time: Time, told: (i64, i64), answer: &mut String) -> Result<(), Fail> {
    let (seconds, nanos) = (time.seconds, i64::from(time.nanos));
    if seconds == i64::MIN && nanos == 0 {
        return Ok(answer.push_str(" lowest")?);
    }
    let past = seconds > told.0 || (seconds == told.0 && nanos >= told.1);
    write!(answer, " {past}")?;
    Ok(())
}

// Whether a file can be put exactly where std makes one beside it.
fn print_like(
    rt: &HostRuntime,
    tree: &mut Files<'_>,
    step: &str,
    answer: &mut String,
) -> Result<(), Fail> {
    let made = fs::write(rt, word(step, 2), b"".as_slice()).is_ok();
    let done = put_file(tree, PathRef::read(word(step, 1))?, false, 0, b"x");
    let same = done.is_ok() == made;
    write!(answer, " {same}")?;
    Ok(())
}

// Whether two things can be used alike, by the bits that a mask leaves.
fn print_alike(rt: &HostRuntime, step: &str, answer: &mut String) -> Result<(), Fail> {
    let mask = u32::from_str_radix(word(step, 3), 8)?;
    let one = fs::metadata(rt, word(step, 1))?.permissions().mode() & mask;
    let other = fs::metadata(rt, word(step, 2))?.permissions().mode() & mask;
    let same = one == other;
    write!(answer, " {same}")?;
    Ok(())
}

fn print_target(rt: &HostRuntime, path: &str, answer: &mut String) -> Result<(), Fail> {
    answer.push(' ')?;
    let target = fs::read_link(rt, path)?;
    print(answer, target.as_str().as_bytes())
}

fn print_told(tree: &Files<'_>, answer: &mut String) -> Result<(), Fail> {
    answer.push(' ')?;
    answer.push_str(tree.failure().unwrap_or("none"))?;
    Ok(())
}

// The process stands in the root then, where std finds what a step names.
fn go_home(rt: &HostRuntime, tree: &mut Files<'_>) -> Result<(), Fail> {
    let _ = tree.list(rt.alloc(), None);
    Ok(())
}

/// A step of the caller of a tree.
pub(crate) fn acted(
    rt: &HostRuntime,
    tree: &mut Files<'_>,
    step: &str,
    answer: &mut String,
) -> Result<(), Fail> {
    match word(step, 0) {
        "put" => put_word(rt, tree, step, answer),
        "many" => put_many(rt, tree, step, answer),
        "take" => take_away(tree, step, answer),
        "now" => print_now(rt, tree, word(step, 1), answer),
        "like" => print_like(rt, tree, step, answer),
        "alike" => print_alike(rt, step, answer),
        "target" => print_target(rt, word(step, 1), answer),
        "told" => print_told(tree, answer),
        _ => go_home(rt, tree),
    }
}
