//! Files, links and manifests that are stored in the plain store, over a working copy and files below `.hg` in memory.
use crate::shelves::take;
use crate::trees::{NOON, at};
use hg_base::{Blob, Id20, Path, PathRef};
use hg_case_tests::{Play, agree, bytes, number, word};
use hg_compare::Room;
use hg_manifest::FileRow;
use hg_shelf::MemShelf;
use hg_store::{NewRow, NewRows, StoreFault, store_file, store_manifest};
use hg_tree::{MemTree, Thing};
use std::alloc::Global;
use std::string::String;
use std::test::Fail;

// The calls, each by itself: what they promise isn't carried through a case.
fn file(
    alloc: Global,
    tree: &mut MemTree,
    shelf: &mut MemShelf,
    path: PathRef<'_>,
    room: &mut Room,
) -> Result<FileRow, StoreFault> {
    store_file(alloc, tree, shelf, path, room)
}

fn manifest(
    alloc: Global,
    shelf: &mut MemShelf,
    rows: &NewRows,
    room: &mut Room,
) -> Result<Id20, StoreFault> {
    store_manifest(alloc, shelf, rows, room)
}

fn put_id(answer: &mut String, id: &Id20) -> Result<(), Fail> {
    answer.push(' ')?;
    for byte in &id.0 {
        write!(answer, "{byte:02x}")?;
    }
    Ok(())
}

fn put_fault(answer: &mut String, fault: StoreFault) -> Result<(), Fail> {
    match fault {
        StoreFault::StoreClash { id } => {
            answer.push_str(" clash")?;
            put_id(answer, &id)?;
        }
        StoreFault::Gone { path } => write!(answer, " gone {}", path.as_ref().as_str())?,
        StoreFault::ManifestTooLarge { size } => write!(answer, " {size} bytes")?,
        StoreFault::OutOfMemory => answer.push_str(" no memory")?,
        StoreFault::TreeFailed => answer.push_str(" tree failed")?,
        StoreFault::ShelfFailed => answer.push_str(" shelf failed")?,
    }
    Ok(())
}

fn put_row(answer: &mut String, row: &FileRow) -> Result<(), Fail> {
    put_id(answer, &row.id)?;
    if row.exec {
        answer.push('x')?;
    }
    if row.link {
        answer.push('l')?;
    }
    Ok(())
}

// So many bytes `a`.
fn many(alloc: Global, size: u64) -> Result<Blob, Fail> {
    let bytes = vec![in alloc; b'a'; size as usize]?;
    Ok(Blob::of(alloc, bytes.as_slice())?)
}

fn place_file(tree: &mut MemTree, name: &str, exec: bool, bytes: Blob) -> Result<(), Fail> {
    tree.place(PathRef::read(name)?, Thing::File { exec, bytes }, at(1))?;
    Ok(())
}

fn place_dir(tree: &mut MemTree, name: &str) -> Result<(), Fail> {
    tree.place(PathRef::read(name)?, Thing::Dir, at(1))?;
    Ok(())
}

fn blob_of(alloc: Global, step: &str) -> Result<Blob, Fail> {
    let bytes = bytes(alloc, word(step, 2))?;
    Ok(Blob::of(alloc, bytes.as_slice())?)
}

// Something stands at a path.
fn place(alloc: Global, tree: &mut MemTree, step: &str) -> Result<(), Fail> {
    let name = word(step, 1);
    match word(step, 0) {
        "file" => place_file(tree, name, false, blob_of(alloc, step)?),
        "program" => place_file(tree, name, true, blob_of(alloc, step)?),
        "many" => place_file(tree, name, false, many(alloc, number(step, 2)?)?),
        _ => place_dir(tree, name),
    }
}

fn stored(
    alloc: Global,
    tree: &mut MemTree,
    shelf: &mut MemShelf,
    step: &str,
    answer: &mut String,
) -> Result<(), Fail> {
    let mut room = Room::new(alloc)?;
    match file(alloc, tree, shelf, PathRef::read(word(step, 1))?, &mut room) {
        Ok(row) => put_row(answer, &row),
        Err(fault) => put_fault(answer, fault),
    }
}

// A manifest of so many files `f0`, `f1` .. that are empty, of which the first is executable.
fn manifest_of(
    alloc: Global,
    shelf: &mut MemShelf,
    step: &str,
    answer: &mut String,
) -> Result<(), Fail> {
    let mut rows = NewRows::new(alloc);
    for i in 0..number(step, 1)? {
        let name = format!(in alloc; "f{i}")?;
        let row = FileRow {
            id: Id20([0x1f; 20]),
            exec: i == 0,
            link: i == 1,
        };
        rows.push(NewRow {
            path: Path::read(alloc, name.as_str())?,
            row,
        })?;
    }
    let mut room = Room::new(alloc)?;
    match manifest(alloc, shelf, &rows, &mut room) {
        Ok(id) => put_id(answer, &id),
        Err(fault) => put_fault(answer, fault),
    }
}

struct Stores;

impl Play for Stores {
    fn play(alloc: Global, steps: &str, answer: &mut String) -> Result<(), Fail> {
        let mut tree = MemTree::new(alloc, NOON)?;
        let mut shelf = MemShelf::new(alloc)?;
        for step in steps.split(';') {
            let step = step.trim();
            match word(step, 0) {
                "file" | "program" | "many" | "dir" => place(alloc, &mut tree, step)?,
                "store" => stored(alloc, &mut tree, &mut shelf, step, answer)?,
                "manifest" => manifest_of(alloc, &mut shelf, step, answer)?,
                _ => take(alloc, &mut shelf, step, answer)?,
            }
        }
        Ok(())
    }
}

// The identifiers are those that FIPS 180 and RFC 3174 give for these texts.
const FILES: &str = r"
file a abc; store a; calls => a9993e364706816aba3e25717850c26c9cd0d89d 6 calls
program a abc; store a => a9993e364706816aba3e25717850c26c9cd0d89dx
file a \e; store a; calls => da39a3ee5e6b4b0d3255bfef95601890afd80709 6 calls
many a 1000000; store a; calls => 34aa973cd4c4daa4f61eeb2bdbad27316534016f 21 calls
file a abc; store a; store a; calls => a9993e364706816aba3e25717850c26c9cd0d89d a9993e364706816aba3e25717850c26c9cd0d89d 14 calls
store a; calls => gone a 0 calls
dir a; store a; calls => gone a 0 calls
file a abc; fail 0; store a => shelf failed
file a abc; fail 5; store a; show plain/f-a9993e364706816aba3e25717850c26c9cd0d89d => shelf failed abc
place plain/new left; file a abc; store a; show plain/new => a9993e364706816aba3e25717850c26c9cd0d89d -
";

#[test]
fn stores_files(rt: HostRuntime) -> Result<(), Fail> {
    agree::<Stores>(rt.alloc(), "", FILES)
}

// The plain file of `abc` holds other bytes, or the same; and what a crash leaves before and behind the last call.
const CLASHES: &str = r"
place plain/f-a9993e364706816aba3e25717850c26c9cd0d89d abd; store a; calls; show plain/new => clash a9993e364706816aba3e25717850c26c9cd0d89d 7 calls -
place plain/f-a9993e364706816aba3e25717850c26c9cd0d89d ab; store a; calls; show plain/new => clash a9993e364706816aba3e25717850c26c9cd0d89d 5 calls -
place plain/f-a9993e364706816aba3e25717850c26c9cd0d89d abc; store a; calls => a9993e364706816aba3e25717850c26c9cd0d89d 8 calls
store a; crash 5 0; show plain/f-a9993e364706816aba3e25717850c26c9cd0d89d => a9993e364706816aba3e25717850c26c9cd0d89d -
store a; crash 5 1; show plain/f-a9993e364706816aba3e25717850c26c9cd0d89d => a9993e364706816aba3e25717850c26c9cd0d89d abc
store a; crash 6 0; show plain/f-a9993e364706816aba3e25717850c26c9cd0d89d => a9993e364706816aba3e25717850c26c9cd0d89d abc
";

#[test]
fn compares_what_stands(rt: HostRuntime) -> Result<(), Fail> {
    agree::<Stores>(rt.alloc(), "file a abc; ", CLASHES)
}

// A manifest without rows is an empty text.
const MANIFESTS: &str = r"
manifest 0; size plain/m-da39a3ee5e6b4b0d3255bfef95601890afd80709 => da39a3ee5e6b4b0d3255bfef95601890afd80709 Ok(Some(0))
manifest 0; manifest 0; calls => da39a3ee5e6b4b0d3255bfef95601890afd80709 da39a3ee5e6b4b0d3255bfef95601890afd80709 12 calls
manifest 3; size plain/m-eab28dd9af575deed8e392fb2ff9fdc677434164 => eab28dd9af575deed8e392fb2ff9fdc677434164 Ok(Some(134))
";

#[test]
fn stores_manifests(rt: HostRuntime) -> Result<(), Fail> {
    agree::<Stores>(rt.alloc(), "", MANIFESTS)
}
