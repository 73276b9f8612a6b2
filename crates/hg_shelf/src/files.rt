// The files of a shelf in memory, as a map from name to bytes, and what each step does to them.
ghost use Rattle.std.specs.Prelude.{◌≡◌, ◌+◌, ℕ, List, Some, drop, if◌then◌else◌, bytes_eq, IfOk, OnOk, OnErr};
ghost use Rattle.std.specs.BTreeMap.{get_by_text};
ghost use Rattle.hg_shelf.specs.Memory.{stepped, with_file};
ghost use Rattle.hg_shelf.specs.Rules.{content, moved, overwritten, without};
ghost use Rattle.hg_shelf.specs.declared.outside.Step.TheVariants as a_step;

use crate::outside::Step;
use hg_base::{Blob, OutOfMemory};
use std::alloc::Global;
use std::collections::BTreeMap;

// The bytes of a file, none of one that is absent.
fn bytes_of<'a>(files: &'a BTreeMap<String, Blob>, name: &str) -> &'a [u8]
    ensures { result.now ≡ content (get_by_text files.now name.now) }
{
    match files.get(name) {
        Some(bytes) => bytes.as_bytes(),
        None => &[],
    }
}

/// Puts a file in place of one of its name.
pub fn set(
    alloc: Global,
    files: &mut BTreeMap<String, Blob>,
    name: &str,
    bytes: Blob,
) -> Result<(), OutOfMemory>
    ensures ok { OnOk result ((at : List ℕ) → get_by_text files.new at ≡ with_file name.now bytes (get_by_text files.old) at) }
    ensures err { OnErr result ((at : List ℕ) → get_by_text files.new at ≡ get_by_text files.old at) }
{
    let name = String::from_str(alloc, name)?;
    files.insert(name, bytes)?;
    Ok(())
}

/// Puts a copy of some bytes in place of a file.
pub fn put(
    alloc: Global,
    files: &mut BTreeMap<String, Blob>,
    name: &str,
    bytes: &[u8],
) -> Result<(), OutOfMemory>
    ensures ok { OnOk result ((at : List ℕ) → get_by_text files.new at ≡ with_file name.now bytes.now (get_by_text files.old) at) }
    ensures err { OnErr result ((at : List ℕ) → get_by_text files.new at ≡ get_by_text files.old at) }
{
    let bytes = Blob::of(alloc, bytes)?;
    set(alloc, files, name, bytes)?;
    Ok(())
}

/// Takes a file away.
pub fn take(files: &mut BTreeMap<String, Blob>, name: &str)
    ensures { (at : List ℕ) → get_by_text files.new at ≡ without name.now (get_by_text files.old) at }
{
    let _ = files.remove(name);
}

// What lies past so many bytes from a place on.
fn behind(bytes: &[u8], place: u64, count: usize) -> &[u8]
    ensures { result.now ≡ drop (place + count) bytes.now }
{
    match (place as usize).checked_add(count) {
        Some(end) if end <= bytes.len() => bytes.split_at(end).1,
        _ => &[],
    }
}

// Some bytes with others written over them at a place; a place past the end has zeros before it.
fn written(alloc: Global, old: &[u8], place: u64, bytes: &[u8]) -> Result<Blob, OutOfMemory>
    ensures { IfOk result (λ b. b ≡ overwritten old.now place bytes.now) }
{
    let mut all = Vec::from_slice(alloc, old)?;
    all.resize(place as usize, 0)?;
    all.extend_from_slice(bytes)?;
    all.extend_from_slice(behind(old, place, bytes.len()))?;
    Blob::of(alloc, all.as_slice())
}

/// Writes bytes at a place of a file, and makes the file where it is absent.
pub fn write(
    alloc: Global,
    files: &mut BTreeMap<String, Blob>,
    name: &str,
    place: u64,
    bytes: &[u8],
) -> Result<(), OutOfMemory>
    ensures ok { OnOk
        result
        ((at : List ℕ)
        → get_by_text files.new at
        ≡ with_file name.now (overwritten (content (get_by_text files.old name.now)) place bytes.now) (get_by_text files.old) at) }
    ensures err { OnErr result ((at : List ℕ) → get_by_text files.new at ≡ get_by_text files.old at) }
{
    let bytes = written(alloc, bytes_of(files, name), place, bytes)?;
    set(alloc, files, name, bytes)?;
    Ok(())
}

// A copy of a file.
fn copied(
    alloc: Global,
    files: &BTreeMap<String, Blob>,
    name: &str,
) -> Result<Option<Blob>, OutOfMemory>
    ensures { IfOk result (λ copy. copy ≡ get_by_text files.now name.now) }
{
    match files.get(name) {
        Some(bytes) => {
            let copy = Blob::of(alloc, bytes.as_bytes())?;
            Ok(Some(copy))
        }
        None => Ok(None),
    }
}

// Takes a file away whose bytes have another name by now.
fn leave(files: &mut BTreeMap<String, Blob>, from: &str, to: &str)
    ensures { (at : List ℕ)
        → get_by_text files.new at
        ≡ (if bytes_eq to.now at
        then get_by_text files.old at
        else (without from.now (get_by_text files.old) at)) }
{
    if from == to {
        return;
    }
    take(files, from);
}

// Gives a file that is there another name.
fn move_there(
    alloc: Global,
    files: &mut BTreeMap<String, Blob>,
    from: &str,
    to: &str,
    bytes: Blob,
) -> Result<(), OutOfMemory>
    requires { get_by_text files.old from.now ≡ Some bytes }
    ensures ok { OnOk result ((at : List ℕ) → get_by_text files.new at ≡ moved from.now to.now (get_by_text files.old) at) }
    ensures err { OnErr result ((at : List ℕ) → get_by_text files.new at ≡ get_by_text files.old at) }
{
    set(alloc, files, to, bytes)?;
    leave(files, from, to);
    Ok(())
}

// Gives a file another name, in place of a file of that name. Of an absent file it changes nothing.
fn rename(
    alloc: Global,
    files: &mut BTreeMap<String, Blob>,
    from: &str,
    to: &str,
) -> Result<(), OutOfMemory>
    ensures ok { OnOk
        result
        ((at : List ℕ) → get_by_text files.new at ≡ stepped (a_step.Renamed from.now to.now) (get_by_text files.old) at) }
    ensures err { OnErr result ((at : List ℕ) → get_by_text files.new at ≡ get_by_text files.old at) }
{
    match copied(alloc, files, from)? {
        Some(bytes) => move_there(alloc, files, from, to, bytes),
        None => Ok(()),
    }
}

/// Does a step, or leaves all as it was.
pub fn step(
    alloc: Global,
    files: &mut BTreeMap<String, Blob>,
    what: &Step,
) -> Result<(), OutOfMemory>
    ensures ok { OnOk result ((at : List ℕ) → get_by_text files.new at ≡ stepped what.now (get_by_text files.old) at) }
    ensures err { OnErr result ((at : List ℕ) → get_by_text files.new at ≡ get_by_text files.old at) }
{
    match what {
        Step::Placed { name, bytes } => put(alloc, files, name.as_str(), bytes.as_bytes()),
        Step::Taken { name } => {
            take(files, name.as_str());
            Ok(())
        }
        Step::Wrote { name, place, bytes } => {
            write(alloc, files, name.as_str(), *place, bytes.as_bytes())?;
            Ok(())
        }
        Step::Synced { .. } => Ok(()),
        Step::Renamed { from, to } => rename(alloc, files, from.as_str(), to.as_str()),
        Step::SyncedNames => Ok(()),
        Step::Removed { name } => {
            take(files, name.as_str());
            Ok(())
        }
    }
}
