// What a crash leaves of a shelf in memory.
ghost use Rattle.std.specs.Prelude.{◌≡◌, ◌≤◌, ◌||◌, ◌++◌, ◌∷◌, [], ℕ, List, Some, None, length, replicate, bytes_eq, is_some, option_map, if◌then◌else◌, IfOk, OnOk};
ghost use Rattle.std.specs.BTreeMap.{get_by_text};
ghost use Rattle.hg_shelf.specs.Crash.{HasOnly, are_names_sure_by, done_by, effective, is_before, is_idle, is_sure_by, is_sync_of, kept, kept_by, lost, lost_by, name_after, picked_by, steps_up_to, stop_at, syncs_names, through, up_to};
ghost use Rattle.hg_shelf.specs.History.{Files, now};
ghost use Rattle.hg_shelf.specs.Memory.{empty, fresh, history_of, images_of, with_file};
ghost use Rattle.hg_shelf.specs.Rules.{content, moved, overwritten, without};
ghost use Rattle.hg_shelf.specs.declared.outside.Step.TheVariants as a_step;

use crate::files::{put, set, take, write};
use crate::memory::MemShelf;
use crate::outside::{Change, Step};
use crate::steps::{placed, removed, renamed, synced, wrote};
use hg_base::{Blob, OutOfMemory, Text};
use std::alloc::Global;
use std::collections::BTreeMap;

// Whether a change came before the call of that number.
fn is_before(change: &Change, call: u64) -> bool
    ensures { result ≡ is_before call change.now }
{
    change.call < call || (change.call == call && !change.by_us)
}

// Whether a file is there.
fn is_there(files: &BTreeMap<String, Blob>, name: &str) -> bool
    ensures { result ≡ is_some (get_by_text files.now name.now) }
{
    files.get(name).is_some()
}

// Whether a step is of an absent file, where it does nothing.
fn is_idle(step: &Step, files: &BTreeMap<String, Blob>) -> bool
    ensures { result ≡ is_idle step.now (get_by_text files.now) }
{
    match step {
        Step::Synced { name } => !is_there(files, name.as_str()),
        Step::Renamed { from, .. } => !is_there(files, from.as_str()),
        _ => false,
    }
}

// A copy of a step.
fn copied(alloc: Global, step: &Step) -> Result<Step, OutOfMemory>
    ensures { IfOk result (λ copy. copy ≡ step.now) }
{
    match step {
        Step::Placed { name, bytes } => placed(alloc, name.as_str(), bytes.as_bytes()),
        Step::Taken { name } => {
            let name = Text::of(alloc, name.as_str())?;
            Ok(Step::Taken { name })
        }
        Step::Wrote { name, place, bytes } => wrote(alloc, name.as_str(), *place, bytes.as_bytes()),
        Step::Synced { name } => synced(alloc, name.as_str()),
        Step::Renamed { from, to } => renamed(alloc, from.as_str(), to.as_str()),
        Step::SyncedNames => Ok(Step::SyncedNames),
        Step::Removed { name } => removed(alloc, name.as_str()),
    }
}

// Takes a file away, and answers what it held.
fn take_out(files: &mut BTreeMap<String, Blob>, name: &str) -> Option<Blob>
    ensures was { result ≡ get_by_text files.old name.now }
    ensures gone { (at : List ℕ) → get_by_text files.new at ≡ without name.now (get_by_text files.old) at }
{
    files.remove(name)
}

// Gives a file another name, and takes away what had that name also where the file is absent.
fn rename(
    alloc: Global,
    files: &mut BTreeMap<String, Blob>,
    from: &str,
    to: &str,
) -> Result<(), OutOfMemory>
    ensures { OnOk result ((at : List ℕ) → get_by_text files.new at ≡ moved from.now to.now (get_by_text files.old) at) }
{
    if from == to {
        return Ok(());
    }
    match take_out(files, from) {
        Some(bytes) => {
            set(alloc, files, to, bytes)?;
            Ok(())
        }
        None => {
            take(files, to);
            Ok(())
        }
    }
}

// Does a step wholly.
fn finish(alloc: Global, files: &mut BTreeMap<String, Blob>, step: &Step) -> Result<(), OutOfMemory>
    ensures { OnOk result ((at : List ℕ) → get_by_text files.new at ≡ done_by step.now (get_by_text files.old) at) }
{
    match step {
        Step::Placed { name, bytes } => put(alloc, files, name.as_str(), bytes.as_bytes()),
        Step::Taken { name } => {
            take(files, name.as_str());
            Ok(())
        }
        Step::Wrote { name, place, bytes } => {
            write(alloc, files, name.as_str(), *place, bytes.as_bytes())?;
            Ok(())
        }
        Step::Synced { .. } => Ok(()),
        Step::Renamed { from, to } => rename(alloc, files, from.as_str(), to.as_str()),
        Step::SyncedNames => Ok(()),
        Step::Removed { name } => {
            take(files, name.as_str());
            Ok(())
        }
    }
}

// Whether a step makes a file sure.
fn is_sync_of(step: &Step, file: &[u8]) -> bool
    ensures { result ≡ is_sync_of step.now file.now }
{
    match step {
        Step::Synced { name } => name.as_str().as_bytes() == file,
        _ => false,
    }
}

// The name that a file has after a step, `None` where the file is replaced or goes away.
fn name_after<'a>(step: &'a Step, file: &'a [u8]) -> Option<&'a [u8]>
    ensures { option_map (λ name. name.now) result ≡ name_after step.now file.now }
{
    match step {
        Step::Placed { name, .. } => unless(name.as_str().as_bytes(), file),
        Step::Taken { name } => unless(name.as_str().as_bytes(), file),
        Step::Removed { name } => unless(name.as_str().as_bytes(), file),
        Step::Renamed { from, to } => if from.as_str().as_bytes() == file {
            Some(to.as_str().as_bytes())
        } else {
            unless(to.as_str().as_bytes(), file)
        },
        Step::Wrote { .. } => Some(file),
        Step::Synced { .. } => Some(file),
        Step::SyncedNames => Some(file),
    }
}

// A name, unless it is that of what goes away.
fn unless<'a>(gone: &[u8], file: &'a [u8]) -> Option<&'a [u8]>
    ensures { option_map (λ name. name.now) result ≡ (if bytes_eq gone.now file.now then None else Some file.now) }
{
    if gone == file { None } else { Some(file) }
}

// Whether a file is made sure by some steps, under whatever name.
fn is_sure_by(steps: &[Step], file: &[u8]) -> bool
    ensures { result ≡ is_sure_by steps.now file.now }
{
    let mut file = file;
    for step in steps {
        if is_sync_of(step, file) {
            return true;
        }
        match name_after(step, file) {
            Some(name) => file = name,
            None => return false,
        }
    }
    false
}

// Whether a step makes names sure.
fn syncs_names(step: &Step) -> bool
    ensures { result ≡ syncs_names step.now }
{
    match step {
        Step::SyncedNames => true,
        _ => false,
    }
}

// Whether some steps make the names so far sure.
fn are_names_sure_by(steps: &[Step]) -> bool
    ensures { result ≡ are_names_sure_by steps.now }
{
    for step in steps {
        if syncs_names(step) {
            return true;
        }
    }
    false
}

// Whether a rename is made sure by some steps: as all names are, or with a file that has one of its names.
fn is_rename_sure_by(steps: &[Step], from: &str, to: &str) -> bool
    ensures { result ≡ (are_names_sure_by steps.now || is_sure_by steps.now from.now || is_sure_by steps.now to.now) }
{
    are_names_sure_by(steps)
        || is_sure_by(steps, from.as_bytes())
        || is_sure_by(steps, to.as_bytes())
}

// Whether a removal is made sure by some steps.
fn is_removal_sure_by(steps: &[Step], name: &str) -> bool
    ensures { result ≡ (are_names_sure_by steps.now || is_sure_by steps.now name.now) }
{
    are_names_sure_by(steps) || is_sure_by(steps, name.as_bytes())
}

// Fills the written range of a file.
fn fill_range(
    alloc: Global,
    files: &mut BTreeMap<String, Blob>,
    name: &str,
    place: u64,
    len: usize,
    fill: u8,
) -> Result<(), OutOfMemory>
    ensures { OnOk
        result
        ((at : List ℕ)
        → get_by_text files.new at
        ≡ with_file name.now (overwritten (content (get_by_text files.old name.now)) place (replicate len fill)) (get_by_text files.old) at) }
{
    let bytes = vec![in alloc; fill; len]?;
    write(alloc, files, name, place, bytes.as_slice())?;
    Ok(())
}

// A write, of which the bytes are lost where it isn't sure, and the file too where it wasn't there.
fn lose_write(
    alloc: Global,
    files: &mut BTreeMap<String, Blob>,
    rest: &[Step],
    name: &str,
    place: u64,
    bytes: &[u8],
    fill: u8,
) -> Result<(), OutOfMemory>
    ensures { OnOk
        result
        ((at : List ℕ)
        → get_by_text files.new at ≡ lost_by fill rest.now (a_step.Wrote name.now place bytes.now) (get_by_text files.old) at) }
{
    if is_sure_by(rest, name.as_bytes()) {
        write(alloc, files, name, place, bytes)?;
        return Ok(());
    }
    if is_there(files, name) {
        fill_range(alloc, files, name, place, bytes.len(), fill)?;
        return Ok(());
    }
    Ok(())
}

// A write, of which the bytes are lost where it isn't sure.
fn keep_write(
    alloc: Global,
    files: &mut BTreeMap<String, Blob>,
    rest: &[Step],
    name: &str,
    place: u64,
    bytes: &[u8],
    fill: u8,
) -> Result<(), OutOfMemory>
    ensures { OnOk
        result
        ((at : List ℕ)
        → get_by_text files.new at ≡ kept_by fill rest.now (a_step.Wrote name.now place bytes.now) (get_by_text files.old) at) }
{
    if is_sure_by(rest, name.as_bytes()) {
        write(alloc, files, name, place, bytes)?;
        return Ok(());
    }
    fill_range(alloc, files, name, place, bytes.len(), fill)?;
    Ok(())
}

// A rename, which is lost where it isn't sure.
fn lose_rename(
    alloc: Global,
    files: &mut BTreeMap<String, Blob>,
    rest: &[Step],
    from: &str,
    to: &str,
) -> Result<(), OutOfMemory>
    ensures { OnOk
        result
        ((at : List ℕ)
        → get_by_text files.new at
        ≡ (if are_names_sure_by rest.now || is_sure_by rest.now from.now || is_sure_by rest.now to.now
        then moved from.now to.now (get_by_text files.old)
        else get_by_text files.old)
        at) }
{
    if is_rename_sure_by(rest, from, to) {
        rename(alloc, files, from, to)?;
        return Ok(());
    }
    Ok(())
}

// A removal, which is lost where it isn't sure.
fn lose_removal(files: &mut BTreeMap<String, Blob>, rest: &[Step], name: &str)
    ensures { (at : List ℕ)
        → get_by_text files.new at
        ≡ (if are_names_sure_by rest.now || is_sure_by rest.now name.now
        then without name.now (get_by_text files.old)
        else get_by_text files.old)
        at }
{
    if is_removal_sure_by(rest, name) {
        take(files, name);
    }
}

// Does what is sure of a step.
fn lose(
    alloc: Global,
    files: &mut BTreeMap<String, Blob>,
    step: &Step,
    rest: &[Step],
    fill: u8,
) -> Result<(), OutOfMemory>
    ensures { OnOk result ((at : List ℕ) → get_by_text files.new at ≡ lost_by fill rest.now step.now (get_by_text files.old) at) }
{
    match step {
        Step::Placed { name, bytes } => put(alloc, files, name.as_str(), bytes.as_bytes()),
        Step::Taken { name } => {
            take(files, name.as_str());
            Ok(())
        }
        Step::Wrote { name, place, bytes } => {
            lose_write(
                alloc,
                files,
                rest,
                name.as_str(),
                *place,
                bytes.as_bytes(),
                fill,
            )?;
            Ok(())
        }
        Step::Synced { .. } => Ok(()),
        Step::Renamed { from, to } => {
            lose_rename(alloc, files, rest, from.as_str(), to.as_str())?;
            Ok(())
        }
        Step::SyncedNames => Ok(()),
        Step::Removed { name } => {
            lose_removal(files, rest, name.as_str());
            Ok(())
        }
    }
}

// Does a step, but for the bytes of a write that aren't sure.
fn keep(
    alloc: Global,
    files: &mut BTreeMap<String, Blob>,
    step: &Step,
    rest: &[Step],
    fill: u8,
) -> Result<(), OutOfMemory>
    ensures { OnOk result ((at : List ℕ) → get_by_text files.new at ≡ kept_by fill rest.now step.now (get_by_text files.old) at) }
{
    match step {
        Step::Placed { name, bytes } => put(alloc, files, name.as_str(), bytes.as_bytes()),
        Step::Taken { name } => {
            take(files, name.as_str());
            Ok(())
        }
        Step::Wrote { name, place, bytes } => {
            keep_write(
                alloc,
                files,
                rest,
                name.as_str(),
                *place,
                bytes.as_bytes(),
                fill,
            )?;
            Ok(())
        }
        Step::Synced { .. } => Ok(()),
        Step::Renamed { from, to } => rename(alloc, files, from.as_str(), to.as_str()),
        Step::SyncedNames => Ok(()),
        Step::Removed { name } => {
            take(files, name.as_str());
            Ok(())
        }
    }
}

// What a step leaves, by a pick.
fn leave(
    alloc: Global,
    files: &mut BTreeMap<String, Blob>,
    step: &Step,
    rest: &[Step],
    pick: u8,
) -> Result<(), OutOfMemory>
    ensures { OnOk result ((at : List ℕ) → get_by_text files.new at ≡ picked_by pick rest.now step.now (get_by_text files.old) at) }
{
    match pick {
        0 => lose(alloc, files, step, rest, 0xAA),
        1 => finish(alloc, files, step),
        _ => keep(alloc, files, step, rest, 0xFF),
    }
}

// What some steps leave, by a pick.
fn left(alloc: Global, steps: &[Step], pick: u8) -> Result<BTreeMap<String, Blob>, OutOfMemory>
    ensures { IfOk result (λ files. (at : List ℕ) → get_by_text files at ≡ through (picked_by pick) steps.now empty.files at) }
{
    let mut files = BTreeMap::new(alloc);
    let mut steps = steps;
    while let Some((step, rest)) = steps.split_first() {
        leave(alloc, &mut files, step, rest, pick)?;
        steps = rest;
    }
    Ok(files)
}

// Notes a step where it does something, and does it.
fn follow(
    alloc: Global,
    files: &mut BTreeMap<String, Blob>,
    steps: &mut Vec<Step>,
    step: &Step,
) -> Result<(), OutOfMemory>
    ensures noted { OnOk
        result
        (steps.new.items
        ≡ (if is_idle step.now (get_by_text files.old) then steps.old.items else steps.old.items ++ step.now ∷ [])) }
    ensures files { OnOk
        result
        ((at : List ℕ)
        → get_by_text files.new at
        ≡ (if is_idle step.now (get_by_text files.old)
        then get_by_text files.old
        else done_by step.now (get_by_text files.old))
        at) }
{
    if is_idle(step, files) {
        return Ok(());
    }
    let copy = copied(alloc, step)?;
    steps.push(copy)?;
    finish(alloc, files, step)?;
    Ok(())
}

// The steps that did something before the call of that number.
fn effective(alloc: Global, changes: &[Change], call: u64) -> Result<Vec<Step>, OutOfMemory>
    ensures { IfOk result (λ steps. steps.items ≡ effective (up_to call changes.now) empty.files) }
{
    let mut files = BTreeMap::new(alloc);
    let mut steps = Vec::new(alloc);
    for change in changes {
        if !is_before(change, call) {
            return Ok(steps);
        }
        follow(alloc, &mut files, &mut steps, &change.what)?;
    }
    Ok(steps)
}

// A shelf of these files, on which no call was made.
fn shelf_of(alloc: Global, files: &BTreeMap<String, Blob>) -> Result<MemShelf, OutOfMemory>
    ensures { IfOk result (λ shelf. HasOnly (get_by_text files.now) shelf) }
{
    let mut shelf = MemShelf::new(alloc)?;
    for (name, bytes) in files.iter() {
        shelf.place(name.as_str(), bytes.as_bytes())?;
    }
    Ok(shelf)
}

impl MemShelf {
    /// The shelf after a crash just before the call of that number, or now where no such call was made yet. What others change just
    /// before that call comes before the crash.
    ///
    /// Pick 0 loses all that isn't sure, and fills what was written to files that stay with 0xAA. Pick 1 keeps all. Every other pick
    /// keeps renames and removals, and fills what was written and isn't sure with 0xFF. The new shelf counts its calls anew; none is
    /// to fail, nothing is due, and the lock is free.
    pub fn crashed(&self, moment: u64, pick: u8) -> Result<MemShelf, OutOfMemory>
        requires { moment ≤ self.now.calls.made }
        ensures left { IfOk result (λ shelf. (images_of self.now (stop_at moment self.now)).leaves (now (history_of shelf)).files) }
        ensures lost { pick ≡ 0
            → IfOk
            result
            (λ shelf. (name : List ℕ) → (now (history_of shelf)).files name ≡ lost 170 (steps_up_to moment self.now) empty.files name) }
        ensures shown { pick ≡ 1
            → IfOk
            result
            (λ shelf. (name : List ℕ)
            → (now (history_of shelf)).files name ≡ ((history_of self.now).at (stop_at moment self.now)).files name) }
        ensures kept { (pick ≡ 0 → ⊥)
            → (pick ≡ 1 → ⊥)
            → IfOk
            result
            (λ shelf. (name : List ℕ) → (now (history_of shelf)).files name ≡ kept 255 (steps_up_to moment self.now) empty.files name) }
        ensures again { IfOk result (λ shelf. record shelf { changes = [] } ≡ fresh) }
        ensures alone { IfOk
            result
            (λ shelf. (c : Files)
            → (images_of shelf (length shelf.changes)).leaves c
            → (name : List ℕ)
            → c name ≡ (now (history_of shelf)).files name) }
    {
        let alloc = self.alloc();
        let steps = effective(alloc, self.changes(), moment)?;
        let files = left(alloc, steps.as_slice(), pick)?;
        let shelf = shelf_of(alloc, &files)?;
        Ok(shelf)
    }
}
