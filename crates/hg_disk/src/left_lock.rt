//! What an earlier process left of the lock: its file before or behind the moment at which that got its name, and Mercurial's locks for taking one away.

use crate::failure::Reason;
use crate::holder::{held_by, is_elsewhere, is_gone};
use crate::lock_file::{
    Lock, Locked, Names, Tried, WLOCK, WLOCK_NEW, link_holder, lock_open, make_link, stands,
    take_away,
};
use crate::opened::Opened;
use crate::writing::{look, open_seen, remove_file};
use std::alloc::Global;
use std::fs::{self, File, Metadata};
use std::io::{Error, ErrorKind, Read, Seek, SeekFrom, Write};
use std::os::unix::fs::MetadataExt;
use std::rt::Files;

// How many bytes of a file that stayed behind are read and covered at most, more than any holder has.
const LONGEST: u64 = 255;

/// Takes away the file of a process that was stopped before it had the lock. One that is locked is of a process that is about to have it.
pub(crate) fn clear<R: Files<File = File> + AllocGlobal>(
    rt: &R,
    opened: &mut Opened,
    names: &Names,
) -> Result<Tried, Reason> {
    let path = names.new.as_str();
    let Some(seen) = look(rt, path)? else {
        return Ok(Tried::Gone);
    };
    let Some(file) = open_either(rt, path, &seen)? else {
        return Ok(Tried::Gone);
    };
    match ended(rt, names, path, WLOCK_NEW, &seen, file)? {
        Maker::Dead(file) => {
            take_away(rt, path, &file)?;
            let_go(opened, file);
            Ok(Tried::Gone)
        }
        Maker::Unknown(mut file) => {
            if !is_left(rt, names, &seen, &mut file)? {
                // (a link needs no first name)
                return make_link(rt, names);
            }
            take_away(rt, path, &file)?;
            let_go(opened, file);
            Ok(Tried::Gone)
        }
        Maker::Held(said) => Ok(Tried::Held(said)),
        Maker::Gone => Ok(Tried::Gone),
    }
}

// Opens the file that was seen, for writing too where it may be: some systems lock no other.
fn open_either<R: Files<File = File>>(
    rt: &R,
    path: &str,
    seen: &Metadata,
) -> Result<Option<File>, Reason> {
    match open_seen(rt, path, seen, true) {
        Err(Reason::System(error)) if error.kind() == ErrorKind::PermissionDenied => {
            open_seen(rt, path, seen, false)
        }
        there => there,
    }
}

// Lets go of a file that stands nowhere any more.
fn let_go(opened: &mut Opened, file: File) {
    // (one that isn't kept is closed, which lets go of it too)
    if file.unlock().is_ok() {
        opened.keep(file);
    }
}

// What became of the process that made a file.
enum Maker {
    // It has ended, and we have the lock of the file.
    Dead(File),
    // The system has no lock for the file.
    Unknown(File),
    // It may live, and what is to be said of that, where there is something.
    Held(Option<String>),
    // The file isn't the one of its name any more.
    Gone,
}

// Whether the process has ended that made a file of ours. It has where the system gives the lock; a process of another host may live all the same.
fn ended<R: Files<File = File> + AllocGlobal>(
    rt: &R,
    names: &Names,
    path: &str,
    name: &str,
    seen: &Metadata,
    file: File,
) -> Result<Maker, Reason> {
    let (mut file, is_ours) = match lock_open(rt, path, file)? {
        Locked::Ours(file) => (file, true),
        Locked::Without(file) => (file, false),
        Locked::Held => return Ok(Maker::Held(None)),
        Locked::Gone => return Ok(Maker::Gone),
    };
    let Some(told) = told_by(rt.alloc(), &mut file, seen.len())? else {
        return Ok(Maker::Held(None));
    };
    if is_elsewhere(names.holder.as_str(), told.as_slice()) {
        let said = held_by(rt.alloc(), name, told.as_slice())?;
        return Ok(Maker::Held(Some(said)));
    }
    if is_ours {
        Ok(Maker::Dead(file))
    } else {
        Ok(Maker::Unknown(file))
    }
}

// What a file of ours says of its holder; none where it is no lock of ours: where a file system has no symbolic links Mercurial's own lock is a regular
// file, with a holder and no space behind it. It is Mercurial's to say whether that holder lives.
fn told_by(alloc: Global, file: &mut File, len: u64) -> Result<Option<Vec<u8>>, Error> {
    if len > LONGEST {
        return Ok(None);
    }
    let mut text = Vec::new(alloc);
    file.read_to_end(&mut text)?;
    file.seek(SeekFrom::Start(0))?;
    if text.last().is_some_and(|last| *last != b' ') {
        return Ok(None);
    }
    Ok(Some(text))
}

/// Takes the lock by a file that a process left behind.
pub(crate) fn take_over<R: Files<File = File> + AllocGlobal>(
    rt: &R,
    opened: &mut Opened,
    names: &Names,
    seen: &Metadata,
) -> Result<Tried, Reason> {
    let path = names.lock.as_str();
    let (there, is_writable) = match open_seen(rt, path, seen, true) {
        Err(Reason::System(error)) if error.kind() == ErrorKind::PermissionDenied => {
            (open_seen(rt, path, seen, false)?, false)
        }
        there => (there?, true),
    };
    let Some(file) = there else {
        return Ok(Tried::Gone);
    };
    // (what has other names too isn't written: it may be anything)
    let stays = is_writable && seen.nlink() == 1;
    match ended(rt, names, path, WLOCK, seen, file)? {
        Maker::Dead(file) if stays => keep(rt, names, seen, file),
        Maker::Dead(file) => clear_lock(rt, opened, names, file),
        Maker::Unknown(mut file) => {
            if !is_left(rt, names, seen, &mut file)? {
                return Ok(Tried::Held(None));
            }
            clear_lock(rt, opened, names, file)
        }
        Maker::Held(said) => Ok(Tried::Held(said)),
        Maker::Gone => Ok(Tried::Gone),
    }
}

// Whether the process is gone, by its number, that made a file for which the system has no lock.
fn is_left<R: Files + AllocGlobal>(
    rt: &R,
    names: &Names,
    seen: &Metadata,
    file: &mut File,
) -> Result<bool, Reason> {
    match told_by(rt.alloc(), file, seen.len())? {
        Some(told) => is_gone(rt, names.holder.as_str(), told.as_slice()),
        None => Ok(false),
    }
}

// Has the file tell its new holder. Until it does Mercurial may be about to take it away, which it does under a lock of its own, behind another look at the
// holder: so where that lock isn't there behind the write, the file stays.
fn keep<R: Files<File = File> + AllocGlobal>(
    rt: &R,
    names: &Names,
    seen: &Metadata,
    file: File,
) -> Result<Tried, Reason> {
    let mut file = file;
    tell(rt.alloc(), &mut file, seen.len(), names.holder.as_str())?;
    if is_breaking(rt, names)? || !stands(rt, names.lock.as_str(), &file)? {
        return Ok(Tried::Gone);
    }
    Ok(Tried::Had(Lock::File(file)))
}

// Takes away a dead process's file that may not be written, as another user's, or has other names, under Mercurial's lock for that.
fn clear_lock<R: Files<File = File> + AllocGlobal>(
    rt: &R,
    opened: &mut Opened,
    names: &Names,
    file: File,
) -> Result<Tried, Reason> {
    if is_breaking(rt, names)? || !link_holder(rt, names, names.breaking.as_str())? {
        return Ok(Tried::Held(None));
    }
    let taken_away = take_away(rt, names.lock.as_str(), &file);
    let freed = remove_file(rt, names.breaking.as_str());
    taken_away?;
    freed?;
    let_go(opened, file);
    Ok(Tried::Gone)
}

// Whether Mercurial is about to take the lock's file away. What a dead process left of that is taken away first, under one lock more, as Mercurial does.
fn is_breaking<R: Files<File = File> + AllocGlobal>(rt: &R, names: &Names) -> Result<bool, Reason> {
    let path = names.breaking.as_str();
    if look(rt, path)?.is_none() {
        return Ok(false);
    }
    let Ok(told) = fs::read_link(rt, path) else {
        return Ok(true);
    };
    if !is_gone(rt, names.holder.as_str(), told.as_str().as_bytes())?
        || !link_holder(rt, names, names.barring.as_str())?
    {
        return Ok(true);
    }
    let is_same = fs::read_link(rt, path).is_ok_and(|now| now.as_str() == told.as_str());
    let taken_away = if is_same {
        remove_file(rt, path)
    } else {
        Ok(())
    };
    let freed = remove_file(rt, names.barring.as_str());
    taken_away?;
    freed?;
    Ok(!is_same)
}

// Has the file tell its holder, in place of so many bytes. That is one write, with spaces up to the end of what was there, which count for nothing
// behind a process's number: who reads meanwhile reads the one holder or the other.
fn tell(alloc: Global, file: &mut File, len: u64, holder: &str) -> Result<(), Error> {
    let mut text = Vec::from_slice(alloc, holder.as_bytes())?;
    for _ in holder.len() as u64..len.min(LONGEST) {
        text.push(b' ')?;
    }
    file.write_all(text.as_slice())?;
    file.set_len(holder.len() as u64)
}
