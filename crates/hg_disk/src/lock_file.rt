//! The lock of a working copy: a lock of the system on the regular file `.hg/wlock`, which is given back at the process's end, however that
//! comes. The file is taken away with the lock, so that Mercurial, whose own lock is a symbolic link of that name, isn't kept out by it.
//!
//! The file tells its holder in the words of Mercurial's lock, from the moment at which it has its name: it is written and locked as
//! `wlock-new`, and then linked. So Mercurial names a holder that lives, and takes away the file of a dead one without waiting. A file of
//! ours that stayed behind is taken over where it stands, or taken away where it is another user's. What another host has is never touched: whether the
//! system's locks reach from one host to the other can't be known. Where the system has no such locks, ours is a symbolic link, too.

use crate::disk::is_absence;
use crate::failure::Reason;
use crate::holder::enough;
use crate::left_lock::{clear, take_over};
use crate::opened::Opened;
use crate::spot::spot_of;
use crate::writing::{look, make_below, remove_file};
use std::fs::{self, File, TryLockError};
use std::io::{Error, ErrorKind, Write};
use std::os::unix::fs::symlink;
use std::rt::Files;

// How often another file may stand at the name by the time that the lock is there.
const TRIES: u32 = 100;

// What the system says where it has no locks of files, and of a file that isn't open for writing where they are another system's.
const NO_LOCKS: i32 = 37;

const NOT_OPEN: i32 = 9;

/// The names below `.hg` of the lock's file, before it has its name, and of the locks under which Mercurial takes away the lock of a dead process, and that
/// one.
pub(crate) const WLOCK: &str = "wlock";

pub(crate) const WLOCK_NEW: &str = "wlock-new";

pub(crate) const WLOCK_BREAK: &str = "wlock.break";

pub(crate) const WLOCK_BREAK_BREAK: &str = "wlock.break.break";

/// These names as paths, with that of `.hg`, and what the lock says of its holder.
#[derive(Drop)]
pub(crate) struct Names {
    pub(crate) hg: String,
    pub(crate) lock: String,
    pub(crate) new: String,
    pub(crate) breaking: String,
    pub(crate) barring: String,
    pub(crate) holder: String,
}

/// A lock that one has.
#[derive(Drop)]
pub(crate) enum Lock {
    /// The file that the system has locked.
    File(File),
    /// A symbolic link, with what it says of its holder.
    Link(String),
}

/// What became of asking for the lock.
#[derive(Drop)]
pub(crate) enum Asked {
    Had(Lock),
    /// Another has it, and what is to be said of that, where there is something.
    Held(Option<String>),
}

/// What one try came to.
pub(crate) enum Tried {
    Had(Lock),
    Held(Option<String>),
    /// The file went away meanwhile.
    Gone,
}

/// What a try to lock an open file came to.
pub(crate) enum Locked {
    Ours(File),
    Held,
    /// It isn't the one of its name any more.
    Gone,
    /// The system has no lock for it.
    Without(File),
}

/// Takes the lock, where nobody has it. A symbolic link is Mercurial's lock.
pub(crate) fn take<R: Files<File = File> + AllocGlobal>(
    rt: &R,
    opened: &mut Opened,
    names: &Names,
) -> Result<Asked, Reason> {
    for _ in 0..TRIES {
        match try_once(rt, opened, names)? {
            Tried::Had(lock) => return Ok(Asked::Had(lock)),
            Tried::Held(said) => return Ok(Asked::Held(said)),
            Tried::Gone => {}
        }
    }
    Ok(Asked::Held(None))
}

fn try_once<R: Files<File = File> + AllocGlobal>(
    rt: &R,
    opened: &mut Opened,
    names: &Names,
) -> Result<Tried, Reason> {
    match look(rt, names.lock.as_str())? {
        Some(seen) if seen.is_symlink() => Ok(Tried::Held(None)),
        Some(seen) => take_over(rt, opened, names, &seen),
        None => make_new(rt, opened, names),
    }
}

// Makes the file under its first name, and gives it the lock's where nothing stands there.
fn make_new<R: Files<File = File> + AllocGlobal>(
    rt: &R,
    opened: &mut Opened,
    names: &Names,
) -> Result<Tried, Reason> {
    let new = names.new.as_str();
    match make_held(rt, names, new)? {
        Made::Held(file) => name_it(rt, names, file),
        Made::Without => {
            remove_file(rt, new)?;
            make_link(rt, names)
        }
        Made::Gone => Ok(Tried::Gone),
        Made::Behind => clear(rt, opened, names),
    }
}

// Has the file tell its holder, and then gives it the lock's name. Another may have put a file of its own at the first name meanwhile.
fn name_it<R: Files<File = File>>(rt: &R, names: &Names, file: File) -> Result<Tried, Reason> {
    let (new, lock) = (names.new.as_str(), names.lock.as_str());
    let mut file = file;
    let linked = match file.write_all(names.holder.as_bytes()) {
        Ok(()) => fs::hard_link(rt, new, lock),
        Err(error) => Err(error),
    };
    remove_file(rt, new)?;
    match linked {
        Ok(()) if stands(rt, lock, &file)? => Ok(Tried::Had(Lock::File(file))),
        Ok(()) => Ok(Tried::Gone),
        Err(error) if error.kind() == ErrorKind::AlreadyExists || is_absence(&error) => {
            Ok(Tried::Gone)
        }
        Err(error) if has_no_links(&error) => make_there(rt, names),
        Err(error) => Err(Reason::System(error)),
    }
}

// What became of a file that is made and locked.
enum Made {
    Held(File),
    // The system has no lock for it.
    Without,
    // Another process has it, or took it away.
    Gone,
    // One stood there before.
    Behind,
}

fn make_held<R: Files<File = File>>(rt: &R, names: &Names, path: &str) -> Result<Made, Reason> {
    let file = match make_below(rt, names.hg.as_str(), path) {
        Ok(file) => file,
        Err(error) if error.kind() == ErrorKind::AlreadyExists => return Ok(Made::Behind),
        Err(error) => return Err(Reason::System(error)),
    };
    match lock_open(rt, path, file)? {
        Locked::Ours(file) => Ok(Made::Held(file)),
        Locked::Without(_) => Ok(Made::Without),
        Locked::Held | Locked::Gone => Ok(Made::Gone),
    }
}

// Whether the system says that a file can't have two names there.
fn has_no_links(error: &Error) -> bool {
    matches!(
        error.kind(),
        ErrorKind::PermissionDenied | ErrorKind::Unsupported
    )
}

// Makes the file at the lock's name, where a file can't have two. It tells no holder for a moment.
fn make_there<R: Files<File = File>>(rt: &R, names: &Names) -> Result<Tried, Reason> {
    match make_held(rt, names, names.lock.as_str())? {
        Made::Held(mut file) => {
            file.write_all(names.holder.as_bytes())?;
            Ok(Tried::Had(Lock::File(file)))
        }
        Made::Without => {
            remove_file(rt, names.lock.as_str())?;
            Err(Reason::Words("no lock of a file, and no second name"))
        }
        Made::Gone | Made::Behind => Ok(Tried::Gone),
    }
}

/// Has the lock be a symbolic link, as Mercurial's own, where nothing stands at its name.
pub(crate) fn make_link<R: Files<File = File> + AllocGlobal>(
    rt: &R,
    names: &Names,
) -> Result<Tried, Reason> {
    if !link_holder(rt, names, names.lock.as_str())? {
        return Ok(Tried::Gone);
    }
    let told = enough(String::from_str(rt.alloc(), told_by_link(names)))?;
    Ok(Tried::Had(Lock::Link(told)))
}

// What a link tells: the holder, as Mercurial has it.
fn told_by_link(names: &Names) -> &str {
    names.holder.trim_ascii_end()
}

/// Makes a link that leads nowhere and tells the holder, and says whether nothing stood there.
pub(crate) fn link_holder<R: Files>(rt: &R, names: &Names, path: &str) -> Result<bool, Reason> {
    if names.holder.is_empty() {
        return Err(Reason::Words("the host's name can't be read"));
    }
    match symlink(rt, told_by_link(names), path) {
        Ok(()) => Ok(true),
        Err(error) if error.kind() == ErrorKind::AlreadyExists => Ok(false),
        Err(error) => Err(Reason::System(error)),
    }
}

/// Locks the file, and looks whether it is still the one of that name.
pub(crate) fn lock_open<R: Files<File = File>>(
    rt: &R,
    path: &str,
    file: File,
) -> Result<Locked, Reason> {
    match file.try_lock() {
        Ok(()) => {}
        Err(TryLockError::WouldBlock) => return Ok(Locked::Held),
        Err(TryLockError::Error(error)) if has_no_lock(&error) => return Ok(Locked::Without(file)),
        Err(TryLockError::Error(error)) => return Err(Reason::System(error)),
    }
    if stands(rt, path, &file)? {
        Ok(Locked::Ours(file))
    } else {
        Ok(Locked::Gone)
    }
}

// Whether the system says that it has no lock for a file.
fn has_no_lock(error: &Error) -> bool {
    error.kind() == ErrorKind::Unsupported
        || matches!(error.raw_os_error(), Some(NO_LOCKS | NOT_OPEN))
}

/// Whether the open file is the one at the path.
pub(crate) fn stands<R: Files<File = File>>(
    rt: &R,
    path: &str,
    file: &File,
) -> Result<bool, Error> {
    match look(rt, path)? {
        Some(seen) => Ok(spot_of(&seen) == spot_of(&file.metadata()?)),
        None => Ok(false),
    }
}

/// Gives the lock back: takes it away, and lets go of its file. That is let go also where it can't be taken away.
pub(crate) fn give_back<R: Files<File = File> + AllocGlobal>(
    rt: &R,
    opened: &mut Opened,
    path: &str,
    lock: Lock,
) -> Result<(), Reason> {
    match lock {
        Lock::File(file) => give_file_back(rt, opened, path, file),
        Lock::Link(told) => give_link_back(rt, path, told.as_str()),
    }
}

fn give_file_back<R: Files<File = File>>(
    rt: &R,
    opened: &mut Opened,
    path: &str,
    file: File,
) -> Result<(), Reason> {
    let taken_away = take_away(rt, path, &file);
    let let_go = file.unlock();
    // (a file that isn't kept is closed, which lets go of the lock too)
    taken_away?;
    let_go?;
    opened.keep(file);
    Ok(())
}

fn give_link_back<R: Files + AllocGlobal>(rt: &R, path: &str, told: &str) -> Result<(), Reason> {
    if fs::read_link(rt, path).is_ok_and(|now| now.as_str() == told) {
        remove_file(rt, path)?;
    }
    Ok(())
}

/// Takes the file away, where it is still the one at the path.
pub(crate) fn take_away<R: Files<File = File>>(
    rt: &R,
    path: &str,
    file: &File,
) -> Result<(), Reason> {
    if stands(rt, path, file)? {
        remove_file(rt, path)?;
    }
    Ok(())
}
