//! The files below `.hg` in the file system.

ghost use Rattle.std.specs.Prelude.{◌≡◌, ◌≤◌, IfOk, Ok, length};
ghost use Rattle.hg_base.specs.Fault.{HasCause};
ghost use Rattle.hg_base.specs.Reads.{IsWithin};

use crate::below::{below_hg, is_within, root_path, set_locked, was_found};
use crate::disk::{counted, is_absence};
use crate::failure::{FirstFailure, Reason};
use crate::holder::{ProcessId, holder};
use crate::lock_file::{
    Asked, Lock, Names, WLOCK, WLOCK_BREAK, WLOCK_BREAK_BREAK, WLOCK_NEW, give_back, take,
};
use crate::opened::Opened;
use crate::root::Root;
use crate::writing::{
    folder_of, look, make_folder, remove_file, rename_seen, sync_file, sync_names, write_file,
};
use hg_base::{Failed, Got, risen};
use hg_shelf::Shelf;
use hg_stream::fill;
use std::fs::{self, File};
use std::io::{Error, ErrorKind, Read, Seek, SeekFrom};
use std::rt::{Env, Files};

/// The files below `.hg` in a root folder, which is reached by its absolute name where it has one that serves, and else is the current one.
///
/// It tells nothing of its history but whether it has the lock, and counts each call that the file system failed, and each lock that was
/// refused. A file is absent where `.hg` or the file is missing, and where the system can't hold its name. What reads follows links;
/// what is no regular file behind them is a failure. What writes follows none, and makes the folders that are missing. From the beginning on a file is
/// made anew, and what lay behind the written bytes goes; where it writes behind the beginning of a file that has other names or may only be read, a copy of
/// what stands before takes that one's place first. A file may be read and written by whom `.hg` may be, or the file whose place it takes; it is
/// made sure by `sync`, or before the next write. The lock is one of the system's on the file `wlock`, which it gives back at the
/// end of the process; where the system has none it is a symbolic link, as Mercurial's own.
///
/// Files and folders that are made sure, or read under the lock, stay open until the shelf is dropped, up to 64: of a close that fails
/// nothing is told.
#[derive(Drop)]
pub struct RealShelf<'a, R: Files> {
    rt: &'a R,
    root: &'a Root,
    lock: Option<Lock>,
    opened: Opened,
    faults: u64,
    held: u64,
    failure: FirstFailure,
    refusal: Option<String>,
}

impl<'a, R: Files + Env + AllocGlobal> RealShelf<'a, R> {
    /// The files below `.hg` in this root. No call has failed yet, and the lock isn't taken.
    pub fn new(rt: &'a R, root: &'a Root) -> RealShelf<'a, R>
        ensures { result.faults ≡ 0 }
    {
        RealShelf {
            rt,
            root,
            lock: None,
            opened: Opened::new(rt.alloc()),
            faults: 0,
            held: 0,
            failure: FirstFailure::new(),
            refusal: None,
        }
    }

    /// The name and the reason of the first failure, as one text: `.hg/NAME: REASON`. There is none where nothing failed, or where there
    /// was no memory for the text.
    pub fn failure(&self) -> Option<&str> {
        self.failure.as_str()
    }

    /// What is to be said of the lock where it was refused the last time, where there is something: which other host has it.
    pub fn refusal(&self) -> Option<&str> {
        self.refusal.as_deref()
    }

    // The answer of a call on a file. A failure is counted, and why it failed is kept.
    fn answered<T: Drop>(&mut self, name: &str, answer: Result<T, Reason>) -> Result<T, Failed>
        ensures same { IfOk result (λ thing. answer ≡ Ok thing) }
        ensures lock { self.new.lock ≡ self.old.lock }
        ensures held { self.new.held ≡ self.old.held }
        ensures cause { HasCause self.old.faults self.new.faults result (λ e. Unit {0}) }
    {
        let answer = match answer {
            Ok(thing) => Ok(thing),
            Err(reason) => {
                self.failure
                    .keep(self.rt.alloc(), b".hg", name.as_bytes(), reason);
                Err(Failed)
            }
        };
        counted(&mut self.faults, answer)
    }
}

impl<'a, R: Files<File = File> + Env + AllocGlobal + ProcessId> Shelf for RealShelf<'a, R> {
    ghost use Rattle.std.specs.Prelude.{is_some};
    ghost use Rattle.hg_shelf.specs.History.{untold};
    ghost use Rattle.hg_shelf.specs.Images.{unknown};

    ghost history = { λ s. untold (is_some s.lock) };

    ghost images = { λ _. unknown };

    ghost faults = { λ s. s.faults };

    ghost held = { λ s. s.held };

    fn size(&mut self, name: &str) -> Result<Option<u64>, Failed> {
        let answer = size_of(self.rt, self.root, name);
        self.answered(name, answer)
    }

    fn read_at(&mut self, name: &str, place: u64, buf: &mut [u8]) -> Result<Got, Failed> {
        let stays = self.lock.is_some();
        let answer = read_file(
            self.rt,
            self.root,
            &mut self.opened,
            stays,
            name,
            place,
            buf,
        );
        self.answered(name, answer)
    }

    fn write_at(&mut self, name: &str, place: u64, bytes: &[u8]) -> Result<(), Failed> {
        let answer = put(self.rt, self.root, &mut self.opened, name, place, bytes);
        self.answered(name, answer)
    }

    fn sync(&mut self, name: &str) -> Result<(), Failed> {
        let answer = make_sure(self.rt, self.root, &mut self.opened, name);
        self.answered(name, answer)
    }

    fn rename(&mut self, from: &str, to: &str) -> Result<(), Failed> {
        let answer = change_name(self.rt, self.root, &mut self.opened, from, to);
        self.answered(from, answer)
    }

    fn sync_names(&mut self) -> Result<(), Failed> {
        let answer = sync_folder(self.rt, self.root, &mut self.opened, "");
        self.answered("", answer)
    }

    fn remove(&mut self, name: &str) -> Result<(), Failed> {
        let answer = take_away(self.rt, self.root, name);
        self.answered(name, answer)
    }

    fn lock(&mut self) -> Result<bool, Failed> {
        if self.lock.is_some() {
            return Ok(true);
        }
        let answer = take_lock(self.rt, self.root, &mut self.opened);
        set_locked(self.root, matches!(answer, Ok(Asked::Had(_))));
        match self.answered(WLOCK, answer)? {
            Asked::Had(lock) => {
                self.lock = Some(lock);
                Ok(true)
            }
            Asked::Held(refusal) => {
                self.refusal = refusal;
                self.held = risen(self.held);
                Ok(false)
            }
        }
    }

    fn unlock(&mut self) -> Result<(), Failed> {
        let Some(lock) = self.lock.take() else {
            return Ok(());
        };
        let answer = give_lock_back(self.rt, self.root, &mut self.opened, lock);
        set_locked(self.root, false);
        self.answered(WLOCK, answer)
    }

    ghost named_leaves = { λ s k c named. named };

    ghost shown_named = { λ s k told below. tt };
}

// What was written before is made sure first, so that nothing is closed without that.
fn put<R: Files<File = File> + Env + AllocGlobal>(
    rt: &R,
    root: &Root,
    opened: &mut Opened,
    name: &str,
    place: u64,
    bytes: &[u8],
) -> Result<(), Reason> {
    opened.sync_written()?;
    make_folders(rt, root, opened, name)?;
    let hg = below_hg(rt, root, "")?;
    let path = below_hg(rt, root, name)?;
    write_file(rt, opened, hg.as_str(), path.as_str(), place, bytes)
}

// The file, and that its folder names it.
fn make_sure<R: Files<File = File> + Env + AllocGlobal>(
    rt: &R,
    root: &Root,
    opened: &mut Opened,
    name: &str,
) -> Result<(), Reason> {
    let path = below_hg(rt, root, name)?;
    sync_file(rt, opened, path.as_str())?;
    sync_folder(rt, root, opened, folder_of(name).unwrap_or(""))
}

fn change_name<R: Files<File = File> + Env + AllocGlobal>(
    rt: &R,
    root: &Root,
    opened: &mut Opened,
    from: &str,
    to: &str,
) -> Result<(), Reason> {
    let from = below_hg(rt, root, from)?;
    let Some(seen) = look(rt, from.as_str())? else {
        return Ok(());
    };
    make_folders(rt, root, opened, to)?;
    let to = below_hg(rt, root, to)?;
    let before = look(rt, to.as_str())?;
    // The first docket of a folder `.hg` that an earlier call may have made, and ended before it was sure.
    if before.is_none() {
        sync_names(rt, opened, root_path(root))?;
    }
    rename_seen(rt, opened, from.as_str(), &seen, to.as_str(), before)
}

fn take_away<R: Files + Env + AllocGlobal>(rt: &R, root: &Root, name: &str) -> Result<(), Reason> {
    let path = below_hg(rt, root, name)?;
    remove_file(rt, path.as_str())
}

fn take_lock<R: Files<File = File> + Env + AllocGlobal + ProcessId>(
    rt: &R,
    root: &Root,
    opened: &mut Opened,
) -> Result<Asked, Reason> {
    if !was_found(root) {
        make_hg(rt, root, opened)?;
    }
    set_locked(root, true);
    let names = Names {
        hg: below_hg(rt, root, "")?,
        lock: below_hg(rt, root, WLOCK)?,
        new: below_hg(rt, root, WLOCK_NEW)?,
        breaking: below_hg(rt, root, WLOCK_BREAK)?,
        barring: below_hg(rt, root, WLOCK_BREAK_BREAK)?,
        holder: holder(rt)?,
    };
    take(rt, opened, &names)
}

fn give_lock_back<R: Files<File = File> + Env + AllocGlobal>(
    rt: &R,
    root: &Root,
    opened: &mut Opened,
    lock: Lock,
) -> Result<(), Reason> {
    let path = below_hg(rt, root, WLOCK)?;
    give_back(rt, opened, path.as_str(), lock)
}

// Makes sure which names a folder below `.hg` has; that is `.hg` itself for the empty name.
fn sync_folder<R: Files<File = File> + Env + AllocGlobal>(
    rt: &R,
    root: &Root,
    opened: &mut Opened,
    folder: &str,
) -> Result<(), Reason> {
    let path = below_hg(rt, root, folder)?;
    match sync_names(rt, opened, path.as_str()) {
        Err(error) if !is_absence(&error) => Err(Reason::System(error)),
        _ => Ok(()),
    }
}

// The path of `.hg`, which is made where it is missing.
fn make_hg<R: Files<File = File> + Env + AllocGlobal>(
    rt: &R,
    root: &Root,
    opened: &mut Opened,
) -> Result<String, Reason> {
    let hg = below_hg(rt, root, "")?;
    if !is_within(root) && make_folder(rt, hg.as_str())? {
        sync_names(rt, opened, root_path(root))?;
    }
    Ok(hg)
}

// Makes the folders in which a file is to stand, where they are missing, `.hg` too; each is made sure in the folder above.
fn make_folders<R: Files<File = File> + Env + AllocGlobal>(
    rt: &R,
    root: &Root,
    opened: &mut Opened,
    name: &str,
) -> Result<(), Reason> {
    let mut above = make_hg(rt, root, opened)?;
    for (at, _) in name.match_indices('/') {
        let folder = below_hg(rt, root, &name[..at])?;
        if make_folder(rt, folder.as_str())? {
            sync_names(rt, opened, above.as_str())?;
        }
        above = folder;
    }
    Ok(())
}

fn size_of<R: Files + Env + AllocGlobal>(
    rt: &R,
    root: &Root,
    name: &str,
) -> Result<Option<u64>, Reason> {
    let path = below_hg(rt, root, name)?;
    file_size(rt, path.as_str())
}

// The size in bytes of the regular file at the path, links followed.
fn file_size<R: Files>(rt: &R, path: &str) -> Result<Option<u64>, Reason> {
    match fs::metadata(rt, path) {
        Ok(metadata) if metadata.is_file() => Ok(Some(metadata.len())),
        Ok(_) => Err(Reason::Words("not a regular file")),
        Err(error) if is_absence(&error) => Ok(None),
        Err(error) => Err(Reason::System(error)),
    }
}

// Where it is to stay open, the file that was read is kept.
fn read_file<R: Files<File = File> + Env + AllocGlobal>(
    rt: &R,
    root: &Root,
    opened: &mut Opened,
    stays: bool,
    name: &str,
    place: u64,
    buf: &mut [u8],
) -> Result<Got, Reason>
    ensures { IfOk result (λ got. IsWithin (length buf.old) got) }
{
    let path = below_hg(rt, root, name)?;
    // A fifo isn't opened: that would wait for a writer.
    let Some(size) = file_size(rt, path.as_str())? else {
        return Ok(Got::Absent);
    };
    if size <= place {
        return Ok(Got::Bytes(0));
    }
    match fs::open(rt, path.as_str()) {
        Ok(mut file) => {
            let n = read_past(&mut file, place, buf)?;
            if stays {
                opened.keep(file);
            }
            Ok(Got::Bytes(n))
        }
        Err(error) if is_absence(&error) => Ok(Got::Absent),
        Err(error) => Err(Reason::System(error)),
    }
}

fn read_past<F: Read + Seek>(file: &mut F, place: u64, buf: &mut [u8]) -> Result<usize, Error>
    ensures { IfOk result (λ n. n ≤ length buf.old) }
{
    match file.seek(SeekFrom::Start(place)) {
        Ok(_) => fill(file, buf),
        Err(error) => Err(error),
    }
}
