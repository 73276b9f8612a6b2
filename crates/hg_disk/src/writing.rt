//! Writing below `.hg` in the file system. Nothing is written through a link, nor to what is no regular file, and no file is made with more rights
//! than to be read and written by whom the folder `.hg` may be.

use crate::disk::is_absence;
use crate::failure::Reason;
use crate::opened::{Opened, Written};
use crate::spot::spot_of;
use hg_stream::fill;
use std::alloc::Global;
use std::format;
use std::fs::{self, File, Metadata, OpenFile, Permissions};
use std::io::{Error, ErrorKind, Read, Seek, SeekFrom, Write};
use std::os::fd::AsFd;
use std::os::unix::fs::{MetadataExt, OpenOptionsExt, PermissionsExt, fchown};
use std::rt::Files;
use std::time::{Duration, SystemTime, UNIX_EPOCH};

// The bits of a mode that say who may read and write a file. No file below `.hg` is a program.
const READ_WRITE: u32 = 0o666;

// What the owner may do with each new file.
const OWN: u32 = 0o600;

// All bits of a mode that say how a file can be used, those by which a program runs as its owner too.
const ALL: u32 = 0o7777;

// What a name stands for whose file went away while it was opened.
const EXCHANGED: Reason = Reason::Words("another file took its place");

// What keeps a name from being written.
const OTHER: Reason = Reason::Words("not a regular file");

/// What stands at the path, without following a link, where anything does.
pub(crate) fn look<R: Files>(rt: &R, path: &str) -> Result<Option<Metadata>, Error> {
    match fs::symlink_metadata(rt, path) {
        Ok(metadata) => Ok(Some(metadata)),
        Err(error) if is_absence(&error) => Ok(None),
        Err(error) => Err(error),
    }
}

/// Makes a regular file that isn't there yet, for writing, less what the user's mask takes away.
pub(crate) fn make<R: Files>(rt: &R, path: &str, mode: u32) -> Result<R::File, Error> {
    File::options()
        .write(true)
        .create_new(true)
        .mode(mode)
        .open(rt, path)
}

/// Makes a regular file below the folder `hg` that isn't there yet, for writing. It may be read and written by whom that folder may be, whatever the
/// user's mask, as Mercurial has it (its `createmode`).
pub(crate) fn make_below<R: Files>(rt: &R, hg: &str, path: &str) -> Result<R::File, Error> {
    let mode = mode_below(&fs::metadata(rt, hg)?);
    let (file, _) = make_with(rt, path, mode)?;
    Ok(file)
}

fn mode_below(folder: &Metadata) -> u32 {
    folder.mode() & READ_WRITE | OWN
}

// The same with rights that are told, and what the file shows. They are set on the open file; where the system keeps none, it has those that it has.
fn make_with<R: Files>(rt: &R, path: &str, mode: u32) -> Result<(R::File, Metadata), Error> {
    let file = make(rt, path, mode)?;
    let seen = file.metadata()?;
    if seen.mode() & ALL != mode {
        let _ = file.set_permissions(Permissions::from_mode(mode));
    }
    Ok((file, seen))
}

/// Opens the regular file that was seen at the path, to be read, and to be written where that is asked for; there is none where it went away, or
/// another one stands there by now.
pub(crate) fn open_seen<R: Files>(
    rt: &R,
    path: &str,
    seen: &Metadata,
    writes: bool,
) -> Result<Option<R::File>, Reason> {
    if !seen.is_file() {
        return Err(OTHER);
    }
    let file = match File::options().read(true).write(writes).open(rt, path) {
        Ok(file) => file,
        Err(error) if is_absence(&error) => return Ok(None),
        Err(error) => return Err(Reason::System(error)),
    };
    if spot_of(&file.metadata()?) != spot_of(seen) {
        return Ok(None);
    }
    Ok(Some(file))
}

// Opens a file for writing at a place, which is made where it is absent. From the beginning on it is made anew: whoever has it by another name, or open,
// keeps what it was, and whose it was doesn't matter. What stands before any other place has to stay as it is for all who read it: so where the file has
// other names too, or may only be read, a copy takes its place.
fn open_or_make<R: Files<File = File> + AllocGlobal>(
    rt: &R,
    opened: &mut Opened,
    hg: &str,
    path: &str,
    place: u64,
) -> Result<File, Reason> {
    let Some(seen) = look(rt, path)? else {
        return make_own(rt, hg, path);
    };
    if place == 0 {
        return make_anew(rt, hg, path, &seen);
    }
    if seen.nlink() > 1 {
        return put_copy(rt, opened, path, &seen, place);
    }
    match open_seen(rt, path, &seen, true) {
        Err(Reason::System(error)) if error.kind() == ErrorKind::PermissionDenied => {
            put_copy(rt, opened, path, &seen, place)
        }
        there => there?.ok_or(EXCHANGED),
    }
}

// Makes a file in the place of the regular one that was seen at the path.
fn make_anew<R: Files<File = File>>(
    rt: &R,
    hg: &str,
    path: &str,
    seen: &Metadata,
) -> Result<File, Reason> {
    if !seen.is_file() {
        return Err(OTHER);
    }
    remove_file(rt, path)?;
    make_own(rt, hg, path)
}

// Makes a file that isn't there yet, and gives it to whom the folder `hg` belongs where the system lets us: what root saved couldn't be read by them else.
fn make_own<R: Files<File = File>>(rt: &R, hg: &str, path: &str) -> Result<File, Reason> {
    let folder = fs::metadata(rt, hg)?;
    let (file, seen) = match make_with(rt, path, mode_below(&folder)) {
        Ok(made) => made,
        Err(error) if error.kind() == ErrorKind::AlreadyExists => return Err(EXCHANGED),
        Err(error) => return Err(Reason::System(error)),
    };
    if seen.uid() != folder.uid() || seen.gid() != folder.gid() {
        let _ = fchown(file.as_fd(), Some(folder.uid()), Some(folder.gid()));
    }
    Ok(file)
}

// Has a copy of so many bytes take the place of the regular file that was seen at the path, and opens it for writing. It is made beside it, and what a
// process that was stopped left there is taken away first. Where that fails the file stays that stood there.
fn put_copy<R: Files<File = File> + AllocGlobal>(
    rt: &R,
    opened: &mut Opened,
    path: &str,
    seen: &Metadata,
    length: u64,
) -> Result<File, Reason> {
    let Some(mut from) = open_seen(rt, path, seen, false)? else {
        return Err(EXCHANGED);
    };
    let beside = beside(rt.alloc(), path)?;
    remove_file(rt, beside.as_str())?;
    let (mut to, _) = make_with(rt, beside.as_str(), seen.mode() & READ_WRITE)?;
    if let Err(error) = replace(rt, &mut from, length, &mut to, beside.as_str(), path) {
        let _ = fs::remove_file(rt, beside.as_str());
        return Err(Reason::System(error));
    }
    opened.keep(from);
    sync_names(rt, opened, folder_of(path).unwrap_or("."))?;
    Ok(to)
}

// The path of a copy: a short name, which stands beside the longest one.
fn beside(alloc: Global, path: &str) -> Result<String, Reason> {
    let made = match folder_of(path) {
        Some(folder) => format!(in alloc; "{folder}/copy-new"),
        None => String::from_str(alloc, "copy-new"),
    };
    made.map_err(|_| Reason::Words("out of memory"))
}

// Fills a new file with the front of the one that it then takes the place of.
fn replace<R: Files<File = File>>(
    rt: &R,
    from: &mut File,
    length: u64,
    to: &mut File,
    beside: &str,
    path: &str,
) -> Result<(), Error> {
    copy(from, length, to)?;
    to.sync_all()?;
    fs::rename(rt, beside, path)
}

// Writes so many bytes of what is read, fewer where that ends before.
fn copy<F: Read, T: Write>(from: &mut F, length: u64, to: &mut T) -> Result<(), Error> {
    let mut piece = [0; 4096];
    let mut left = length;
    for _ in 0..u64::MAX {
        let most = usize::try_from(left)
            .unwrap_or(piece.len())
            .min(piece.len());
        let n = fill(from, &mut piece[..most])?;
        to.write_all(&piece[..n])?;
        left = left.saturating_sub(n as u64);
        if n < piece.len() {
            break;
        }
    }
    Ok(())
}

/// The folder that a path leads to its last name in, where it names one.
pub(crate) fn folder_of(path: &str) -> Option<&str> {
    let (folder, _) = path.rsplit_once('/')?;
    Some(folder)
}

/// Writes bytes at a place of a file below the folder `hg`, which is made anew from the beginning on, and copied first where bytes are put behind the
/// beginning of one that isn't one's own alone. A place past the end has zeros before it. It is then the one that was written last.
pub(crate) fn write_file<R: Files<File = File> + AllocGlobal>(
    rt: &R,
    opened: &mut Opened,
    hg: &str,
    path: &str,
    place: u64,
    bytes: &[u8],
) -> Result<(), Reason> {
    let mut file = open_or_make(rt, opened, hg, path, place)?;
    let metadata = file.metadata()?;
    if metadata.len() < place {
        file.set_len(place)?;
    }
    file.seek(SeekFrom::Start(place))?;
    file.write_all(bytes)?;
    opened.set_written(Written {
        spot: spot_of(&metadata),
        file,
    });
    Ok(())
}

/// Makes sure what a regular file holds, by the open file that was written, where that is the one at the path. An absent one has nothing
/// to be made sure.
pub(crate) fn sync_file<R: Files<File = File>>(
    rt: &R,
    opened: &mut Opened,
    path: &str,
) -> Result<(), Reason> {
    let Some(seen) = look(rt, path)? else {
        return Ok(());
    };
    if !seen.is_file() {
        return Err(OTHER);
    }
    if !opened.sync_seen(spot_of(&seen))? {
        opened.sync(fs::open(rt, path)?)?;
    }
    Ok(())
}

/// Makes sure which names a folder has. Some systems have no way to do that, and say so; every other error is handed on.
pub(crate) fn sync_names<R: Files<File = File>>(
    rt: &R,
    opened: &mut Opened,
    path: &str,
) -> Result<(), Error> {
    match opened.sync(fs::open(rt, path)?) {
        Err(error) if error.kind() == ErrorKind::InvalidInput => Ok(()),
        done => done,
    }
}

/// Makes a folder where nothing stands, and says whether it did.
pub(crate) fn make_folder<R: Files>(rt: &R, path: &str) -> Result<bool, Error> {
    match fs::create_dir(rt, path) {
        Ok(()) => Ok(true),
        Err(error) if error.kind() == ErrorKind::AlreadyExists => Ok(false),
        Err(error) => Err(error),
    }
}

/// Gives what was seen at a path another name, where this was seen before. A file that takes the place of a regular one may be read and written as that
/// one, and gets a time of its own.
pub(crate) fn rename_seen<R: Files<File = File>>(
    rt: &R,
    opened: &mut Opened,
    from: &str,
    seen: &Metadata,
    to: &str,
    before: Option<Metadata>,
) -> Result<(), Reason> {
    match before {
        Some(before) if before.is_file() && seen.is_file() => {
            follow(rt, opened, from, seen, &before)?;
        }
        Some(before) if before.is_dir() => return Err(OTHER),
        _ => {}
    }
    fs::rename(rt, from, to)?;
    Ok(())
}

// Has a file follow the one whose place it is to take.
fn follow<R: Files<File = File>>(
    rt: &R,
    opened: &mut Opened,
    path: &str,
    seen: &Metadata,
    before: &Metadata,
) -> Result<(), Reason> {
    let rights = before.mode() & READ_WRITE;
    let time = time_apart(seen, before);
    if seen.mode() & ALL == rights && time.is_none() {
        return Ok(());
    }
    let Some(file) = open_seen(rt, path, seen, false)? else {
        return Err(EXCHANGED);
    };
    if let Some(time) = time {
        file.set_modified(time)?;
    }
    file.set_permissions(Permissions::from_mode(rights))?;
    opened.keep(file);
    Ok(())
}

// Programs that keep running, as Mercurial's command server, take two files of one name for the same where their inodes, their sizes and the whole
// seconds of their times are equal. Two that were changed in one second are told apart by the time of modification, which this is then.
fn time_apart(seen: &Metadata, before: &Metadata) -> Option<SystemTime> {
    if seen.ctime() > before.ctime() {
        return None;
    }
    second_past(before.mtime())
}

// The time a second past one that is told in seconds since 1970; none where that has no such time.
fn second_past(seconds: i64) -> Option<SystemTime> {
    let past = u64::try_from(seconds).ok()?.checked_add(1)?;
    UNIX_EPOCH.checked_add(Duration::from_secs(past))
}

/// Takes a file away, where there is one.
pub(crate) fn remove_file<R: Files>(rt: &R, path: &str) -> Result<(), Reason> {
    match fs::remove_file(rt, path) {
        Err(error) if !is_absence(&error) => Err(Reason::System(error)),
        _ => Ok(()),
    }
}
