//! Putting files and links into the folder where the process stands, and taking them away. Nothing is written through a link.
//!
//! A file is made anew by a name at which nothing stands, and the system is told so; where a file or a link stands there already, it is
//! made by another name beside it, which it then gives up for that one. More bytes go to the very file that was made, which stays open,
//! or to the one that a look showed.

use crate::disk::is_absence;
use crate::failure::Reason;
use crate::spot::{Spot, spot_of};
use crate::writing::{look, make, make_folder, open_seen};
use hg_base::Kind;
use std::fs::{self, Metadata, OpenFile};
use std::io::{Error, ErrorKind, Seek, SeekFrom, Write};
use std::os::unix::fs::symlink;
use std::rt::Files;
use std::str;

/// How often a name is tried again that others exchange meanwhile.
const ROUNDS: u32 = 3;

/// How a new file can be used, less what the user's mask takes away.
const MODE: u32 = 0o666;

/// The same, for one that can be run.
const EXEC_MODE: u32 = 0o777;

/// The longest target of a link, in bytes.
const LONGEST_TARGET: usize = 4095;

/// The names by which a file is made that is to take another's place. One that is in use isn't touched.
const BESIDE: [&str; 4] = [
    ".hgtrack-new~0",
    ".hgtrack-new~1",
    ".hgtrack-new~2",
    ".hgtrack-new~3",
];

const CHANGED: Reason = Reason::Words("changed again and again");

const TAKEN: Reason = Reason::Words("something was put there meanwhile");

/// The file that was made last, and which one it is.
#[derive(Drop)]
pub(crate) struct Made<F: Drop> {
    spot: Spot,
    file: F,
}

/// What is to be put: a file or a link, and whether the file can be run; and whether nothing was seen there before.
#[derive(Clone, Copy)]
pub(crate) struct Wanted {
    pub(crate) kind: Kind,
    pub(crate) exec: bool,
    pub(crate) place: u64,
    pub(crate) vacant: bool,
}

/// Takes a file or a link away, and says whether one stood there.
pub(crate) fn unlink_name<R: Files>(rt: &R, name: &str) -> Result<bool, Reason> {
    match look(rt, name)? {
        Some(seen) if is_loose(&seen) => {}
        _ => return Ok(false),
    }
    match fs::remove_file(rt, name) {
        Ok(()) => Ok(true),
        Err(error) if is_absence(&error) => Ok(false),
        Err(error) => Err(Reason::System(error)),
    }
}

/// Puts a file or a link, or more bytes behind a file, and says whether it could. Where nothing was seen there before, nothing is replaced.
pub(crate) fn put_name<R: Files>(
    rt: &R,
    made: &mut Option<Made<R::File>>,
    name: &str,
    wanted: Wanted,
    bytes: &[u8],
) -> Result<bool, Reason> {
    if wanted.place > 0 {
        return append(rt, made, name, wanted.place, bytes);
    }
    if wanted.kind == Kind::Link && bytes.len() > LONGEST_TARGET {
        return Ok(false);
    }
    *made = None;
    for _ in 0..ROUNDS {
        let done = match look(rt, name)? {
            None => make_new(rt, made, name, wanted, bytes)?,
            Some(seen) if is_loose(&seen) => {
                if wanted.vacant {
                    return Err(TAKEN);
                }
                replace(rt, made, name, wanted, bytes)?;
                true
            }
            Some(_) => return Ok(false),
        };
        if done {
            return Ok(true);
        }
    }
    Err(CHANGED)
}

/// Makes a folder of that name where nothing stands, and says whether a folder stands there then.
pub(crate) fn make_step<R: Files>(rt: &R, name: &str) -> Result<bool, Reason> {
    match look(rt, name)? {
        Some(seen) => Ok(seen.is_dir()),
        None => {
            make_folder(rt, name)?;
            Ok(true)
        }
    }
}

// A file or a link, which another may take the place of.
fn is_loose(seen: &Metadata) -> bool {
    seen.is_file() || seen.is_symlink()
}

// Makes a file or a link where nothing stands, and says whether it did.
fn make_new<R: Files>(
    rt: &R,
    made: &mut Option<Made<R::File>>,
    name: &str,
    wanted: Wanted,
    bytes: &[u8],
) -> Result<bool, Reason> {
    if wanted.kind == Kind::Link {
        return Ok(is_new(symlink(rt, target_of(bytes)?, name))?);
    }
    match make(rt, name, mode_of(wanted)) {
        Ok(file) => {
            fill(made, file, bytes)?;
            Ok(true)
        }
        Err(error) if error.kind() == ErrorKind::AlreadyExists => Ok(false),
        Err(error) => Err(Reason::System(error)),
    }
}

// Whether nothing stood there; every other error is handed on.
fn is_new(made: Result<(), Error>) -> Result<bool, Error> {
    match made {
        Ok(()) => Ok(true),
        Err(error) if error.kind() == ErrorKind::AlreadyExists => Ok(false),
        Err(error) => Err(error),
    }
}

// Makes a file or a link beside the one that stands there, and gives it that name. Where that fails the other stays.
fn replace<R: Files>(
    rt: &R,
    made: &mut Option<Made<R::File>>,
    name: &str,
    wanted: Wanted,
    bytes: &[u8],
) -> Result<(), Reason> {
    for beside in BESIDE {
        let filled = make_new(rt, made, beside, wanted, bytes);
        if let Ok(false) = filled {
            continue;
        }
        return match renamed(rt, beside, name, filled) {
            Ok(()) => Ok(()),
            Err(reason) => {
                *made = None;
                Err(reason)
            }
        };
    }
    Err(Reason::Words("each name beside it is in use"))
}

// Gives what was made beside it the name, or takes it away again. What couldn't be filled isn't left either.
fn renamed<R: Files>(
    rt: &R,
    beside: &str,
    name: &str,
    filled: Result<bool, Reason>,
) -> Result<(), Reason> {
    let reason = match filled {
        Ok(_) => match fs::rename(rt, beside, name) {
            Ok(()) => return Ok(()),
            Err(error) => Reason::System(error),
        },
        Err(reason) => reason,
    };
    let _ = fs::remove_file(rt, beside);
    Err(reason)
}

// Fills a new file, and keeps it open for what comes behind.
fn fill<F: OpenFile + Write + Drop>(
    made: &mut Option<Made<F>>,
    file: F,
    bytes: &[u8],
) -> Result<(), Reason> {
    let mut file = file;
    file.write_all(bytes)?;
    let spot = spot_of(&file.metadata()?);
    *made = Some(Made { spot, file });
    Ok(())
}

// Puts more bytes behind the file that stands there, where it ends at that place.
fn append<R: Files>(
    rt: &R,
    made: &mut Option<Made<R::File>>,
    name: &str,
    place: u64,
    bytes: &[u8],
) -> Result<bool, Reason> {
    let Some(seen) = look(rt, name)? else {
        return Ok(false);
    };
    if !seen.is_file() || seen.len() != place {
        return Ok(false);
    }
    let spot = spot_of(&seen);
    let mut file = match made.take_if(|it| it.spot == spot) {
        Some(made) => made.file,
        None => match open_seen(rt, name, &seen, true)? {
            Some(file) => file,
            None => return Err(CHANGED),
        },
    };
    file.seek(SeekFrom::Start(place))?;
    file.write_all(bytes)?;
    *made = Some(Made { spot, file });
    Ok(true)
}

fn mode_of(wanted: Wanted) -> u32 {
    if wanted.exec { EXEC_MODE } else { MODE }
}

// A link's target as a text: the system is given no other.
fn target_of(bytes: &[u8]) -> Result<&str, Reason> {
    match str::from_utf8(bytes) {
        Ok(target) => Ok(target),
        Err(_) => Err(Reason::Words("a target that isn't text")),
    }
}
