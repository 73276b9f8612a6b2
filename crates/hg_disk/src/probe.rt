//! The clock of the file system, by a file that is written for it.

use crate::disk::is_absence;
use crate::failure::Reason;
use crate::writing::{look, make_below, remove_file};
use hg_base::Time;
use std::fs::{Metadata, OpenFile};
use std::io::{Error, ErrorKind, Write};
use std::rt::Files;

/// The folder of the file that is written, and its name there.
pub(crate) const FOLDER: &str = ".hg";

pub(crate) const PROBE: &str = "probe";

// How often another may make the file between its removal and its making.
const ROUNDS: u32 = 3;

/// The lowest time there is: none is before it.
pub(crate) fn lowest() -> Time {
    Time {
        seconds: i64::MIN,
        nanos: 0,
    }
}

/// What a file of this name shows once a byte is written to it, in the folder where the process stands. It is made anew: so the folder itself is asked whether
/// it may be written, and the file isn't another user's, nor has it other names. There is none where the folder may not be written, there is no room in it, or
/// something else than a regular file stands there.
pub(crate) fn probe_name<R: Files>(rt: &R, name: &str) -> Result<Option<Metadata>, Reason> {
    match made(rt, name) {
        Err(Reason::System(error)) if is_refusal(&error) => Ok(None),
        made => made,
    }
}

fn made<R: Files>(rt: &R, name: &str) -> Result<Option<Metadata>, Reason> {
    for _ in 0..ROUNDS {
        match look(rt, name)? {
            Some(seen) if !seen.is_file() => return Ok(None),
            Some(_) => remove_file(rt, name)?,
            None => {}
        }
        match make_below(rt, ".", name) {
            Ok(file) => return Ok(Some(written(file)?)),
            Err(error) if error.kind() == ErrorKind::AlreadyExists => {}
            Err(error) => return Err(Reason::System(error)),
        }
    }
    Ok(None)
}

fn written<F: OpenFile + Write + Drop>(file: F) -> Result<Metadata, Error> {
    let mut file = file;
    file.write_all(b"0")?;
    file.metadata()
}

// Something there may not be written, there is no room, or the folder went away meanwhile.
fn is_refusal(error: &Error) -> bool {
    is_absence(error)
        || matches!(
            error.kind(),
            ErrorKind::PermissionDenied
                | ErrorKind::ReadOnlyFilesystem
                | ErrorKind::StorageFull
                | ErrorKind::QuotaExceeded
        )
}
