//! The standard streams, which a program may be started without.

use std::fs::{File, OpenOptions};
use std::io::{self, Error};
use std::mem;
use std::os::fd::AsFd;
use std::rt::Files;

// What stands for a stream that is closed.
const NULL: &str = "/dev/null";

// What the system says of a number that stands for no open file.
const NOT_OPEN: i32 = 9;

/// Has each number of a standard stream that is closed stand for a file that can't be used as that stream: so what is read or written there fails, and no
/// other file that is opened gets the number. It is done before anything else is opened.
///
/// Errors: the system couldn't open such a file.
pub fn open_streams<R: Files, I: AsFd, O: AsFd, E: AsFd>(
    rt: &R,
    input: &I,
    out: &O,
    err: &E,
) -> io::Result<()> {
    // (the system gives the lowest number that is free)
    if is_closed(input) {
        occupy(rt, File::options().write(true))?;
    }
    if is_closed(out) {
        occupy(rt, File::options().read(true))?;
    }
    if is_closed(err) {
        occupy(rt, File::options().read(true))?;
    }
    Ok(())
}

fn is_closed<S: AsFd>(stream: &S) -> bool {
    match stream.as_fd().try_clone_to_owned() {
        Ok(_) => false,
        Err(error) => error.raw_os_error() == Some(NOT_OPEN),
    }
}

fn occupy<R: Files>(rt: &R, how: &OpenOptions) -> Result<(), Error> {
    let file = how.open(rt, NULL)?;
    mem::forget(file);
    Ok(())
}
