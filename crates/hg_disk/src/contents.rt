//! What a file in the file system holds, and where a link leads.

ghost use Rattle.std.specs.Prelude.{◌≤◌, IfOk, IfSome, length};
ghost use Rattle.hg_base.specs.Reads.{IsWithin};

use crate::disk::is_absence;
use crate::failure::Reason;
use crate::spot::spot_of;
use hg_base::{Got, read_past};
use hg_stream::fill;
use std::fs;
use std::fs::{Metadata, OpenFile};
use std::io::{ErrorKind, Read, Seek, SeekFrom};
use std::rt::Files;

/// How often a name is looked at again that others exchange between the look and the read.
const ROUNDS: u32 = 3;

/// Fills the front of a buffer with what stands at a name past a place: a file's bytes, or a link's target. A link is never followed, also
/// none that is put there behind the look: the file that was opened has to be the one that the look showed.
pub(crate) fn read_name<R: Files + AllocGlobal>(
    rt: &R,
    name: &str,
    place: u64,
    buf: &mut [u8],
) -> Result<Got, Reason>
    ensures { IfOk result (λ got. IsWithin (length buf.old) got) }
{
    for _ in 0..ROUNDS {
        let read = match fs::symlink_metadata(rt, name) {
            Ok(seen) if seen.is_file() => read_file(rt, name, &seen, place, buf)?,
            Ok(seen) if seen.is_symlink() => read_target(rt, name, place, buf)?,
            Ok(_) => return Ok(Got::Absent),
            Err(error) if is_absence(&error) => return Ok(Got::Absent),
            Err(error) => return Err(Reason::System(error)),
        };
        if let Some(n) = read {
            return Ok(Got::Bytes(n));
        }
    }
    Err(Reason::Words("changed again and again"))
}

// The bytes of the file that a look showed, or nothing where another thing stands there meanwhile.
fn read_file<R: Files>(
    rt: &R,
    name: &str,
    seen: &Metadata,
    place: u64,
    buf: &mut [u8],
) -> Result<Option<usize>, Reason>
    ensures { IfOk result (λ read. IfSome read (λ n. n ≤ length buf.old)) }
{
    let mut file = match fs::open(rt, name) {
        Ok(file) => file,
        Err(error) if is_absence(&error) => return Ok(None),
        Err(error) => return Err(Reason::System(error)),
    };
    if spot_of(&file.metadata()?) != spot_of(seen) {
        return Ok(None);
    }
    if place > 0 {
        file.seek(SeekFrom::Start(place))?;
    }
    let n = fill(&mut file, buf)?;
    Ok(Some(n))
}

// The target of a link, or nothing where none stands there any more.
fn read_target<R: Files + AllocGlobal>(
    rt: &R,
    name: &str,
    place: u64,
    buf: &mut [u8],
) -> Result<Option<usize>, Reason>
    ensures { IfOk result (λ read. IfSome read (λ n. n ≤ length buf.old)) }
{
    match fs::read_link(rt, name) {
        Ok(target) => Ok(Some(read_past(target.as_str().as_bytes(), place, buf))),
        Err(error) if error.kind() == ErrorKind::InvalidFilename => {
            Err(Reason::Words("a target that isn't text"))
        }
        Err(error) if error.kind() == ErrorKind::InvalidInput || is_absence(&error) => Ok(None),
        Err(error) => Err(Reason::System(error)),
    }
}
