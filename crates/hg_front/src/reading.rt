//! What a repository requires, read from its files.
//!
//! `.hg/requires` is read in the current folder, which is the root; where it names `share-safe`, the store's own `requires` too, which a shared
//! repository has where `.hg/sharedpath` says. No other file is read: what stands at one of these names and is no regular file, a link too, is
//! a failure, so nothing is followed out of the repository but the path in `sharedpath`.

ghost use Rattle.std.specs.Prelude.{◌≡◌, IfOk};
ghost use Rattle.std.specs.Option.{option_map};
ghost use Rattle.hg_front.specs.Reading.{store_name};
ghost use Rattle.std.specs.String.{string_bytes};

use crate::requirement::names;
use hg_stream::fill;
use std::alloc::{AllocError, Global};
use std::io::{Error, ErrorKind};
use std::rt::Files;
use std::{format, fs};

const OWN: &str = ".hg/requires";

const SHARED: &str = ".hg/sharedpath";

/// The most bytes that such a file may have: a repository has some twenty requirements, and a path of the system's at most 4,095 bytes.
const MOST: usize = 65536;

const ABSENT: &str = "no such file or directory";

/// The texts of the requirements: the repository's own, none where it has no such file, and its store's, none where these don't stand apart.
#[derive(Drop)]
pub struct Requires {
    pub own: Option<String>,
    pub store: Option<String>,
}

/// Why they can't be read.
#[derive(Drop)]
pub enum Unreadable {
    OutOfMemory,
    /// The name of a file and what is wrong with it, as one text: `NAME: REASON`.
    Named(String),
}

impl From<AllocError> for Unreadable {
    fn from(_: AllocError) -> Unreadable {
        Unreadable::OutOfMemory
    }
}

/// The requirements of the repository whose root is the current folder.
pub fn read_requires<R: Files + AllocGlobal>(rt: &R) -> Result<Requires, Unreadable> {
    let Some(own) = text_at(rt, OWN)? else {
        return Ok(Requires {
            own: None,
            store: None,
        });
    };
    let mut store = None;
    if names(own.as_str(), "share-safe") {
        let folder = shared_folder(rt, own.as_str())?;
        let name = name_of_store(rt.alloc(), folder.as_deref())?;
        store = Some(required(rt, name.as_str())?);
    }
    Ok(Requires {
        own: Some(own),
        store,
    })
}

// The folder with the store of a shared repository, as it is reached from the root; none where the repository has its own.
fn shared_folder<R: Files + AllocGlobal>(rt: &R, own: &str) -> Result<Option<String>, Unreadable> {
    let relative = names(own, "relshared");
    if !relative && !names(own, "shared") {
        return Ok(None);
    }
    let text = required(rt, SHARED)?;
    let path = text.as_str().trim_end_matches('\n');
    if relative {
        return Ok(Some(format!(in rt.alloc(); ".hg/{path}")?));
    }
    Ok(Some(String::from_str(rt.alloc(), path)?))
}

// The name of the store's requirements.
fn name_of_store(alloc: Global, folder: Option<&str>) -> Result<String, AllocError>
    ensures { IfOk result (λ name. string_bytes name ≡ store_name (option_map (λ f. f.now) folder.entry)) }
{
    let folder = folder.unwrap_or(".hg");
    format!(in alloc; "{folder}/store/requires")
}

// What a file says that has to be there.
fn required<R: Files + AllocGlobal>(rt: &R, name: &str) -> Result<String, Unreadable> {
    match text_at(rt, name)? {
        Some(text) => Ok(text),
        None => Err(because(rt.alloc(), name, ABSENT)),
    }
}

fn because(alloc: Global, name: &str, reason: &str) -> Unreadable {
    match format!(in alloc; "{name}: {reason}") {
        Ok(text) => Unreadable::Named(text),
        Err(_) => Unreadable::OutOfMemory,
    }
}

// The system's words for an error, without its number, and in small letters as other lines are.
fn because_system(alloc: Global, name: &str, error: &Error) -> Result<Unreadable, AllocError> {
    let words = format!(in alloc; "{error}")?.to_ascii_lowercase(alloc)?;
    Ok(because(alloc, name, without_number(words.as_str())))
}

fn without_number(words: &str) -> &str {
    match words.split_once(" (os error ") {
        Some((reason, _)) => reason,
        None => words,
    }
}

// What a file says, none where nothing stands at its name.
fn text_at<R: Files + AllocGlobal>(rt: &R, name: &str) -> Result<Option<String>, Unreadable> {
    let mut room = vec![in rt.alloc(); 0u8; MOST + 1]?;
    match read_at(rt, name, room.as_mut_slice()) {
        Ok(Some(len)) => text_in(rt.alloc(), name, room.as_slice().get(..len).unwrap_or(&[])),
        Ok(None) => Ok(None),
        Err(failure) => Err(told(rt.alloc(), name, failure)),
    }
}

// The bytes of a file as a text.
fn text_in(alloc: Global, name: &str, bytes: &[u8]) -> Result<Option<String>, Unreadable> {
    if bytes.len() > MOST {
        return Err(because(alloc, name, "over 65,536 bytes"));
    }
    match str::from_utf8(bytes) {
        Ok(text) => Ok(Some(String::from_str(alloc, text)?)),
        Err(_) => Err(because(alloc, name, "not text")),
    }
}

fn told(alloc: Global, name: &str, failure: Failure) -> Unreadable {
    match failure {
        Failure::Words(reason) => because(alloc, name, reason),
        Failure::System(error) => match because_system(alloc, name, &error) {
            Ok(why) => why,
            Err(_) => Unreadable::OutOfMemory,
        },
    }
}

// Why a file can't be read.
enum Failure {
    Words(&'static str),
    System(Error),
}

impl From<Error> for Failure {
    fn from(error: Error) -> Failure {
        Failure::System(error)
    }
}

// Fills the front of the room with the bytes of a regular file, none where nothing stands at its name.
fn read_at<R: Files>(rt: &R, name: &str, room: &mut [u8]) -> Result<Option<usize>, Failure> {
    match fs::symlink_metadata(rt, name) {
        Ok(seen) if seen.is_file() => {}
        Ok(_) => return Err(Failure::Words("not a regular file")),
        Err(error) if is_absence(&error) => return Ok(None),
        Err(error) => return Err(Failure::System(error)),
    }
    let mut file = match fs::open(rt, name) {
        Ok(file) => file,
        Err(error) if is_absence(&error) => return Ok(None),
        Err(error) => return Err(Failure::System(error)),
    };
    Ok(Some(fill(&mut file, room)?))
}

// Nothing stands there, or no folder does where one should.
fn is_absence(error: &Error) -> bool {
    matches!(error.kind(), ErrorKind::NotFound | ErrorKind::NotADirectory)
}
