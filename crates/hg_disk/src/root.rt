//! The root folder of the working copy: where it is, and by which name it is found again.

use crate::disk::is_absence;
use crate::spot::{Spot, spot_of};
use std::cell::Cell;
use std::rt::{Env, Files};
use std::{env, fs, io};

/// The longest name of a root that serves, in bytes: what the system takes for a path, less the names below `.hg`.
const LONGEST: usize = 3000;

/// The current folder as the root of a working copy.
#[derive(Drop)]
pub struct Root {
    pub(crate) named: Option<Named>,
    /// Whether the shelf has the lock, or is about to have it.
    pub(crate) locked: Cell<bool>,
}

/// A folder's absolute name, which folder that is, and where the process stands that looks at it.
#[derive(Drop)]
pub(crate) struct Named {
    pub(crate) name: String,
    pub(crate) spot: Spot,
    /// Which folder its `.hg` is, where it has one.
    pub(crate) hg: Cell<Option<Spot>>,
    /// Whether the process stands in `.hg`.
    pub(crate) within: Cell<bool>,
    /// Whether the shelf has moved the process since the tree last went anywhere.
    pub(crate) moved: Cell<bool>,
    /// Whether the shelf was asked for a file since the tree last went anywhere.
    pub(crate) asked: Cell<bool>,
}

impl Root {
    /// The current folder, by no name: what stands in it is looked at from there, as where its name doesn't serve.
    pub fn nameless() -> Root {
        Root::named(None)
    }

    fn named(named: Option<Named>) -> Root {
        Root {
            named,
            locked: Cell::new(false),
        }
    }

    /// The current folder. It is known by its absolute name unless that isn't text, has over 3,000 bytes or is another folder's by now.
    pub fn current<R: Files + Env + AllocGlobal>(rt: &R) -> Root {
        match find_name(rt) {
            Ok(named) => Root::named(named),
            Err(_) => Root::named(None),
        }
    }
}

fn find_name<R: Files + Env + AllocGlobal>(rt: &R) -> io::Result<Option<Named>> {
    let name = env::current_dir(rt)?.into_string();
    if name.len() > LONGEST {
        return Ok(None);
    }
    let spot = spot_at(rt, ".")?;
    if spot_at(rt, name.as_str())? != spot {
        return Ok(None);
    }
    Ok(Some(Named {
        name,
        spot,
        hg: Cell::new(spot_at(rt, ".hg").ok()),
        within: Cell::new(false),
        moved: Cell::new(false),
        asked: Cell::new(false),
    }))
}

/// Which folder or file stands at a path, links followed.
pub(crate) fn spot_at<R: Files>(rt: &R, path: &str) -> io::Result<Spot> {
    let metadata = fs::metadata(rt, path)?;
    Ok(spot_of(&metadata))
}

/// Where a command is started.
#[derive(Drop)]
pub enum Start {
    /// In a working copy: the folder's path from the root, empty for the root; none where it can't be told.
    Inside(Option<String>),
    /// In none: neither the folder nor one above it has a folder `.hg`.
    Outside,
}

// The folder where a command is started: its absolute name, empty where it can't be had, and which folder that is.
#[derive(Drop)]
struct Begun {
    name: Vec<u8>,
    spot: Option<Spot>,
}

fn begin<R: Files + Env + AllocGlobal>(rt: &R) -> io::Result<Begun> {
    let mut room = [0; 4096];
    let len = rt.current_dir(&mut room).unwrap_or(0);
    let name = Vec::from_slice(rt.alloc(), room.get(..len).unwrap_or(&[]))?;
    let spot = spot_at(rt, ".").ok();
    Ok(Begun { name, spot })
}

// The end of a folder's name behind that of the folder so many levels above it, where it is text.
fn end_of(name: &[u8], levels: usize) -> Option<&str> {
    let mut at = name.len();
    for _ in 0..levels {
        at = name.get(..at)?.iter().rposition(|b| *b == b'/')?;
    }
    match name.get(at..)? {
        [] => Some(""),
        [_, end @ ..] => str::from_utf8(end).ok(),
    }
}

// The start of a command so many levels below the root, which is the current folder by now. The folder's path is told where it leads
// to the folder: others may have renamed one meanwhile.
fn inside<R: Files + AllocGlobal>(rt: &R, begun: &Begun, levels: usize) -> io::Result<Start> {
    let Some(path) = end_of(begun.name.as_slice(), levels) else {
        return Ok(Start::Inside(None));
    };
    if levels > 0 && spot_at(rt, path).ok() != begun.spot {
        return Ok(Start::Inside(None));
    }
    Ok(Start::Inside(Some(String::from_str(rt.alloc(), path)?)))
}

/// How many folders up are looked at from one place: what a path of the system's longest can name.
const LEVELS: usize = 1300;

/// Changes to the nearest folder at or above the current one that has a folder `.hg` (or a link to one, as for Mercurial), and says
/// where the command is started. Where there is none the current folder stays.
///
/// The path from the root is the end of the folder's absolute name, in which no link stands; it can't be told where that name has over
/// 4,095 bytes or the folder was removed, or where the end of it isn't text or leads to another folder by now.
///
/// Errors: the system couldn't change to the folder, or back from it, or failed a look at a folder on the way or its `.hg`: a command never
/// takes another folder for the root because the system failed.
pub fn enter_root<R: Files + Env + AllocGlobal>(rt: &R) -> io::Result<Start> {
    let begun = begin(rt)?;
    let ups = ups(rt)?;
    let mut levels = 0usize;
    for round in 0..usize::MAX {
        match found_above(rt, ups.as_str())? {
            Above::Here => return inside(rt, &begun, levels),
            Above::At(path) => {
                env::set_current_dir(rt, path)?;
                return inside(rt, &begun, levels.saturating_add(path.len() / 3));
            }
            Above::Nowhere => {
                if round > 0 {
                    go_back(rt, &begun)?;
                }
                return Ok(Start::Outside);
            }
            Above::Further(path) => {
                env::set_current_dir(rt, path)?;
                levels = levels.saturating_add(path.len() / 3);
            }
        }
    }
    Ok(Start::Outside)
}

fn go_back<R: Env>(rt: &R, begun: &Begun) -> io::Result<()> {
    match str::from_utf8(begun.name.as_slice()) {
        Ok(name) => env::set_current_dir(rt, name),
        Err(_) => Err(io::Error::from(io::ErrorKind::InvalidData)),
    }
}

// What was found at and above a folder.
enum Above<'a> {
    // it has a folder `.hg`
    Here,
    // the folder at this path has one
    At(&'a str),
    // none up to the top has one
    Nowhere,
    // none up to this path has one
    Further(&'a str),
}

// As many steps up as are looked at from one place, and `.hg` behind them.
fn ups<R: AllocGlobal>(rt: &R) -> io::Result<String> {
    let mut ups = String::new(rt.alloc());
    for _ in 0..LEVELS {
        ups.push_str("../")?;
    }
    ups.push_str(".hg")?;
    Ok(ups)
}

fn found_above<'a, R: Files>(rt: &R, ups: &'a str) -> io::Result<Above<'a>> {
    if is_dir(rt, ".hg")? {
        return Ok(Above::Here);
    }
    let Ok(mut spot) = spot_at(rt, ".") else {
        return Ok(Above::Nowhere);
    };
    for level in 1..LEVELS {
        let (Some(path), Some(hg)) = (up(ups, level), ups.get(3 * (LEVELS - level)..)) else {
            return Ok(Above::Nowhere);
        };
        match spot_at(rt, path) {
            Ok(above) if above != spot => spot = above,
            Err(error) if !is_out_of_sight(&error) => return Err(error),
            _ => return Ok(Above::Nowhere),
        }
        if is_dir(rt, hg)? {
            return Ok(Above::At(path));
        }
    }
    match up(ups, LEVELS - 1) {
        Some(path) => Ok(Above::Further(path)),
        None => Ok(Above::Nowhere),
    }
}

// The path that many levels up.
fn up(ups: &str, level: usize) -> Option<&str> {
    ups.get(..level.saturating_mul(3))
}

// Nothing can be seen there: nothing stands there, it may not be looked at, or links lead nowhere. Every other error says nothing of what stands there.
fn is_out_of_sight(error: &io::Error) -> bool {
    is_absence(error)
        || matches!(
            error.kind(),
            io::ErrorKind::PermissionDenied | io::ErrorKind::FilesystemLoop
        )
}

fn is_dir<R: Files>(rt: &R, path: &str) -> io::Result<bool> {
    match fs::metadata(rt, path) {
        Ok(metadata) => Ok(metadata.is_dir()),
        Err(error) if is_out_of_sight(&error) => Ok(false),
        Err(error) => Err(error),
    }
}
