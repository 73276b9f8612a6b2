//! The folder that the process stands in, and how it gets to another one below the root.
//!
//! A folder is gone into by its name in the folder above, where a look at that name showed a directory and a look at `.` behind it shows
//! the same device and inode; so no link is followed but one to the very folder. Of a folder that one went further down from the look serves again, as long as
//! nothing below `.hg` is asked for, which each command begins with. Where one goes up, by one folder or by many, `.` has to be at last
//! what it was on the way down. Where it isn't, or where a name has gone meanwhile, the way begins at the root again.

ghost use Rattle.std.specs.Prelude.{IfOk, IfSome, OnErr, IsTrue, length};
ghost use Rattle.hg_base.specs.Reads.{IsWithin};
ghost use Rattle.hg_disk.specs.Way.{Kept};
ghost use Rattle.hg_disk.specs.Place.{StandsAt};
ghost use Rattle.hg_tree.specs.Moment.{IsPlain};

use crate::contents::read_name;
use crate::disk::is_absence;
use crate::failure::{FirstFailure, Reason};
use crate::look::{NO_TIME, stat_of, time_of};
use crate::met::Met;
use crate::probe::{FOLDER, PROBE, lowest, probe_name};
use crate::putting::{Made, Wanted, make_step, put_name, unlink_name};
use crate::root::Named;
use crate::spot::{Spot, spot_of};
use crate::way::Way;
use hg_base::{Failed, Got, Kind, Stat, Time};
use std::fs::Metadata;
use std::io::ErrorKind;
use std::os::unix::fs::MetadataExt;
use std::rt::{Env, Files};
use std::{env, fs, io};

/// How often a way is begun from the root that others change meanwhile.
const ROUNDS: u32 = 3;

/// What became of the way to a folder.
pub(crate) enum Gone {
    /// The process stands in it.
    There,
    /// No directory stands there, or one of its ancestors is none.
    Absent,
    /// It, or an ancestor, may not be gone into. The process stands in the folder above.
    Shut,
}

#[derive(Drop)]
pub(crate) struct Place<'a, R: Files + Env> {
    pub(crate) rt: &'a R,
    home: &'a Named,
    way: Way,
    seen: Seen,
    met: Met,
    made: Option<Made<R::File>>,
    clock: Option<u64>,
    pub(crate) failure: FirstFailure,
}

// The directory that the last look showed, in the folder where the process stands since.
#[derive(Drop)]
struct Seen {
    name: String,
    spot: Option<Spot>,
}

impl Seen {
    fn keep(&mut self, name: &str, spot: Spot) {
        self.name.clear();
        self.spot = match self.name.push_str(name) {
            Ok(()) => Some(spot),
            Err(_) => None,
        };
    }

    fn at(&self, name: &str) -> Option<Spot> {
        let spot = self.spot?;
        if self.name.as_str() == name {
            Some(spot)
        } else {
            None
        }
    }
}

// The directory of a path, empty for the root, and the name in it. (Each look parts its path: by bytes that is quicker than by characters.)
fn parted(path: &str) -> (&str, &str) {
    let Some(at) = path.as_bytes().iter().rposition(|byte| *byte == b'/') else {
        return ("", path);
    };
    match (path.get(..at), path.get(at.saturating_add(1)..)) {
        (Some(dir), Some(name)) => (dir, name),
        _ => ("", path),
    }
}

// The same thing, by the lowest time. (One of no kind has no time of its own.)
fn timeless(stat: Stat) -> Stat
    requires { IsPlain stat }
    ensures { IsPlain result }
{
    if stat.kind == Kind::Other {
        return stat;
    }
    Stat {
        mtime: lowest(),
        ..stat
    }
}

// The first component.
fn first(path: &str) -> &str {
    match path.split_once('/') {
        Some((name, _)) => name,
        None => path,
    }
}

impl<'a, R: Files + Env + AllocGlobal> Place<'a, R> {
    /// Somewhere: the first way begins at the root.
    pub(crate) fn new(rt: &'a R, home: &'a Named) -> Place<'a, R> {
        Place {
            rt,
            home,
            way: Way::new(rt.alloc(), home.spot),
            seen: Seen {
                name: String::new(rt.alloc()),
                spot: None,
            },
            met: Met::new(rt.alloc()),
            made: None,
            clock: home.hg.get().map(|hg| hg.dev),
            failure: FirstFailure::new(),
        }
    }

    /// Goes to a folder; the empty text is the root.
    pub(crate) fn go(&mut self, dir: &str) -> Result<Gone, Failed>
        ensures { IfOk result (λ gone. StandsAt self.new.way dir.now gone) }
    {
        self.take_notice();
        if self.way.is_at(dir) {
            return Ok(Gone::There);
        }
        for _ in 0..ROUNDS {
            match self.walk(dir)? {
                Gone::There => if self.way.is_at(dir) {
                    return Ok(Gone::There);
                },
                Gone::Absent => return Ok(Gone::Absent),
                Gone::Shut => return Ok(Gone::Shut),
            }
        }
        Err(self.unreached(dir))
    }

    // Where the shelf has moved the process meanwhile, the way is lost; and where it was asked for anything, a command may have begun since then,
    // for which folders are looked at anew.
    fn take_notice(&mut self) {
        if self.home.asked.replace(false) {
            self.met.forget();
        }
        if self.home.moved.replace(false) {
            self.way.lose();
            self.seen.spot = None;
        }
        self.home.within.set(false);
    }

    // Each way was lost.
    fn unreached(&mut self, dir: &str) -> Failed {
        if self.way.depth() == 0 {
            let home = self.home;
            return self.failed_at(
                home.name.as_str(),
                Reason::Words("another folder stands there"),
            );
        }
        self.failed_at(dir, Reason::Words("changed again and again"))
    }

    /// What stands at a path, no link followed.
    pub(crate) fn stat(&mut self, path: &str) -> Result<Option<Stat>, Failed>
        ensures { IfOk result (λ found. IfSome found IsPlain) }
    {
        let (dir, name) = parted(path);
        match self.go(dir)? {
            Gone::There => self.look(name),
            Gone::Absent => Ok(None),
            Gone::Shut => Err(self.shut(dir)),
        }
    }

    /// Fills the front of a buffer with what a file, or the target of a link, has past a place.
    pub(crate) fn read(&mut self, path: &str, place: u64, buf: &mut [u8]) -> Result<Got, Failed>
        ensures { IfOk result (λ got. IsWithin (length buf.old) got) }
    {
        let (dir, name) = parted(path);
        match self.go(dir)? {
            Gone::There => match read_name(self.rt, name, place, buf) {
                Ok(got) => Ok(got),
                Err(reason) => Err(self.failed(name, reason)),
            },
            Gone::Absent => Ok(Got::Absent),
            Gone::Shut => Err(self.shut(dir)),
        }
    }

    /// The clock of the file system, by a file below `.hg` that is written; the lowest time where it can't be.
    pub(crate) fn now(&mut self) -> Result<Time, Failed> {
        match self.go(FOLDER)? {
            Gone::There => {}
            Gone::Absent | Gone::Shut => return Ok(lowest()),
        }
        match probe_name(self.rt, PROBE) {
            Ok(Some(seen)) => self.shown(&seen),
            Ok(None) => Ok(lowest()),
            Err(reason) => Err(self.failed(PROBE, reason)),
        }
    }

    // The time that a file shows. It is of the clock of its file system alone, and of no other.
    fn shown(&mut self, seen: &Metadata) -> Result<Time, Failed> {
        self.clock = Some(seen.dev());
        match time_of(seen) {
            Some(time) => Ok(time),
            None => Err(self.failed(PROBE, NO_TIME)),
        }
    }

    /// Takes a file or a link away, and says whether one stood at the path.
    pub(crate) fn unlink(&mut self, path: &str) -> Result<bool, Failed> {
        let (dir, name) = parted(path);
        match self.go(dir)? {
            Gone::There => match unlink_name(self.rt, name) {
                Ok(done) => Ok(done),
                Err(reason) => Err(self.failed(name, reason)),
            },
            Gone::Absent => Ok(false),
            Gone::Shut => Err(self.shut(dir)),
        }
    }

    /// Puts a file or a link, with the folders that are missing above it, or more bytes behind a file, and says whether it could.
    pub(crate) fn put(&mut self, path: &str, wanted: Wanted, bytes: &[u8]) -> Result<bool, Failed> {
        let (dir, name) = parted(path);
        match self.go(dir)? {
            Gone::There => {}
            Gone::Absent => if wanted.place > 0 || !self.make_way(dir)? {
                return Ok(false);
            },
            Gone::Shut => return Err(self.shut(dir)),
        }
        match put_name(self.rt, &mut self.made, name, wanted, bytes) {
            Ok(done) => Ok(done),
            Err(reason) => Err(self.failed(name, reason)),
        }
    }

    // Goes on to a folder from as far as there are some, and makes the missing ones; it says whether nothing else is in the way.
    fn make_way(&mut self, dir: &str) -> Result<bool, Failed> {
        let Some(rest) = self.way.rest_of(dir) else {
            return Err(self.unreached(dir));
        };
        for name in rest.split('/') {
            match make_step(self.rt, name) {
                Ok(true) => {}
                Ok(false) => return Ok(false),
                Err(reason) => return Err(self.failed(name, reason)),
            }
            match self.enter(name)? {
                Gone::There => if self.way.is_lost() {
                    return Err(self.unreached(dir));
                },
                Gone::Absent => return Err(self.unreached(dir)),
                Gone::Shut => return Err(self.shut(dir)),
            }
        }
        Ok(true)
    }

    /// That a folder on the way to this one may not be gone into.
    pub(crate) fn shut(&mut self, dir: &str) -> Failed {
        let next = match self.way.rest_of(dir) {
            Some(rest) => first(rest),
            None => "",
        };
        self.failed(next, Reason::Words("permission denied"))
    }

    /// Whether the process is known to stand in this folder.
    pub(crate) fn stands_in(&mut self, dir: &str) -> bool {
        self.take_notice();
        self.way.is_at(dir)
    }

    /// A failure at a name in the folder that the way ends in, or at that folder itself.
    pub(crate) fn failed(&mut self, name: &str, reason: Reason) -> Failed {
        self.failure
            .keep(self.rt.alloc(), self.way.text(), name.as_bytes(), reason);
        Failed
    }

    fn failed_at(&mut self, path: &str, reason: Reason) -> Failed {
        self.failure
            .keep(self.rt.alloc(), b"", path.as_bytes(), reason);
        Failed
    }

    // Goes up as far as is needed and down again; it may have lost its way.
    fn walk(&mut self, dir: &str) -> Result<Gone, Failed> {
        self.climb(dir);
        if self.way.is_lost() {
            self.go_home()?;
        }
        if self.way.is_lost() {
            return Ok(Gone::There);
        }
        match self.way.rest_of(dir) {
            Some("") | None => Ok(Gone::There),
            Some(rest) => self.descend(rest),
        }
    }

    // Goes up until the folder stands here or below.
    fn climb(&mut self, dir: &str) {
        if self.way.is_lost() {
            return;
        }
        let depth = self.way.depth();
        for _ in 0..depth {
            if self.way.rest_of(dir).is_some() {
                break;
            }
            self.way.leave();
        }
        let levels = depth.saturating_sub(self.way.depth());
        if levels > 0 {
            self.way.lose();
            let _ = self.rise(levels);
        }
    }

    // Goes up by so many folders. It is the last one alone that is looked at.
    fn rise(&mut self, levels: usize) -> io::Result<()>
        requires { IsTrue self.old.way.lost }
        ensures kept { Kept self.old.way self.new.way }
        ensures lost { OnErr result (IsTrue self.new.way.lost) }
    {
        for _ in 1..levels {
            env::set_current_dir(self.rt, "..")?;
        }
        self.step("..")
    }

    // Where another folder has the root's name, the way stays lost.
    fn go_home(&mut self) -> Result<(), Failed> {
        self.way.restart();
        let home = self.home;
        match self.step(home.name.as_str()) {
            Ok(()) => Ok(()),
            Err(error) => Err(self.failed_at(home.name.as_str(), Reason::System(error))),
        }
    }

    // Goes down by each name.
    fn descend(&mut self, rest: &str) -> Result<Gone, Failed> {
        for name in rest.split('/') {
            match self.enter(name)? {
                Gone::There => if self.way.is_lost() {
                    return Ok(Gone::There);
                },
                Gone::Absent => return Ok(Gone::Absent),
                Gone::Shut => return Ok(Gone::Shut),
            }
        }
        Ok(Gone::There)
    }

    // Goes down by a name, where it is a directory's.
    fn enter(&mut self, name: &str) -> Result<Gone, Failed> {
        let Some(spot) = self.spot_at(name)? else {
            return Ok(Gone::Absent);
        };
        self.met.keep(self.way.text(), self.way.spot());
        if self.way.enter(name, spot).is_err() {
            return Err(self.failed(name, Reason::Words("out of memory")));
        }
        let stepped = self.step(name);
        if self.way.is_lost() {
            self.met.forget();
        }
        match stepped {
            Ok(()) => Ok(Gone::There),
            Err(error) if error.kind() == ErrorKind::PermissionDenied => Ok(self.stay_out()),
            Err(error) if is_absence(&error) => Ok(Gone::There),
            Err(error) => Err(self.failed("", Reason::System(error))),
        }
    }

    // The folder above the one that may not be gone into is where the process still stands.
    fn stay_out(&mut self) -> Gone {
        self.way.leave();
        if let Ok(here) = fs::metadata(self.rt, ".") {
            self.way.arrive(spot_of(&here));
        }
        Gone::Shut
    }

    // Which directory a name is, no link followed: what a look showed there before, if one did.
    fn spot_at(&mut self, name: &str) -> Result<Option<Spot>, Failed> {
        if let Some(spot) = self.seen.at(name) {
            return Ok(Some(spot));
        }
        if let Some(spot) = self.met.at(self.way.text(), name) {
            return Ok(Some(spot));
        }
        match fs::symlink_metadata(self.rt, name) {
            Ok(metadata) if metadata.is_dir() => Ok(Some(spot_of(&metadata))),
            Ok(_) => Ok(None),
            Err(error) if is_absence(&error) => Ok(None),
            Err(error) => Err(self.failed(name, Reason::System(error))),
        }
    }

    // What stands on another file system than the one whose clock is asked shows the lowest time, by which nothing is recorded and nothing vouched for: its
    // times may be told by another clock, and more coarsely.
    fn by_clock(&self, metadata: &Metadata, stat: Stat) -> Stat
        requires { IsPlain stat }
        ensures { IsPlain result }
    {
        match self.clock {
            Some(clock) if clock != metadata.dev() => timeless(stat),
            _ => stat,
        }
    }

    // What a name in the folder shows, no link followed.
    fn look(&mut self, name: &str) -> Result<Option<Stat>, Failed>
        ensures { IfOk result (λ found. IfSome found IsPlain) }
    {
        match fs::symlink_metadata(self.rt, name) {
            Ok(metadata) => {
                if metadata.is_dir() {
                    self.seen.keep(name, spot_of(&metadata));
                }
                match stat_of(&metadata) {
                    Some(stat) => Ok(Some(self.by_clock(&metadata, stat))),
                    None => Err(self.failed(name, NO_TIME)),
                }
            }
            Err(error) if is_absence(&error) => Ok(None),
            Err(error) => Err(self.failed(name, Reason::System(error))),
        }
    }

    // The only change of folder: into a name that stands here, up, or home. The way says already where that should lead.
    fn step(&mut self, name: &str) -> io::Result<()>
        requires { IsTrue self.old.way.lost }
        ensures kept { Kept self.old.way self.new.way }
        ensures lost { OnErr result (IsTrue self.new.way.lost) }
    {
        self.seen.spot = None;
        env::set_current_dir(self.rt, name)?;
        match fs::metadata(self.rt, ".") {
            Ok(here) => {
                self.way.arrive(spot_of(&here));
                Ok(())
            }
            Err(error) => Err(error),
        }
    }
}
