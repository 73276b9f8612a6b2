//! The working copy seen from its root alone, where that has no name that serves: each ancestor of a path is asked first.

ghost use Rattle.std.specs.Prelude.{IfOk, IfSome, length};
ghost use Rattle.hg_base.specs.Reads.{IsWithin};
ghost use Rattle.hg_tree.specs.Moment.{IsPlain};

use crate::contents::read_name;
use crate::disk::is_absence;
use crate::failure::{FirstFailure, Reason};
use crate::look::{NO_TIME, stat_of};
use crate::putting::{Made, Wanted, put_name, unlink_name};
use hg_base::{Failed, Got, Stat};
use std::fs;
use std::rt::Files;

/// A process that stays in the root. Names and paths that are too long for the system are absent.
#[derive(Drop)]
pub(crate) struct Staying<'a, R: Files> {
    pub(crate) rt: &'a R,
    made: Option<Made<R::File>>,
    pub(crate) failure: FirstFailure,
}

impl<'a, R: Files + AllocGlobal> Staying<'a, R> {
    pub(crate) fn new(rt: &'a R) -> Staying<'a, R> {
        Staying {
            rt,
            made: None,
            failure: FirstFailure::new(),
        }
    }

    /// What stands at a path, no link followed.
    pub(crate) fn stat(&mut self, path: &str) -> Result<Option<Stat>, Failed>
        ensures { IfOk result (λ found. IfSome found IsPlain) }
    {
        if !self.is_reached(path)? {
            return Ok(None);
        }
        match fs::symlink_metadata(self.rt, path) {
            Ok(metadata) => match stat_of(&metadata) {
                Some(stat) => Ok(Some(stat)),
                None => Err(self.failed(path, NO_TIME)),
            },
            Err(error) if is_absence(&error) => Ok(None),
            Err(error) => Err(self.failed(path, Reason::System(error))),
        }
    }

    /// Fills the front of a buffer with what a file, or the target of a link, has past a place.
    pub(crate) fn read(&mut self, path: &str, place: u64, buf: &mut [u8]) -> Result<Got, Failed>
        ensures { IfOk result (λ got. IsWithin (length buf.old) got) }
    {
        if !self.is_reached(path)? {
            return Ok(Got::Absent);
        }
        match read_name(self.rt, path, place, buf) {
            Ok(got) => Ok(got),
            Err(reason) => Err(self.failed(path, reason)),
        }
    }

    /// Whether a directory stands at the path, and no link to one; the empty text is the root.
    pub(crate) fn has_dir(&mut self, dir: &str) -> Result<bool, Failed> {
        if dir.is_empty() {
            return Ok(true);
        }
        if !self.is_reached(dir)? {
            return Ok(false);
        }
        self.is_dir(dir)
    }

    /// Takes a file or a link away, and says whether one stood at the path.
    pub(crate) fn unlink(&mut self, path: &str) -> Result<bool, Failed> {
        self.check_in_root(path)?;
        match unlink_name(self.rt, path) {
            Ok(done) => Ok(done),
            Err(reason) => Err(self.failed(path, reason)),
        }
    }

    /// Puts a file or a link, or more bytes behind a file, and says whether it could.
    pub(crate) fn put(&mut self, path: &str, wanted: Wanted, bytes: &[u8]) -> Result<bool, Failed> {
        self.check_in_root(path)?;
        match put_name(self.rt, &mut self.made, path, wanted, bytes) {
            Ok(done) => Ok(done),
            Err(reason) => Err(self.failed(path, reason)),
        }
    }

    // What stands in a directory below the root isn't changed from here: a link that is put there in between would be followed.
    fn check_in_root(&mut self, path: &str) -> Result<(), Failed> {
        if path.contains('/') {
            return Err(self.failed(path, Reason::Words("the root has no name that serves")));
        }
        Ok(())
    }

    // Whether each proper ancestor of the path is a directory, and no link to one. The highest is looked at first.
    fn is_reached(&mut self, path: &str) -> Result<bool, Failed> {
        for (end, byte) in path.bytes().enumerate() {
            if byte == b'/' {
                if !self.leads(path, end)? {
                    return Ok(false);
                }
            }
        }
        Ok(true)
    }

    // Whether what is before `end` is a directory.
    fn leads(&mut self, path: &str, end: usize) -> Result<bool, Failed> {
        match path.split_at_checked(end) {
            Some((ancestor, _)) => self.is_dir(ancestor),
            None => Ok(false),
        }
    }

    fn is_dir(&mut self, path: &str) -> Result<bool, Failed> {
        match fs::symlink_metadata(self.rt, path) {
            Ok(metadata) => Ok(metadata.is_dir()),
            Err(error) if is_absence(&error) => Ok(false),
            Err(error) => Err(self.failed(path, Reason::System(error))),
        }
    }

    fn failed(&mut self, path: &str, reason: Reason) -> Failed {
        self.failure
            .keep(self.rt.alloc(), b"", path.as_bytes(), reason);
        Failed
    }
}
