//! The files below `.hg` that stay open.

use crate::spot::Spot;
use std::alloc::Global;
use std::fs::File;
use std::io::Error;

// How many files that have served stay open at most, so that the process has room for others.
const MOST: usize = 64;

/// What was opened below `.hg`, and isn't closed before the shelf is dropped: std tells nothing of a close that fails.
#[derive(Drop)]
pub(crate) struct Opened {
    written: Option<Written>,
    served: Vec<File>,
}

/// A file that was written, and is to be made sure: some systems tell only at the close that there was no room for what was written.
#[derive(Drop)]
pub(crate) struct Written {
    pub(crate) spot: Spot,
    pub(crate) file: File,
}

impl Opened {
    pub(crate) fn new(alloc: Global) -> Opened {
        Opened {
            written: None,
            served: Vec::new(alloc),
        }
    }

    /// Has this be the file that was written last.
    pub(crate) fn set_written(&mut self, written: Written) {
        self.written = Some(written);
    }

    /// Makes sure what the file holds that was written last, where that wasn't done yet.
    pub(crate) fn sync_written(&mut self) -> Result<(), Error> {
        match self.written.take() {
            Some(written) => self.sync(written.file),
            None => Ok(()),
        }
    }

    /// Makes sure what the file holds that was written last, where it is this one, and says whether it is.
    pub(crate) fn sync_seen(&mut self, spot: Spot) -> Result<bool, Error> {
        match self.written.take_if(|it| it.spot == spot) {
            Some(written) => {
                self.sync(written.file)?;
                Ok(true)
            }
            None => Ok(false),
        }
    }

    /// Makes sure what an open file holds, or which names a folder has.
    pub(crate) fn sync(&mut self, file: File) -> Result<(), Error> {
        file.sync_all()?;
        self.keep(file);
        Ok(())
    }

    /// Keeps a file open that has served. It is closed where as many are kept as may be, or there is no memory.
    pub(crate) fn keep(&mut self, file: File) {
        if self.served.len() < MOST {
            match self.served.push(file) {
                Ok(()) | Err(_) => {}
            }
        }
    }
}
