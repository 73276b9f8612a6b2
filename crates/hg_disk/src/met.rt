//! Folders that were gone through, in the order in which they were.

use crate::spot::Spot;
use std::alloc::Global;

// How many of them are compared with a path: two ways over one working copy go mostly in one order.
const REACH: usize = 16;

// A folder by its path.
#[derive(Drop)]
struct Folder {
    path: Vec<u8>,
    spot: Spot,
}

/// Which folder stood at a path where one went further down. What there is no memory for is left out.
#[derive(Drop)]
pub(crate) struct Met {
    alloc: Global,
    folders: Vec<Folder>,
    next: usize,
}

// Whether a folder's path is that of a name in a folder, whose path is empty for the root.
fn is_joined(path: &[u8], dir: &[u8], name: &[u8]) -> bool {
    if dir.is_empty() {
        return path == name;
    }
    match path.split_at_checked(dir.len()) {
        Some((front, [b'/', rest @ ..])) => rest == name && front == dir,
        _ => false,
    }
}

// Whether a path is that of a folder or of something below it.
fn is_within(path: &[u8], dir: &[u8]) -> bool {
    match path.split_at_checked(dir.len()) {
        Some((front, [])) => front == dir,
        Some((front, [b'/', ..])) => front == dir,
        _ => false,
    }
}

// Whether a path is that of the folder, or of one above it.
fn leads_to(path: &[u8], folder: Option<&Folder>) -> bool {
    match folder {
        Some(folder) => is_within(folder.path.as_slice(), path),
        None => false,
    }
}

impl Met {
    pub(crate) fn new(alloc: Global) -> Met {
        Met {
            alloc,
            folders: Vec::new(alloc),
            next: 0,
        }
    }

    /// Which folder stood at the path of a name in a folder, where it is found near the one that was found last.
    pub(crate) fn at(&mut self, dir: &[u8], name: &str) -> Option<Spot> {
        let end = self.next.saturating_add(REACH).min(self.folders.len());
        for at in self.next..end {
            let folder = &self.folders[at];
            if is_joined(folder.path.as_slice(), dir, name.as_bytes()) {
                self.next = at;
                return Some(folder.spot);
            }
        }
        None
    }

    /// Keeps a folder below the root, unless it was kept before: then the last that was kept or found is this one or stands below it.
    pub(crate) fn keep(&mut self, path: &[u8], spot: Spot) {
        if path.is_empty()
            || leads_to(path, self.folders.last())
            || leads_to(path, self.folders.get(self.next))
        {
            return;
        }
        if let Ok(path) = Vec::from_slice(self.alloc, path) {
            let _ = self.folders.push(Folder { path, spot });
        }
    }

    pub(crate) fn forget(&mut self) {
        self.folders.clear();
        self.next = 0;
    }
}
