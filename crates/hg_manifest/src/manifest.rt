//! Manifests: the files of a commit by path.

ghost use Rattle.std.specs.Prelude.{◌≡◌, ◌≤◌, ◌<◌, [], Some, length, slice_get, take};
ghost use Rattle.std.specs.Map.{lookup};
ghost use Rattle.std.specs.Str.{bytes_eq};
ghost use Rattle.hg_manifest.specs.Kept.{Answers, AreAscending, IsKept};
ghost use Rattle.hg_manifest.specs.Found.{FindsAt};
ghost use Rattle.hg_manifest.specs.Rows.{manifest_of};

use crate::fault::ManifestFault;
use crate::place::{Place, file_in, path_in, read_places};
use crate::row::FileRow;
use hg_base::PathRef;
use std::alloc::Global;
use std::cmp::Ordering;
use std::marker::Model;

/// The files of a commit; contracts see paths and what is said of them, ascending by the bytes of the paths.
#[derive(Debug, Drop)]
pub struct Manifest {
    text: Vec<u8>,
    places: Vec<Place>,
}

impl Model for Manifest {
    ghost use Rattle.std.specs.Prelude.{map};
    ghost use Rattle.hg_manifest.specs.Kept.{IsKept, row_in};
    ghost use Rattle.hg_manifest.specs.Rows.{Rows};

    ghost Value = { Rows };

    ghost view = { λ m. map (row_in m.text.items) m.places.items };

    ghost invariant = { λ m. IsKept m.text.items m.places.items };
}

// Where the line of a path stands among ascending ones.
fn find(text: &[u8], places: &[Place], path: &str) -> Option<usize>
    requires { IsKept text.now places.now }
    ensures { FindsAt text.now places.now path.now result }
{
    let mut low = 0;
    let mut high = places.len();
    while low < high {
        let middle = low + (high - low) / 2;
        match path_in(text, places[middle]).text.cmp(path) {
            Ordering::Less => low = middle + 1,
            Ordering::Greater => high = middle,
            Ordering::Equal => return Some(middle),
        }
    }
    None
}

impl Manifest {
    /// A manifest without rows.
    pub(crate) fn empty(alloc: Global) -> Manifest
        ensures { result ≡ [] }
    {
        Manifest {
            text: Vec::new(alloc),
            places: Vec::new(alloc),
        }
    }

    /// The manifest of a text.
    pub(crate) fn of(alloc: Global, text: Vec<u8>) -> Result<Manifest, ManifestFault>
        requires { length text.items ≤ 67108864 }
        ensures { Answers (manifest_of text.items) result }
    {
        let places = read_places(alloc, text.as_slice())?;
        Ok(Manifest { text, places })
    }

    /// What is said of a path. It takes no memory.
    pub fn get(&self, path: PathRef<'_>) -> Option<FileRow>
        ensures { result ≡ lookup (bytes_eq path.entry.text.now) self.now }
    {
        match find(self.text.as_slice(), self.places.as_slice(), path.text) {
            None => None,
            Some(at) => Some(file_in(self.text.as_slice(), self.places[at])),
        }
    }

    /// How many paths there are. It takes no memory.
    pub fn len(&self) -> usize
        ensures len { result ≡ length self.now }
        ensures ascending { AreAscending self.now }
    {
        self.places.len()
    }

    /// The path of this number, counted from 0 in the order of their bytes, and what is said of it. It takes no memory.
    pub fn at(&self, i: usize) -> (PathRef<'_>, FileRow)
        requires { i < length self.now }
        ensures { slice_get self.now i ≡ Some (result.0.text.now, result.1) }
    {
        let place = self.places[i];
        (
            path_in(self.text.as_slice(), place),
            file_in(self.text.as_slice(), place),
        )
    }
}
