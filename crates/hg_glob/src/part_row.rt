//! The parts of many globs in one row, in the order in which the globs are asked.

ghost use Rattle.std.specs.Prelude.{◌≡◌, ◌<◌, ◌≤◌, ◌++◌, ◌∷◌, [], map, length, slice_index_or, OnOk, IfOk};
ghost use Rattle.hg_glob.specs.Many.{parts_in};

use crate::globs::GlobLine;
use crate::part::Part;
use hg_base::OutOfMemory;
use std::alloc::Global;
use std::marker::Model;

/// Where a glob's parts begin in the row, and where they end.
#[derive(Clone, Copy)]
struct Place {
    from: usize,
    to: usize,
}

/// The parts of many globs, each glob's behind those of the one before; contracts see a list of parts for each glob.
#[derive(Drop)]
pub(crate) struct PartRow {
    parts: Vec<Part>,
    places: Vec<Place>,
}

impl Model for PartRow {
    ghost use Rattle.std.specs.Prelude.{List, map};
    ghost use Rattle.hg_glob.specs.declared.part.Part.{Part};

    ghost Value = { List (List Part) };

    ghost use Rattle.hg_glob.specs.Placed.{parts_at, ArePlaced};

    ghost view = { λ r. map (parts_at r.parts.items) r.places.items };

    ghost invariant = { λ r. ArePlaced r.parts.items r.places.items };
}

impl PartRow {
    /// No globs.
    pub(crate) fn new(alloc: Global) -> PartRow
        ensures { result ≡ [] }
    {
        PartRow {
            parts: Vec::new(alloc),
            places: Vec::new(alloc),
        }
    }

    /// How many globs they are.
    pub(crate) fn len(&self) -> usize
        ensures { result ≡ length self.now }
    {
        self.places.len()
    }

    /// Puts a glob's parts last.
    fn push(&mut self, parts: &[Part]) -> Result<(), OutOfMemory>
        requires few { length parts.now ≤ 4095 }
        ensures { OnOk result (self.new ≡ self.old ++ parts.now ∷ []) }
    {
        let from = self.parts.len();
        self.parts.extend_from_slice(parts)?;
        let to = self.parts.len();
        self.places.push(Place { from, to })?;
        Ok(())
    }

    /// The parts of the glob at a place below the length.
    #[inline(always)]
    pub(crate) fn at(&self, i: usize) -> &[Part]
        requires inside { i < length self.now }
        ensures parts { result.now ≡ slice_index_or self.now i [] }
        ensures few { length result.now ≤ 4095 }
    {
        let place = self.places[i];
        &self.parts[place.from..place.to]
    }

    /// The parts of each line.
    pub(crate) fn of(alloc: Global, lines: &[GlobLine]) -> Result<PartRow, OutOfMemory>
        ensures { IfOk result (λ row. row ≡ map parts_in lines.now) }
    {
        let mut count = 0usize;
        for line in lines {
            count = count.saturating_add(line.glob.parts().len());
        }
        let mut row = PartRow::with_room(alloc, count, lines.len())?;
        for line in lines {
            row.push(line.glob.parts())?;
        }
        Ok(row)
    }

    /// No globs, and room for so many parts and globs.
    fn with_room(alloc: Global, parts: usize, globs: usize) -> Result<PartRow, OutOfMemory>
        ensures { IfOk result (λ row. row ≡ []) }
    {
        Ok(PartRow {
            parts: Vec::with_capacity(alloc, parts)?,
            places: Vec::with_capacity(alloc, globs)?,
        })
    }
}
