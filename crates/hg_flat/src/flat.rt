//! What a dirstate says of its paths.

ghost use Rattle.std.proofs.Props.{props};
ghost use Rattle.hg_flat.specs.Kept.{AreAscending, HaveOwnPaths};

use crate::entries::Entries;
use crate::kept::{FlatRow, item_of};
use crate::span::Span;
use hg_base::{Id20, OutOfMemory, PathRef};
use hg_entry::Item;
use std::alloc::Global;

/// The parents, and the paths with an entry, in order.
#[derive(Drop)]
pub struct Flat {
    pub(crate) p1: Id20,
    pub(crate) p2: Id20,
    pub(crate) rows: Vec<FlatRow>,
    ghost ascending: { AreAscending rows.items } by { Prim.hlevel props },
    ghost own: { HaveOwnPaths rows.items } by { Prim.hlevel props },
}

impl Flat {
    ghost use Rattle.std.specs.Prelude.{◌≡◌, ℕ, List, IfOk, IsTrue, false, true, option_map};
    ghost use Rattle.hg_flat.specs.Kept.{HaveOwnPaths, null_parent, row_at, shown_item, shown_row};
    ghost use Rattle.hg_flat.specs.Shown.{flat_in, kept_of, rows_of};

    /// Null parents and no paths.
    pub fn new(alloc: Global) -> Flat
        ensures first { (flat_in result).p1 ≡ null_parent }
        ensures second { (flat_in result).p2 ≡ null_parent }
        ensures none { (path : List ℕ) → kept_of result path ≡ false }
    {
        Flat {
            p1: Id20([0; 20]),
            p2: Id20([0; 20]),
            rows: Vec::new(alloc),
        }
    }

    // These parents and rows, of which no two are of one path.
    pub(crate) fn of(p1: Id20, p2: Id20, mut rows: Vec<FlatRow>) -> Result<Flat, OutOfMemory>
        requires { HaveOwnPaths rows.items }
        ensures kept { IfOk result (λ flat. (path : List ℕ) → rows_of flat path ≡ row_at rows.items path) }
        ensures first { IfOk result (λ flat. flat.p1 ≡ p1) }
        ensures second { IfOk result (λ flat. flat.p2 ≡ p2) }
    {
        rows.sort_by(|a, b| a.path.cmp(&b.path))?;
        Ok(Flat { p1, p2, rows })
    }

    /// The first parent.
    pub fn first_parent(&self) -> Id20
        ensures { result.0 ≡ (flat_in self.now).p1 }
    {
        self.p1
    }

    // The row of a path, where it has an entry.
    fn find(&self, path: &str) -> Option<&FlatRow>
        ensures { option_map (λ row. row.now) result ≡ rows_of self.now path.now }
    {
        match self
            .rows
            .binary_search_by(|row| row.path.as_str().cmp(path))
        {
            Ok(at) => Some(&self.rows[at]),
            Err(_) => None,
        }
    }

    // Whether the row at this place is of the path.
    fn is_row_of(&self, at: usize, path: &str) -> bool
        ensures { IsTrue result → kept_of self.now path.now ≡ true }
    {
        if at >= self.rows.len() {
            return false;
        }
        self.rows[at].path.as_str() == path
    }

    // Where the row of a path stands, or would stand.
    fn place_of(&self, path: &str) -> usize {
        self.rows.partition_point(|row| row.path.as_str() < path)
    }

    /// What is said of a path, where it has an entry.
    pub fn get(&self, path: PathRef<'_>) -> Option<Item<'_>>
        ensures { option_map shown_item result ≡ option_map shown_row (rows_of self.now path.entry.text.now) }
    {
        let row = self.find(path.text)?;
        Some(item_of(row))
    }
}

impl Entries for Flat {
    ghost use Rattle.hg_flat.specs.Passed.{nothing_known};
    ghost use Rattle.hg_flat.specs.Shown.{kept_of};

    ghost kept = { kept_of };

    // Nothing was looked at before.
    ghost known = { λ flat. nothing_known };

    // The row at `next` is looked at first, which is made the one behind the row that was found.
    fn has(&self, path: &str, next: &mut usize) -> bool {
        if self.is_row_of(*next, path) {
            *next = next.saturating_add(1);
            return true;
        }
        if self.find(path).is_none() {
            return false;
        }
        *next = self.place_of(path).saturating_add(1);
        true
    }

    fn was_passed(&self, _dir: Option<PathRef<'_>>, _name: &str, _next: &mut usize) -> bool {
        false
    }

    fn was_entered(&self, _path: &str, _next: &mut usize) -> bool {
        false
    }

    fn served(&self, _path: &str, _next: &mut usize) -> Option<Span> {
        None
    }

    fn node_at(&self, _at: usize) -> Option<PathRef<'_>> {
        None
    }
}
