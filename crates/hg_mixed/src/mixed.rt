//! The table, and what can be asked of it.

ghost use Rattle.std.specs.Prelude.{◌≡◌, ◌||◌, Some, false, is_some, option_map};
ghost use Rattle.hg_docket.specs.Docket as docket;
ghost use Rattle.hg_entry.specs.Entry.{entry_of, cache_view};
ghost use Rattle.hg_image.specs.Node.{fields_of};
ghost use Rattle.hg_image.specs.Reading as reading;
ghost use Rattle.hg_image.specs.View.{row, rows};
ghost use Rattle.hg_nodes.specs.Edits.{IsFormed, IsSame};
ghost use Rattle.hg_mixed.specs.Held.{is_left_in, is_lent, source_at, table, text_at};
ghost use Rattle.hg_mixed.specs.Lent.{lent_at};
ghost use Rattle.hg_nodes.specs.Lists.{or_root};
ghost use Rattle.hg_mixed.specs.Opened.{source_place};
ghost use Rattle.hg_mixed.specs.Shown.{AnswersLent, AreAllLent, AreLentWhole, ArePlacesOf, ArePlacesOfImage};
ghost use Rattle.hg_nodes.specs.Shown.{shown_in, shown_item};

use crate::image_list::image_list;
use crate::lent::{Lent, Place};
use crate::opening::source_place;
use crate::own::Own;
use hg_base::{Id20, PathRef, Stamp};
use hg_entry::Item;
use hg_image::{Image, List, NodeRef};
use hg_nodes::text_of;
use std::marker::Model;

/// All that a dirstate records: what an edit has touched is in memory, and the rest is read where it lies in the image.
#[derive(Drop)]
pub struct Mixed<'a> {
    pub(crate) image: Image<'a>,
    pub(crate) memory: Own<'a>,
    pub(crate) left: Lent<'a>,
}

impl<'a> Model for Mixed<'a> {
    ghost use Rattle.hg_docket.specs.Docket as docket;
    ghost use Rattle.hg_mixed.specs.Held.{Held};
    ghost use Rattle.hg_mixed.specs.Own.{memory_table};
    ghost use Rattle.hg_mixed.specs.Parted.{ArePlaced, AreWhole, IsParted, image_rows};

    ghost Value = { Held };

    ghost view = { λ m. record {
      docket = docket.view m.image.docket;
      bytes = m.image.bytes.now;
      p1 = m.memory.p1;
      p2 = m.memory.p2;
      hash = m.memory.hash;
      changed = m.memory.changed;
      rows = m.memory.rows;
      times = m.memory.times;
      left = m.left;
      kept = m.memory.kept;
    } };

    ghost invariant = { λ m.
        IsParted (docket.view m.image.docket) (image_rows m.image) m.left (memory_table m.memory)
        × ArePlaced (image_rows m.image) m.left m.memory.rows
        × AreWhole (docket.view m.image.docket) (image_rows m.image) m.left m.memory };
}

impl<'a> Mixed<'a> {
    /// The table that an image records, in which nothing is changed. Nothing of it is copied.
    pub fn open(image: Image<'a>) -> Mixed<'a>
        ensures table { IsSame (table result) (reading.table_of (docket.view image.entry.docket) (rows image.entry)) }
        ensures changed { result.changed ≡ false }
        ensures docket { result.docket ≡ docket.view image.entry.docket }
        ensures bytes { result.bytes ≡ image.entry.bytes.now }
        // Each list is lent, and each text.
        ensures lent { AreAllLent (rows image.entry) result }
        ensures places { ArePlacesOf (rows image.entry) result }
    {
        Mixed {
            image,
            memory: Own::new(image.docket()),
            left: Lent::of_root(image.root()),
        }
    }

    /// Whether an edit has changed anything since the table was opened.
    pub fn changed(&self) -> bool
        ensures { result ≡ self.now.changed }
    {
        self.memory.changed()
    }

    /// The parents of the working copy.
    pub fn parents(&self) -> (Id20, Id20)
        ensures p1 { result.0.0 ≡ self.now.p1 }
        ensures p2 { result.1.0 ≡ self.now.p2 }
        ensures formed { IsFormed (table self.now) }
    {
        self.memory.parents()
    }

    /// The hash of the ignore patterns under which directories were cached.
    pub fn hash(&self) -> [u8; 20]
        ensures { result ≡ self.now.hash }
    {
        self.memory.hash()
    }

    /// The image that the table was opened over.
    pub fn image(&self) -> Image<'a>
        ensures docket { docket.view result.docket ≡ self.now.docket }
        ensures bytes { result.bytes.now ≡ self.now.bytes }
        ensures places { ArePlacesOfImage self.now }
        ensures lent { AreLentWhole self.now }
    {
        self.image
    }

    // Whether the list of a directory, if the image has one, is left there, or is in memory and unchanged.
    fn is_unchanged(&self, dir: Option<PathRef<'_>>) -> bool
        ensures { result
            ≡ (is_left_in self.now.left (or_root (option_map (λ d. d.text.now) dir.entry))
            || is_some (lent_at self.now.kept (or_root (option_map (λ d. d.text.now) dir.entry)))) }
    {
        let text = text_of(dir);
        if self.left.has(text) {
            return true;
        }
        if self.memory.keeps(text) {
            return true;
        }
        match dir {
            None => false,
            Some(dir) => self.left.covers(dir),
        }
    }

    /// Whether the list of a directory's children is lent from the image, where no directory is the root: the image has one, and no edit has changed
    /// anything at or below its nodes. False where no node is there, and for a list without nodes.
    pub fn is_lent(&self, dir: Option<PathRef<'_>>) -> bool
        ensures { result ≡ is_lent self.now (option_map (λ d. d.text.now) dir.entry) }
    {
        self.lent(dir).is_some()
    }

    /// The image's list of a directory's children, where it is lent.
    pub fn lent(&self, dir: Option<PathRef<'_>>) -> Option<List<'a>>
        ensures { AnswersLent self.now (option_map (λ d. d.text.now) dir.entry) result }
    {
        if !self.is_unchanged(dir) {
            return None;
        }
        image_list(self.image, dir)
    }

    /// The entry of a path and its copy source, where it has an entry.
    pub fn get(&self, path: PathRef<'_>) -> Option<Item<'_>>
        ensures item { option_map shown_item result ≡ shown_in (table self.now) path.entry.text.now }
        ensures there { is_some result ≡ is_some ((table self.now).entries path.entry.text.now) }
        ensures formed { IsFormed (table self.now) }
    {
        match self.left.find(path) {
            Place::Memory => self.memory.get(path),
            Place::Image(None) => None,
            Place::Image(Some(node)) => item_of(node),
        }
    }

    /// The time of a cached directory.
    pub fn cache(&self, dir: PathRef<'_>) -> Option<Stamp>
        ensures { option_map cache_view result ≡ (table self.now).caches dir.entry.text.now }
    {
        match self.left.find(dir) {
            Place::Memory => self.memory.cache(dir),
            Place::Image(None) => None,
            Place::Image(Some(node)) => node.cache(),
        }
    }

    /// Where the texts of a path and of its copy source lie in the image, each where it is lent: an edit lays a text aside that it drops or changes.
    pub fn places(&self, path: PathRef<'_>) -> (Option<u32>, Option<u32>)
        ensures path { result.0 ≡ text_at self.now path.entry.text.now }
        ensures source { result.1 ≡ source_at self.now path.entry.text.now }
    {
        match self.left.find(path) {
            Place::Memory => self.memory.places(path),
            Place::Image(None) => (None, None),
            Place::Image(Some(node)) => places_of(node),
        }
    }

    /// Whether a node stands at the path.
    pub fn has_node(&self, path: PathRef<'_>) -> bool
        ensures { result ≡ (table self.now).nodes path.entry.text.now }
    {
        match self.left.find(path) {
            Place::Memory => self.memory.has_node(path),
            Place::Image(node) => node.is_some(),
        }
    }
}

// Where the texts of a node of the image lie.
fn places_of(node: NodeRef<'_>) -> (Option<u32>, Option<u32>)
    ensures path { result.0 ≡ Some (row node.entry).rec.path_start }
    ensures source { result.1 ≡ source_place (row node.entry) }
{
    let rec = node.rec();
    (Some(rec.path_start), source_place(node.source(), rec))
}

// What a node of the image shows, where it has an entry.
fn item_of(node: NodeRef<'_>) -> Option<Item<'_>>
    ensures { option_map shown_item result ≡ option_map (λ entry. (entry, (row node.entry).source)) (entry_of (fields_of node.entry.rec)) }
{
    let entry = node.entry()?;
    Some(Item {
        entry,
        source: node.source(),
    })
}
