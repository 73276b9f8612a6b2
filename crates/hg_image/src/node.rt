//! One node, read where it lies.

ghost use Rattle.std.specs.Prelude.{◌≡◌, Some, option_map};
ghost use Rattle.hg_entry.specs.Entry.{cache_of, cache_view, entry_of, view};
ghost use Rattle.hg_image.specs.Node.{name_of, fields_of};
ghost use Rattle.hg_image.specs.View.{row, rows_in, rows_below};

use crate::opened::{List, NodeRef};
use crate::parts::sound_text;
use hg_base::{PathRef, Stamp};
use hg_entry::bits::has_entry;
use hg_entry::{Entry, Fields, dir_stamp};
use hg_node::Rec;

impl<'a> NodeRef<'a> {
    /// The full path.
    #[inline(always)]
    pub fn path(self) -> PathRef<'a>
        ensures { result.text.now ≡ (row self.entry).path }
    {
        PathRef {
            text: sound_text(self.bytes, self.rec.path_start, self.rec.path_len),
        }
    }

    /// The name in the directory.
    pub fn base(self) -> &'a str
        ensures { result.now ≡ name_of self.entry.bytes.now self.entry.rec }
    {
        self.path().base()
    }

    /// The entry of the file, where it is tracked or in a parent.
    pub fn entry(self) -> Option<Entry>
        ensures { option_map view result ≡ entry_of (fields_of self.entry.rec) }
    {
        Entry::read(fields(self.rec))
    }

    /// The copy source, where there is an entry and it has one.
    #[inline(always)]
    pub fn source(self) -> Option<PathRef<'a>>
        ensures { option_map (λ p. p.text.now) result ≡ (row self.entry).source }
    {
        if !has_entry(self.rec.flags) {
            return None;
        }
        if self.rec.copy_start == 0 {
            return None;
        }
        Some(PathRef {
            text: sound_text(self.bytes, self.rec.copy_start, self.rec.copy_len),
        })
    }

    /// The time at which all children of the directory were seen, where it is cached.
    pub fn cache(self) -> Option<Stamp>
        ensures { option_map cache_view result ≡ cache_of (fields_of self.entry.rec) }
    {
        dir_stamp(fields(self.rec))
    }

    /// The nodes that stand right below.
    pub fn children(self) -> List<'a>
        ensures rows { rows_in result ≡ rows_below self.entry }
        ensures dir { option_map (λ d. d.text.now) result.dir ≡ Some (row self.entry).path }
        // It is the list that the record names, with no node too.
        ensures start { result.start ≡ self.entry.rec.kids_start }
        ensures count { result.count ≡ self.entry.rec.kids_count }
        ensures bytes { result.bytes.now ≡ self.entry.bytes.now }
        ensures levels { result.depth ≡ self.entry.depth }
    {
        List {
            bytes: self.bytes,
            dir: Some(self.path()),
            start: self.rec.kids_start,
            count: self.rec.kids_count,
            depth: self.depth,
        }
    }

    /// The byte place of the record.
    pub fn place(self) -> u32
        ensures { result ≡ self.entry.rec.place }
    {
        self.rec.place
    }

    /// All numbers of the node, with its place.
    pub fn rec(self) -> Rec
        ensures { result ≡ (row self.entry).rec }
    {
        self.rec
    }
}

// The numbers that an entry or a cached directory is read from.
fn fields(rec: Rec) -> Fields
    ensures { result ≡ fields_of rec }
{
    Fields {
        flags: rec.flags,
        size: rec.size,
        seconds: rec.seconds,
        nanos: rec.nanos,
    }
}
