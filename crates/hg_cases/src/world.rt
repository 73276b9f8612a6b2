//! What stands before a run: the working copy, the files below `.hg`, and the streams.

use crate::bytes::Data;
use crate::noted::Noted;
use crate::once::once;
use crate::printed::Printed;
use crate::streams::{Ends, Streams};
use crate::tokens::{push_word, words_from};
use crate::wrong::Wrong;
use hg_base::{OutOfMemory, Time, Words};
use hg_shelf::{MemShelf, Shelf};
use hg_tree::MemTree;
use std::alloc::Global;
use std::mem;

pub(crate) const NOON: Time = Time {
    seconds: 43_200,
    nanos: 0,
};

/// What stands before a run, and the time of the things that are placed from here on; copies of the files below `.hg`; what was told last; and what is
/// wrong with the line that is played. One is made, and each case lays it out anew.
#[derive(Drop)]
pub(crate) struct World {
    pub alloc: Global,
    pub tree: Noted<MemTree>,
    pub asked: usize,
    pub time: Time,
    pub shelf: Noted<MemShelf>,
    pub image: Noted<MemShelf>,
    copy: Noted<MemShelf>,
    pub data: Data,
    pub streams: Streams,
    pub ends: Ends,
    pub counted: bool,
    pub told: Printed,
    pub wrong: Wrong,
}

fn shelf_of(alloc: Global) -> Result<Noted<MemShelf>, OutOfMemory> {
    Ok(Noted::new(alloc, MemShelf::new(alloc)?))
}

fn tree_of(alloc: Global) -> Result<Noted<MemTree>, OutOfMemory> {
    Ok(Noted::new(alloc, MemTree::new(alloc, NOON)?))
}

// The parts are made one behind the other, and each is handed on.
fn with_tree(alloc: Global, tree: Noted<MemTree>) -> Result<World, OutOfMemory> {
    with_shelf(alloc, tree, shelf_of(alloc)?)
}

fn with_shelf(
    alloc: Global,
    tree: Noted<MemTree>,
    shelf: Noted<MemShelf>,
) -> Result<World, OutOfMemory> {
    with_image(alloc, tree, shelf, shelf_of(alloc)?)
}

fn with_image(
    alloc: Global,
    tree: Noted<MemTree>,
    shelf: Noted<MemShelf>,
    image: Noted<MemShelf>,
) -> Result<World, OutOfMemory> {
    with_copy(alloc, tree, shelf, image, shelf_of(alloc)?)
}

fn with_copy(
    alloc: Global,
    tree: Noted<MemTree>,
    shelf: Noted<MemShelf>,
    image: Noted<MemShelf>,
    copy: Noted<MemShelf>,
) -> Result<World, OutOfMemory> {
    Ok(whole(alloc, tree, shelf, image, copy, Ends::new(alloc)?))
}

fn whole(
    alloc: Global,
    tree: Noted<MemTree>,
    shelf: Noted<MemShelf>,
    image: Noted<MemShelf>,
    copy: Noted<MemShelf>,
    ends: Ends,
) -> World {
    World {
        alloc,
        tree,
        asked: 0,
        time: NOON,
        shelf,
        image,
        copy,
        data: Data::new(alloc),
        streams: Streams::new(alloc),
        ends,
        counted: false,
        told: Printed::new(alloc),
        wrong: Wrong::none(),
    }
}

impl World {
    /// Where nothing stands.
    pub fn new(alloc: Global) -> Result<World, OutOfMemory> {
        with_tree(alloc, tree_of(alloc)?)
    }

    /// Nothing stands there again.
    pub fn clear(&mut self) {
        self.clear_tree();
        self.clear_shelf();
        self.asked = 0;
        self.time = NOON;
        self.data.clear();
        self.streams.clear();
        self.counted = false;
    }

    fn clear_tree(&mut self) {
        match tree_of(self.alloc) {
            Ok(tree) => self.tree = tree,
            Err(_) => self.wrong.check(false),
        }
    }

    fn clear_shelf(&mut self) {
        match shelf_of(self.alloc) {
            Ok(shelf) => self.shelf = shelf,
            Err(_) => self.wrong.check(false),
        }
    }

    /// Runs the words of a line from a place on.
    pub fn run(&mut self, tokens: &[Vec<u8>], from: usize) {
        self.data.ended = true;
        self.asked = self.tree.device.asked().len();
        self.ends.begin(&self.streams, &mut self.wrong);
        self.over(tokens, from);
        self.streams.forget();
        if self.counted {
            self.put_calls();
        }
    }

    fn put_calls(&mut self) {
        self.told.line.put("[");
        self.told.line.put_number(self.shelf.calls.made_last());
        self.told.line.put(" calls]\n");
    }

    /// Runs the words of a line from a place on, with streams of which nothing was said.
    pub fn run_plainly(&mut self, tokens: &[Vec<u8>], from: usize) {
        self.begin_plainly();
        self.over(tokens, from);
    }

    fn begin_plainly(&mut self) {
        let streams = Streams::new(self.alloc);
        self.ends.begin(&streams, &mut self.wrong);
    }

    fn over(&mut self, tokens: &[Vec<u8>], from: usize) {
        let words = words_from(self.alloc, tokens, from, &mut self.wrong);
        self.go(&words);
    }

    // Runs a command, and has what it told.
    fn go(&mut self, words: &Words) {
        self.tree.calls.begin();
        self.shelf.calls.begin();
        let outcome = once(
            self.alloc,
            words,
            &mut self.tree,
            &mut self.shelf,
            &mut self.ends.regexps,
            &mut self.ends.input,
            &mut self.ends.out,
            &mut self.ends.err,
        );
        let err = self.ends.err.device.bytes();
        self.told.line.clear();
        self.told.put("", self.ends.out.device.bytes());
        self.told.put("2> ", err);
        self.told.put_outcome(self.alloc, &outcome, err);
    }

    /// Has what a crash just before a call leaves.
    pub fn crash(&mut self, call: u64, pick: u8) {
        let moment = call.min(self.shelf.device.calls());
        match self.shelf.device.crashed(moment, pick) {
            Ok(image) => self.image = Noted::new(self.alloc, image),
            Err(_) => self.wrong.check(false),
        }
    }

    /// Has what a crash left in place of the files, and back.
    pub fn turn(&mut self) {
        mem::swap(&mut self.shelf, &mut self.image);
    }

    // Has the same files once more, of which no call was made.
    fn copy_files(&mut self) {
        match self.shelf.device.crashed(self.shelf.device.calls(), 1) {
            Ok(copy) => self.copy = Noted::new(self.alloc, copy),
            Err(_) => self.wrong.check(false),
        }
    }

    /// Tells the record, as `debugdirstate` prints it.
    pub fn tell_record(&mut self) {
        self.copy_files();
        mem::swap(&mut self.shelf, &mut self.copy);
        self.begin_plainly();
        self.print_record();
        mem::swap(&mut self.shelf, &mut self.copy);
    }

    fn print_record(&mut self) {
        let mut words = Words::new(self.alloc);
        push_word(self.alloc, &mut words, "debugdirstate", &mut self.wrong);
        self.go(&words);
    }

    /// The bytes of a file below `.hg`, where it is there.
    pub fn file(&mut self, name: &str) -> Option<Vec<u8>> {
        self.copy_files();
        match self.copy.device.size(name) {
            Ok(Some(size)) => Some(self.bytes_of(name, size as usize)),
            _ => None,
        }
    }

    fn bytes_of(&mut self, name: &str, size: usize) -> Vec<u8> {
        let mut bytes = Vec::new(self.alloc);
        self.wrong.check(bytes.resize(size, 0).is_ok());
        self.wrong
            .check(self.copy.device.read_at(name, 0, &mut bytes).is_ok());
        bytes
    }
}
