//! Two statuses over a working copy that is made in memory, told by the numbers of their rows.

ghost use Rattle.std.specs.Prelude.{◌≡◌, ◌≤◌, IfOk};
ghost use Rattle.std.specs.String.{string_bytes};
ghost use Rattle.hg_alone.specs.Alone.{IsOwn};
ghost use Rattle.hg_cli.specs.Load.{AreCounts, Counted, IsLoadText, IsMade, IsStatus, Loads, all_letters};
ghost use Rattle.hg_gen.specs.Copy.{IsGiven};
ghost use Rattle.hg_session.specs.Call.{watched};

use crate::lines::lines_with;
use crate::reading::reads;
use hg_alone::{AloneShelf, AloneTree};
use hg_base::OutOfMemory;
use hg_gen::{Made, make};
use hg_ignore::Builds;
use hg_report::{Counts, Fault, load_text};
use hg_session::{Outcome, command, failed};
use hg_stream::{MemSink, Sink, put_all};
use hg_words::{Command, StatusFlags};
use std::alloc::Global;

// A working copy and the files below its `.hg`, which nobody but the program changes.
#[derive(Drop)]
pub(crate) struct Alone {
    pub(crate) tree: AloneTree,
    pub(crate) shelf: AloneShelf,
}

// What was made, as devices that nobody else changes.
fn apart(made: Made) -> Alone
    requires given { IsGiven made.tree }
    requires own { IsOwn made.shelf }
    ensures tree { result.tree.tree ≡ made.tree }
    ensures shelf { result.shelf.shelf ≡ made.shelf }
{
    Alone {
        tree: AloneTree::of(made.tree),
        shelf: AloneShelf::of(made.shelf),
    }
}

// The copy of so many directories.
fn copy(alloc: Global, dirs: u32) -> Result<Alone, OutOfMemory>
    requires least { 1 ≤ dirs }
    requires most { dirs ≤ 2000 }
    ensures { IfOk result (IsMade dirs) }
{
    let made = make(alloc, dirs)?;
    Ok(apart(made))
}

// The flags of a status that asks for all letters.
fn all_letters() -> StatusFlags
    ensures { result ≡ all_letters }
{
    StatusFlags {
        modified: false,
        added: false,
        removed: false,
        deleted: false,
        clean: false,
        unknown: false,
        ignored: false,
        all: true,
        no_status: false,
        print0: false,
        copies: false,
    }
}

// How many lines of a text are of each letter.
fn counts_of(text: &[u8], read: u64) -> Counts
    ensures lines { AreCounts text.now result }
    ensures read { result.read ≡ read }
{
    Counts {
        modified: lines_with(text, b'M'),
        added: lines_with(text, b'A'),
        removed: lines_with(text, b'R'),
        deleted: lines_with(text, b'!'),
        unknown: lines_with(text, b'?'),
        ignored: lines_with(text, b'I'),
        clean: lines_with(text, b'C'),
        read,
    }
}

// Runs a status that asks for all letters, and answers what it printed.
fn status(alloc: Global, made: &mut Alone) -> Result<MemSink, OutOfMemory>
    ensures { IfOk result (λ out. IsStatus made.old made.new out.bytes) }
{
    let mut out = MemSink::new(alloc, usize::MAX);
    let mut err = MemSink::new(alloc, usize::MAX);
    let done = command(
        alloc,
        &Command::Status(all_letters()),
        &mut made.tree,
        &mut made.shelf,
        &mut Builds::new(),
        &mut out,
        &mut err,
    );
    match done.fault {
        None => Ok(out),
        Some(_) => Err(OutOfMemory),
    }
}

// Runs such a status, and answers its numbers.
fn counted(alloc: Global, made: &mut Alone) -> Result<Counts, OutOfMemory>
    ensures { IfOk result (Counted made.old made.new) }
{
    let before = made.tree.asked().len();
    let out = status(alloc, made)?;
    let asked = made.tree.asked();
    let read = reads(alloc, asked.split_at(before.min(asked.len())).1)?;
    Ok(counts_of(out.bytes(), read))
}

// The text of two statuses, one after another.
fn text_of(alloc: Global, dirs: u32) -> Result<String, OutOfMemory>
    requires least { 1 ≤ dirs }
    requires most { dirs ≤ 2000 }
    ensures { IfOk result (λ text. IsLoadText dirs (string_bytes text)) }
{
    let mut made = copy(alloc, dirs)?;
    let first = counted(alloc, &mut made)?;
    let second = counted(alloc, &mut made)?;
    load_text(alloc, dirs, first, second)
}

/// Makes a working copy of so many directories in memory, runs two statuses over it, and prints how many rows each had of each letter. What it
/// makes fails for want of memory alone, so that is told of whatever fault they meet.
pub(crate) fn load<O: Sink, E: Sink>(alloc: Global, dirs: u32, out: &mut O, err: &mut E) -> Outcome
    requires least { 1 ≤ dirs }
    requires most { dirs ≤ 2000 }
    ensures { Loads
        dirs
        (watched O.bytes O.faults out.old out.new)
        (watched E.bytes E.faults err.old err.new)
        result.status
        result.fault }
{
    match text_of(alloc, dirs) {
        Err(_) => failed(alloc, Fault::OutOfMemory, err),
        Ok(text) => match put_all(out, text.as_bytes()) {
            Err(_) => failed(alloc, Fault::OutFailed, err),
            Ok(()) => Outcome {
                status: 0,
                fault: None,
            },
        },
    }
}
