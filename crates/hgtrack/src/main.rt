//! The program `hgtrack`: it reads its words, finds the working copy that the current folder is in, and runs one command over it and the
//! standard streams.
//!
//! ```text
//! hgtrack status           # anywhere in a working copy
//! hgtrack status -m -C     # with flags
//! hgtrack add src/main.c   # paths from the current folder
//! hgtrack forget main.o
//! hgtrack remove src/old.c
//! hgtrack copy src/main.c src/other.c
//! hgtrack debugdirstate
//! hgtrack --help
//! hgtrack status --help
//! hgtrack --version
//! ```
#![tactic(auto)]

use hg_base::{Text, Words};
use hg_disk::{RealShelf, RealTree, Root, Start, enter_root, open_streams};
use hg_front::{Reasons, begun_at, carry, end, own_text, print, unreached, unread, unreadable};
use hg_ignore::Builds;
use hg_report::Fault;
use hg_session::failed;
use hg_stream::{ReaderSource, Sink, WriterSink};
use std::alloc::Global;
use std::process::ExitCode;
use std::{env, mem};

// The words after the program's name.
fn read_words(alloc: Global, rt: &HostRuntime) -> Result<Words, Fault> {
    let mut words = Words::new(alloc);
    let arguments = match env::args(rt) {
        Ok(arguments) => arguments,
        Err(error) => return Err(unread(error.kind())),
    };
    for argument in arguments.skip(1) {
        words.push(Text::of(alloc, argument.as_str())?)?;
    }
    Ok(words)
}

fn main(rt: HostRuntime) -> ExitCode {
    if open_streams(&rt, &rt.stdin(), &rt.stdout(), &rt.stderr()).is_err() {
        return ExitCode::from(255);
    }
    let alloc = rt.alloc();
    let mut out = WriterSink::new(rt.stdout());
    let mut err = WriterSink::new(rt.stderr());
    let words = match read_words(alloc, &rt) {
        Ok(words) => words,
        Err(Fault::Usage) => return ExitCode::from(unreadable(alloc, &mut err)),
        Err(fault) => return ExitCode::from(failed(alloc, fault, &mut err).status),
    };
    let status = match own_text(alloc, &words) {
        Ok(Some(text)) => print(alloc, &mut out, &mut err, text.as_str()),
        Ok(None) => started(&rt, words, &mut out, &mut err),
        Err(_) => failed(alloc, Fault::OutOfMemory, &mut err).status,
    };
    ExitCode::from(status)
}

// What a command ends with, from where it is started.
fn started<O: Sink, E: Sink>(rt: &HostRuntime, words: Words, out: &mut O, err: &mut E) -> u8 {
    let alloc = rt.alloc();
    match enter_root(rt) {
        Ok(Start::Inside(folder)) => from_root(rt, folder.as_deref(), true, words, out, err),
        Ok(Start::Outside) => from_root(rt, Some(""), false, words, out, err),
        Err(_) => unreached(alloc, err, ".: no way to the root or back"),
    }
}

// Carries a command to the devices of the working copy whose root is the current folder, and answers what that ends with.
fn from_root<O: Sink, E: Sink>(
    rt: &HostRuntime,
    folder: Option<&str>,
    inside: bool,
    words: Words,
    out: &mut O,
    err: &mut E,
) -> u8 {
    let alloc = rt.alloc();
    let root = Root::current(rt);
    let mut input = ReaderSource::new(rt.stdin());
    let mut tree = RealTree::new(rt, &root);
    let mut shelf = RealShelf::new(rt, &root);
    let mut regexps = Builds::new();
    let carried = carry(
        alloc,
        folder,
        &begun_at(rt, inside),
        words,
        &mut tree,
        &mut shelf,
        &mut regexps,
        &mut input,
        out,
        err,
    );
    let told = Reasons {
        tree: tree.failure(),
        shelf: shelf.failure(),
        lock: shelf.refusal(),
    };
    let status = end(alloc, err, &carried, told);
    // The system closes its files at the end of the process: of a close that fails nothing would be told.
    mem::forget(shelf);
    status
}
