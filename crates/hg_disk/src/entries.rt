//! The working copy in the file system: the names in a directory.

ghost use Rattle.std.specs.Prelude.{◌≡◌, ◌&&◌, true, IfOk, OnOk, IfSome, Some, All, option_map};
ghost use Rattle.hg_base.specs.PathText.{is_component, is_path, joined};
ghost use Rattle.hg_tree.specs.Moment.{AreFit, IsFit};
ghost use Rattle.std.specs.Io.KnownBytes.{IsAtEnd};

use crate::ancestors::Staying;
use crate::disk::is_absence;
use crate::failure::{FirstFailure, Reason};
use crate::place::{Gone, Place};
use hg_base::{Failed, PathRef, makes_path, valid_name};
use hg_tree::{Name, TreeFault};
use std::alloc::Global;
use std::io::{Error, ErrorKind, Read};
use std::rt::{Env, Files};
use std::str;

// The directory as a text, which is empty for the root.
fn text_of(dir: Option<PathRef<'_>>) -> &str {
    match dir {
        Some(dir) => dir.text,
        None => "",
    }
}

/// The names in a directory, where one stands there. It is read by its name in the folder above, and not gone into, unless the process stands in it.
pub(crate) fn list_there<R: Files + Env + AllocGlobal>(
    place: &mut Place<'_, R>,
    alloc: Global,
    dir: Option<PathRef<'_>>,
) -> Result<Option<Vec<Name>>, TreeFault>
    ensures { IfOk result (λ found. IfSome found (λ names. AreFit (option_map (λ d. d.text.now) dir.entry) names.items)) }
{
    let (above, name) = match dir {
        Some(path) if !place.stands_in(path.text) => (text_of(path.parent()), path.base()),
        _ => (text_of(dir), "."),
    };
    match place.go(above)? {
        Gone::There => list_by(place.rt, alloc, dir, name, &mut place.failure),
        Gone::Absent => Ok(None),
        Gone::Shut => Err(TreeFault::from(place.shut(above))),
    }
}

/// The names in a directory of which each ancestor is asked first, where one stands there.
pub(crate) fn list_from_root<R: Files + AllocGlobal>(
    staying: &mut Staying<'_, R>,
    alloc: Global,
    dir: Option<PathRef<'_>>,
) -> Result<Option<Vec<Name>>, TreeFault>
    ensures { IfOk result (λ found. IfSome found (λ names. AreFit (option_map (λ d. d.text.now) dir.entry) names.items)) }
{
    if !staying.has_dir(text_of(dir))? {
        return Ok(None);
    }
    let path = match dir {
        Some(dir) => dir.text,
        None => ".",
    };
    list_by(staying.rt, alloc, dir, path, &mut staying.failure)
}

// The names in a directory that the system finds by this path, whose last component isn't followed where it is a link.
fn list_by<R: Files>(
    rt: &R,
    alloc: Global,
    dir: Option<PathRef<'_>>,
    path: &str,
    failure: &mut FirstFailure,
) -> Result<Option<Vec<Name>>, TreeFault>
    ensures { IfOk result (λ found. IfSome found (λ names. AreFit (option_map (λ d. d.text.now) dir.entry) names.items)) }
{
    match rt.open_dir(path) {
        Ok(mut entries) => {
            let names = read_names(alloc, dir, &mut entries, failure)?;
            Ok(Some(names))
        }
        Err(error) if is_absence(&error) => Ok(None),
        Err(error) => Err(unread(alloc, dir, error, failure)),
    }
}

// A directory couldn't be read.
fn unread(
    alloc: Global,
    dir: Option<PathRef<'_>>,
    error: Error,
    failure: &mut FirstFailure,
) -> TreeFault {
    if error.kind() == ErrorKind::OutOfMemory {
        return TreeFault::OutOfMemory;
    }
    failure.keep(alloc, text_of(dir).as_bytes(), b"", Reason::System(error));
    TreeFault::Failed
}

// The names that a directory has, each once. Where there is an answer, the directory was read to its end.
fn read_names<D: Read>(
    alloc: Global,
    dir: Option<PathRef<'_>>,
    entries: &mut D,
    failure: &mut FirstFailure,
) -> Result<Vec<Name>, TreeFault>
    ensures fit { IfOk result (λ names. AreFit (option_map (λ d. d.text.now) dir.entry) names.items) }
    ensures end { OnOk result (IsAtEnd (D.remaining entries.new)) }
{
    let mut names = Vec::new(alloc);
    read_each(alloc, dir, &mut names, entries, failure)?;
    names.sort_unstable();
    names.dedup();
    Ok(names)
}

// Puts the names that a directory has behind those so far. It reads as names, each ended by a NUL; no read ends inside one.
fn read_each<D: Read>(
    alloc: Global,
    dir: Option<PathRef<'_>>,
    names: &mut Vec<Name>,
    entries: &mut D,
    failure: &mut FirstFailure,
) -> Result<(), TreeFault>
    requires { All (IsFit (option_map (λ d. d.text.now) dir)) names.old.items }
    ensures fit { OnOk result (All (IsFit (option_map (λ d. d.text.now) dir.entry)) names.new.items) }
    ensures end { OnOk result (IsAtEnd (D.remaining entries.new)) }
{
    let mut room = [0; 4096];
    for _ in 0..u64::MAX {
        match entries.read(&mut room) {
            Ok(0) => return Ok(()),
            Ok(length) => add_names(alloc, dir, names, &room[..length], failure)?,
            Err(error) => return Err(unread(alloc, dir, error, failure)),
        }
    }
    Err(unfit(alloc, dir, b"", "changed again and again", failure))
}

// Puts names behind those so far.
fn add_names(
    alloc: Global,
    dir: Option<PathRef<'_>>,
    names: &mut Vec<Name>,
    read: &[u8],
    failure: &mut FirstFailure,
) -> Result<(), TreeFault>
    requires { All (IsFit (option_map (λ d. d.text.now) dir)) names.old.items }
    ensures { OnOk result (All (IsFit (option_map (λ d. d.text.now) dir.entry)) names.new.items) }
{
    for name in read.split(|byte| *byte == 0) {
        add_name(alloc, dir, names, name, failure)?;
    }
    Ok(())
}

// Puts a name behind those so far, where it is one of the working copy.
fn add_name(
    alloc: Global,
    dir: Option<PathRef<'_>>,
    names: &mut Vec<Name>,
    name: &[u8],
    failure: &mut FirstFailure,
) -> Result<(), TreeFault>
    requires { All (IsFit (option_map (λ d. d.text.now) dir)) names.old.items }
    ensures { OnOk result (All (IsFit (option_map (λ d. d.text.now) dir.entry)) names.new.items) }
{
    match name_of(alloc, dir, name, failure)? {
        Some(name) => Ok(names.push(name)?),
        None => Ok(()),
    }
}

// The name of an entry of the directory. The directory itself, the one above and the root's `.hg` are left out.
fn name_of(
    alloc: Global,
    dir: Option<PathRef<'_>>,
    name: &[u8],
    failure: &mut FirstFailure,
) -> Result<Option<Name>, TreeFault>
    ensures { IfOk result (λ found. IfSome found (λ name. IsFit (option_map (λ d. d.text.now) dir.entry) name)) }
{
    if is_left_out(dir, name) {
        return Ok(None);
    }
    let Some(text) = fit_name(dir, name) else {
        return Err(unfit(alloc, dir, name, words_for(name), failure));
    };
    let name = Name::of(alloc, text)?;
    Ok(Some(name))
}

// Whether a component makes a path in the directory. (Below one whose path is too short for any depth nothing is counted.)
fn is_fit_below(dir: PathRef<'_>, name: &str) -> bool
    requires { is_component name.now ≡ true }
    ensures { result ≡ is_path (joined (Some dir.entry.text.now) name.now) }
{
    if dir.text.len() >= 4095 || name.len() >= 4095 {
        return makes_path(Some(dir), name);
    }
    true
}

// The same of a directory, where none is the root.
fn is_fit(dir: Option<PathRef<'_>>, name: &str) -> bool
    requires { is_component name.now ≡ true }
    ensures { result ≡ is_path (joined (option_map (λ d. d.text.now) dir.entry) name.now) }
{
    match dir {
        None => makes_path(None, name),
        Some(dir) => is_fit_below(dir, name),
    }
}

// Bytes as a component that makes a path in the directory.
fn fit_name<'a>(dir: Option<PathRef<'_>>, bytes: &'a [u8]) -> Option<&'a str>
    ensures { IfSome result (λ name. (is_component name.now && is_path (joined (option_map (λ d. d.text.now) dir.entry) name.now)) ≡ true) }
{
    let Some(name) = valid_name(bytes) else {
        return None;
    };
    if is_fit(dir, name) { Some(name) } else { None }
}

// Why a name isn't listed.
fn words_for(name: &[u8]) -> &'static str {
    match str::from_utf8(name) {
        Ok(_) => "a name that makes no path",
        Err(_) => "a name that isn't text",
    }
}

fn is_left_out(dir: Option<PathRef<'_>>, name: &[u8]) -> bool {
    name.is_empty() || name == b".".as_slice() || name == b"..".as_slice() || is_own(dir, name)
}

// Mercurial's own directory, which is no part of the working copy.
fn is_own(dir: Option<PathRef<'_>>, name: &[u8]) -> bool {
    dir.is_none() && name == b".hg".as_slice()
}

// A name that can't be listed.
fn unfit(
    alloc: Global,
    dir: Option<PathRef<'_>>,
    name: &[u8],
    words: &'static str,
    failure: &mut FirstFailure,
) -> TreeFault {
    failure.keep(alloc, text_of(dir).as_bytes(), name, Reason::Words(words));
    TreeFault::Failed
}
