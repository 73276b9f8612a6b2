//! Where the files below `.hg` are reached: by the root's absolute name, or, while the lock is held, from within `.hg`.
//!
//! A name may be another folder's from one call to the next. So what is done under the lock is done in the very folder that the command found:
//! the process goes into it, looks whether it is that folder, and has the files by their names in it.

use crate::failure::Reason;
use crate::holder::enough;
use crate::root::{Named, Root, spot_at};
use std::alloc::{AllocError, Global};
use std::env;
use std::io::Error;
use std::rt::{Env, Files};

/// The path of a file below `.hg`, which is `.hg` itself for the empty name. Want of memory for it is a failure of the shelf, whose calls
/// have no other. The tree finds out that the shelf was asked.
pub(crate) fn below_hg<R: Files + Env + AllocGlobal>(
    rt: &R,
    root: &Root,
    name: &str,
) -> Result<String, Reason> {
    set_asked(root);
    let joined = match &root.named {
        Some(named) if root.locked.get() => {
            stand(rt, named)?;
            joined(rt.alloc(), "", if name.is_empty() { "." } else { "" }, name)
        }
        Some(named) => joined(rt.alloc(), named.name.as_str(), "/.hg/", name),
        None => joined(rt.alloc(), "", ".hg/", name),
    };
    enough(joined)
}

/// Whether it is known which folder `.hg` is.
pub(crate) fn was_found(root: &Root) -> bool {
    match &root.named {
        Some(named) => named.hg.get().is_some(),
        None => false,
    }
}

/// Has what follows be done from within `.hg`, or by its name again.
pub(crate) fn set_locked(root: &Root, locked: bool) {
    root.locked.set(locked);
}

fn set_asked(root: &Root) {
    if let Some(named) = &root.named {
        named.asked.set(true);
    }
}

/// Whether the process stands in `.hg`.
pub(crate) fn is_within(root: &Root) -> bool {
    match &root.named {
        Some(named) => root.locked.get() && named.within.get(),
        None => false,
    }
}

/// The path of the root.
pub(crate) fn root_path(root: &Root) -> &str {
    match &root.named {
        Some(_) if is_within(root) => "..",
        Some(named) => named.name.as_str(),
        None => ".",
    }
}

// Goes into `.hg`, unless the process stands there since it went last. The tree finds out that it was moved.
fn stand<R: Files + Env + AllocGlobal>(rt: &R, named: &Named) -> Result<(), Reason> {
    if named.within.get() {
        return Ok(());
    }
    let path = enough(joined(rt.alloc(), named.name.as_str(), "/.hg", ""))?;
    named.moved.set(true);
    env::set_current_dir(rt, path.as_str())?;
    if !is_found(rt, named)? {
        return Err(Reason::Words("another folder stands there"));
    }
    named.within.set(true);
    Ok(())
}

// Whether the current folder is the `.hg` that was found, or one of that root where none was found: then it was made since.
fn is_found<R: Files>(rt: &R, named: &Named) -> Result<bool, Error> {
    let here = spot_at(rt, ".")?;
    if let Some(hg) = named.hg.get() {
        return Ok(here == hg);
    }
    let is_of_root = spot_at(rt, "..")? == named.spot;
    if is_of_root {
        named.hg.set(Some(here));
    }
    Ok(is_of_root)
}

fn joined(alloc: Global, front: &str, middle: &str, name: &str) -> Result<String, AllocError> {
    let mut path = String::from_str(alloc, front)?;
    path.push_str(middle)?;
    path.push_str(name)?;
    Ok(path)
}
