// The plain store with two parents, which are drawn.
use crate::draws::Draws;
use crate::places::{PATHS, TEXTS};
use crate::things::What;
use hg_base::{Id20, PathRef};
use hg_manifest::{FileRow, Manifest, ManifestFault};
use hg_shelf::{MemShelf, Shelf};
use std::alloc::Global;
use std::string::String;
use std::test::Fail;

pub(crate) const FIRST: Id20 = Id20([0x11; 20]);

pub(crate) const SECOND: Id20 = Id20([0x22; 20]);

pub(crate) const NULL: Id20 = Id20([0; 20]);

/// The store, with the manifests of both parents and that of none.
#[derive(Drop)]
pub(crate) struct Parents {
    pub shelf: MemShelf,
    pub first: Manifest,
    pub second: Manifest,
    pub none: Manifest,
}

fn load<S: Shelf>(alloc: Global, shelf: &mut S, id: &Id20) -> Result<Manifest, ManifestFault> {
    Manifest::load(alloc, shelf, id)
}

// A manifest with most of the paths, each with some text and flag. The identifier of a text is its number from 1 on.
fn some_manifest(alloc: Global, draws: &mut Draws) -> Result<String, Fail> {
    let mut text = String::new(alloc);
    for path in PATHS {
        if !draws.once_in(5) {
            let number = draws.below(TEXTS.len());
            let flag = draws.one_of(&["", "", "", "x", "l"]);
            write!(text, "{path}\0{number:040}{flag}\n")?;
        }
    }
    Ok(text)
}

fn place_texts(alloc: Global, shelf: &mut MemShelf) -> Result<(), Fail> {
    for (number, text) in TEXTS.iter().enumerate() {
        let name = format!(in alloc; "plain/f-{number:040}")?;
        shelf.place(name.as_str(), text.as_bytes())?;
    }
    Ok(())
}

pub(crate) fn some_parents(alloc: Global, draws: &mut Draws) -> Result<Parents, Fail> {
    let mut shelf = MemShelf::new(alloc)?;
    place_texts(alloc, &mut shelf)?;
    shelf.place(
        "plain/m-1111111111111111111111111111111111111111",
        some_manifest(alloc, draws)?.as_bytes(),
    )?;
    shelf.place(
        "plain/m-2222222222222222222222222222222222222222",
        some_manifest(alloc, draws)?.as_bytes(),
    )?;
    Ok(Parents {
        first: load(alloc, &mut shelf, &FIRST)?,
        second: load(alloc, &mut shelf, &SECOND)?,
        none: load(alloc, &mut shelf, &NULL)?,
        shelf,
    })
}

// What a row of a manifest says, and its text.
fn said(row: FileRow) -> (What, &'static str) {
    let text = TEXTS.get(usize::from(row.id.0[19])).copied().unwrap_or("");
    if row.link {
        return (What::Link, text);
    }
    (What::File { exec: row.exec }, text)
}

impl Parents {
    /// What one of both has at a path.
    pub(crate) fn some_file(
        &self,
        draws: &mut Draws,
        path: &str,
    ) -> Result<Option<(What, &'static str)>, Fail> {
        let manifest = if draws.once_in(4) {
            &self.second
        } else {
            &self.first
        };
        match manifest.get(PathRef::read(path)?) {
            None => Ok(None),
            Some(row) => Ok(Some(said(row))),
        }
    }
}
