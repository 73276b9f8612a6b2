//! The files below `.hg`: the record, and what the plain store keeps of the parent.

ghost use Rattle.std.specs.Prelude.{◌≡◌, ◌<◌, ◌≤◌, ◌+◌, ◌*◌, ◌++◌, [], codes, IfOk, OnOk};
ghost use Rattle.std.specs.String.{string_bytes};
ghost use Rattle.hg_alone.specs.Alone.{IsOwn, files_of};
ghost use Rattle.hg_gen.specs.Recorded.{AreContents, AreOnlyContents, ArePut, IsStored};

use crate::lot::is_in_parent;
use crate::names::{WIDTH, contents_of, text_of};
use crate::parent::manifest;
use crate::recording::record;
use hg_alone::AloneShelf;
use hg_append::Encoded;
use hg_base::OutOfMemory;
use hg_shelf::MemShelf;
use std::alloc::Global;

// The names of the docket, of its data file, and of the parent's manifest.
const DOCKET: &str = "dirstate";

const DATA: &str = "dirstate.0000000000000000";

const MANIFEST: &str = "plain/m-1111111111111111111111111111111111111111";

// The name of the contents of that name in the plain store.
fn name_of(alloc: Global, contents: &str) -> Result<String, OutOfMemory>
    ensures { IfOk result (λ name. string_bytes name ≡ codes "plain/f-" ++ contents.now) }
{
    Ok(format!(in alloc; "plain/f-{contents}")?)
}

// Puts the contents of a file, where the parent has it, behind those of lower numbers.
fn put_contents(alloc: Global, shelf: &mut AloneShelf, file: u32) -> Result<(), OutOfMemory>
    requires { file < 32000 }
    ensures files { OnOk result (AreContents file (files_of shelf.old.shelf) → AreContents (file + 1) (files_of shelf.new.shelf)) }
    ensures only { OnOk result (AreOnlyContents file (files_of shelf.old.shelf) → AreOnlyContents (file + 1) (files_of shelf.new.shelf)) }
    ensures refusals { OnOk result (shelf.new.shelf.refusals ≡ shelf.old.shelf.refusals) }
{
    if !is_in_parent(file) {
        return Ok(());
    }
    let contents = contents_of(alloc, file)?;
    let name = name_of(alloc, contents.as_str())?;
    let text = text_of(alloc, file)?;
    shelf.put(name.as_str(), text.as_bytes())
}

// Puts the contents of all files.
fn put_all(alloc: Global, dirs: u32) -> Result<AloneShelf, OutOfMemory>
    requires { dirs ≤ 2000 }
    ensures files { IfOk result (λ shelf. AreContents (16 * dirs) (files_of shelf.shelf)) }
    ensures only { IfOk result (λ shelf. AreOnlyContents (16 * dirs) (files_of shelf.shelf)) }
    ensures refusals { IfOk result (λ shelf. shelf.shelf.refusals ≡ 0) }
{
    let mut shelf = AloneShelf::new(alloc)?;
    for file in 0..WIDTH * dirs {
        put_contents(alloc, &mut shelf, file)?;
    }
    Ok(shelf)
}

// Puts the manifest, the data file and the docket.
fn put_record(shelf: &mut AloneShelf, encoded: &Encoded, manifest: &[u8]) -> Result<(), OutOfMemory>
    ensures files { OnOk result (ArePut encoded.now manifest.now (files_of shelf.old.shelf) (files_of shelf.new.shelf)) }
    ensures refusals { OnOk result (shelf.new.shelf.refusals ≡ shelf.old.shelf.refusals) }
{
    shelf.put(MANIFEST, manifest)?;
    shelf.put(DATA, encoded.bytes.as_slice())?;
    shelf.put(DOCKET, encoded.docket.as_slice())
}

/// The files below `.hg` of the copy of so many directories.
pub(crate) fn stored(alloc: Global, dirs: u32) -> Result<MemShelf, OutOfMemory>
    requires { dirs ≤ 2000 }
    ensures files { IfOk result (λ shelf. IsStored dirs (files_of shelf)) }
    ensures own { IfOk result IsOwn }
    ensures refusals { IfOk result (λ shelf. shelf.refusals ≡ 0) }
{
    let encoded = record(alloc, dirs)?;
    let manifest = manifest(alloc, dirs)?;
    let mut shelf = put_all(alloc, dirs)?;
    put_record(&mut shelf, &encoded, manifest.as_slice())?;
    Ok(shelf.files())
}
