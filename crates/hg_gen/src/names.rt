//! The names of the copy and the texts of its files, by the number of a file.

ghost use Rattle.std.specs.Prelude.{◌≡◌, ◌<◌, IfOk};
ghost use Rattle.std.specs.String.{string_bytes};
ghost use Rattle.hg_gen.specs.Copy as copy;

use hg_base::{OutOfMemory, Path};
use std::alloc::Global;

/// How many files a directory may have.
pub(crate) const WIDTH: u32 = 16;

fn dir_text(alloc: Global, dir: u32) -> Result<String, OutOfMemory>
    ensures { IfOk result (λ text. string_bytes text ≡ copy.dir_of dir) }
{
    Ok(format!(in alloc; "d{dir}")?)
}

fn name_text(alloc: Global, name: u32) -> Result<String, OutOfMemory>
    ensures { IfOk result (λ text. string_bytes text ≡ copy.name_of name) }
{
    Ok(format!(in alloc; "f{name}")?)
}

/// The path of a file.
pub(crate) fn path_of(alloc: Global, file: u32) -> Result<Path, OutOfMemory>
    requires { file < 32000 }
    ensures { IfOk result (λ path. path ≡ copy.path_of file) }
{
    let dir = dir_text(alloc, file / WIDTH)?;
    let name = name_text(alloc, file % WIDTH)?;
    let dir = Path::within(alloc, None, dir.as_str())?;
    Path::within(alloc, Some(dir.as_ref()), name.as_str())
}

/// The text of a file: its number, in a line.
pub(crate) fn text_of(alloc: Global, file: u32) -> Result<String, OutOfMemory>
    ensures { IfOk result (λ text. string_bytes text ≡ copy.text_of file) }
{
    Ok(format!(in alloc; "{file}\n")?)
}

/// The name of the file's contents: its number from 1 on, in forty digits.
pub(crate) fn contents_of(alloc: Global, file: u32) -> Result<String, OutOfMemory>
    requires { file < 32000 }
    ensures { IfOk result (λ name. string_bytes name ≡ copy.contents_of file) }
{
    let number = file + 1;
    Ok(format!(in alloc; "{number:040}")?)
}
