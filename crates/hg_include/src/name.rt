//! Which file a line names.

ghost use Rattle.std.specs.Prelude.{◌≡◌, IfOk, Some, option_map, List, ℕ, Option};
ghost use Rattle.hg_base.specs.PathText.{is_path};
ghost use Rattle.hg_include.specs.Name as names;

use hg_base::{OutOfMemory, Path, PathFault, PathRef};
use std::alloc::Global;

/// A file and the directory of which it speaks, if not of all.
#[derive(Debug, Drop)]
pub struct Target {
    pub file: Path,
    pub base: Option<Path>,
}

/// A copy of a path that may be none.
pub fn copied(alloc: Global, path: &Option<Path>) -> Result<Option<Path>, OutOfMemory>
    ensures { IfOk result (λ p. p ≡ path.now) }
{
    match path {
        None => Ok(None),
        Some(path) => {
            let path = Path::of(alloc, path.as_ref())?;
            Ok(Some(path))
        }
    }
}

/// What an `include:` names.
pub fn included(
    alloc: Global,
    base: &Option<Path>,
    name: &str,
) -> Result<Option<Target>, OutOfMemory>
    ensures { IfOk result (λ target. target ≡ names.included base.now name.now) }
{
    match PathRef::read(name) {
        Err(_) => Ok(None),
        Ok(name) => {
            let file = Path::of(alloc, name)?;
            let base = copied(alloc, base)?;
            Ok(Some(Target { file, base }))
        }
    }
}

/// A file that speaks of the paths below its own directory.
fn based(alloc: Global, file: Path) -> Result<Target, OutOfMemory>
    ensures { IfOk result (λ target. target ≡ names.based file) }
{
    let base = match file.as_ref().parent() {
        None => None,
        Some(dir) => Some(Path::of(alloc, dir)?),
    };
    Ok(Target { file, base })
}

/// What a `subinclude:` names.
pub fn subincluded(
    alloc: Global,
    file: PathRef<'_>,
    name: &str,
) -> Result<Option<Target>, OutOfMemory>
    ensures { IfOk result (λ target. target ≡ names.subincluded file.entry.text.now name.now) }
{
    match PathRef::read(name) {
        Err(_) => Ok(None),
        Ok(_) => match Path::join(alloc, file.parent(), name) {
            Err(fault) => match fault {
                PathFault::OutOfMemory => Err(OutOfMemory),
                _ => Ok(None),
            },
            Ok(file) => {
                let target = based(alloc, file)?;
                Ok(Some(target))
            }
        },
    }
}
