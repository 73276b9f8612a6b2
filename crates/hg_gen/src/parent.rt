//! The manifest of the parent.

ghost use Rattle.std.specs.Prelude.{◌≡◌, ◌<◌, ◌≤◌, ◌+◌, ◌*◌, ◌++◌, ◌∷◌, [], IfOk, OnOk, Some, map};
ghost use Rattle.std.specs.BTreeMap.{IsOrdered, btree_map_len, get};
ghost use Rattle.std.specs.List.{All};
ghost use Rattle.std.specs.String.{string_cmp};
ghost use Rattle.hg_gen.specs.Manifest.{AreNamed, IsManifest, lines_of, names_in, pair};

use crate::lot::is_in_parent;
use crate::names::{WIDTH, contents_of, path_of};
use hg_base::OutOfMemory;
use std::alloc::Global;
use std::collections::BTreeMap;

// Names the contents of a file, where the parent has it, behind those of lower numbers.
fn name_contents(
    alloc: Global,
    rows: &mut BTreeMap<String, String>,
    file: u32,
) -> Result<(), OutOfMemory>
    requires { file < 32000 }
    ensures named { OnOk result (AreNamed file (names_in rows.old) → AreNamed (file + 1) (names_in rows.new)) }
    ensures few { OnOk result (btree_map_len rows.new ≤ btree_map_len rows.old + 1) }
{
    if !is_in_parent(file) {
        return Ok(());
    }
    let path = path_of(alloc, file)?;
    let contents = contents_of(alloc, file)?;
    let path = String::from_str(alloc, path.as_str())?;
    rows.insert(path, contents)?;
    Ok(())
}

// The names of the contents of the parent's files, by their paths.
fn rows(alloc: Global, dirs: u32) -> Result<BTreeMap<String, String>, OutOfMemory>
    requires { dirs ≤ 2000 }
    ensures named { IfOk result (λ rows. AreNamed (16 * dirs) (names_in rows)) }
    ensures few { IfOk result (λ rows. btree_map_len rows ≤ 16 * dirs) }
{
    let mut rows = BTreeMap::new(alloc);
    for file in 0..WIDTH * dirs {
        name_contents(alloc, &mut rows, file)?;
    }
    Ok(rows)
}

// Puts the line of a file behind those of a manifest.
fn put_line(text: &mut Vec<u8>, path: &str, contents: &str) -> Result<(), OutOfMemory>
    ensures { OnOk result (text.new.items ≡ text.old.items ++ (path.now ++ 0 ∷ (contents.now ++ 10 ∷ []))) }
{
    text.extend_from_slice(path.as_bytes())?;
    text.push(0)?;
    text.extend_from_slice(contents.as_bytes())?;
    text.push(b'\n')?;
    Ok(())
}

// The lines of names, ascending by their paths.
fn lines(alloc: Global, rows: &BTreeMap<String, String>) -> Result<Vec<u8>, OutOfMemory>
    ensures lines { IfOk result (λ text. text.items ≡ lines_of (map pair rows.now.entries)) }
    ensures ascending { IfOk result (λ text. IsOrdered string_cmp rows.now) }
    ensures all { IfOk result (λ text. All (λ e. get string_cmp rows.now e.0 ≡ Some e.1) rows.now.entries) }
{
    let mut text = Vec::new(alloc);
    for (path, contents) in rows {
        put_line(&mut text, path.as_str(), contents.as_str())?;
    }
    Ok(text)
}

/// The manifest of the parent: a line for each of its files, ascending by their paths.
pub(crate) fn manifest(alloc: Global, dirs: u32) -> Result<Vec<u8>, OutOfMemory>
    requires { dirs ≤ 2000 }
    ensures { IfOk result (λ text. IsManifest dirs text.items) }
{
    let rows = rows(alloc, dirs)?;
    let text = lines(alloc, &rows)?;
    Ok(text)
}
