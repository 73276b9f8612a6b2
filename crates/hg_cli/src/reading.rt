//! The paths of which a working copy was asked the bytes.

ghost use Rattle.std.specs.Prelude.{◌≡◌, List, ◌∷◌, IfOk, OnOk};
ghost use Rattle.hg_cli.specs.Reading.{count_read};
ghost use Rattle.hg_cli.specs.Reads.{AreRead};
ghost use Rattle.hg_tree.specs.declared.asked.Asked.{Asked};
ghost use Rattle.hg_tree.specs.declared.asked.Asked.TheVariants as an_ask;

use hg_base::OutOfMemory;
use hg_tree::Asked;
use std::alloc::Global;
use std::collections::BTreeSet;

// Puts a path to those so far.
fn put(alloc: Global, paths: &mut BTreeSet<String>, path: &str) -> Result<(), OutOfMemory>
    ensures { OnOk result ((asked : List Asked) → AreRead asked paths.old → AreRead (an_ask.Read path.now ∷ asked) paths.new) }
{
    paths.insert(String::from_str(alloc, path)?)?;
    Ok(())
}

// Puts the path of which the bytes were asked, where it was for bytes.
fn note(alloc: Global, paths: &mut BTreeSet<String>, ask: &Asked) -> Result<(), OutOfMemory>
    ensures { OnOk result ((asked : List Asked) → AreRead asked paths.old → AreRead (ask.now ∷ asked) paths.new) }
{
    match ask {
        Asked::Read { path } => put(alloc, paths, path.as_str()),
        Asked::List { .. } => Ok(()),
    }
}

/// Of how many paths the bytes were asked for.
pub(crate) fn reads(alloc: Global, asked: &[Asked]) -> Result<u64, OutOfMemory>
    ensures { IfOk result (λ n. n ≡ count_read asked.now) }
{
    let mut paths = BTreeSet::new(alloc);
    let mut at = asked.len();
    while at > 0 {
        at -= 1;
        note(alloc, &mut paths, &asked[at])?;
    }
    Ok(paths.len() as u64)
}
