//! The row of a path without an entry.

ghost use Rattle.std.specs.Prelude.{◌≡◌, ◌↔◌, ◌&&◌, not, OnOk, IfErr, IsTrue};
ghost use Rattle.hg_base.specs.PathText.{parent_of};
ghost use Rattle.hg_ignore.specs.Asked.{state_asked};
ghost use Rattle.hg_ignore.specs.Kept.{DirIgnored};
ghost use Rattle.hg_ignore.specs.State.{Ignored};
ghost use Rattle.hg_tree.specs.declared.fault.TreeFault.TheVariants as a_tree_fault;
ghost use Rattle.hg_flat.specs.Listing.{GivesLetter, PutsUntracked};

use crate::entries::Entries;
use crate::letter::wants;
use hg_base::{Path, PathRef};
use hg_compare::Letter;
use hg_ignore::Matcher;
use hg_listing::{Row, Wanted};
use hg_tree::TreeFault;
use std::alloc::Global;

/// Whether a path is ignored: all is in a directory that is, and elsewhere what a line matches.
pub(crate) fn is_ignored(matcher: &mut Matcher<'_>, above: bool, path: PathRef<'_>) -> bool
    requires { IsTrue above ↔ DirIgnored (state_asked matcher.now) (parent_of path.text.now) }
    ensures ignored { IsTrue result ↔ Ignored (state_asked matcher.old) path.entry.text.now }
    ensures same { state_asked matcher.new ≡ state_asked matcher.old }
{
    if above {
        return true;
    }
    matcher.matches(path)
}

/// Whether a listing leaves a directory out.
pub(crate) fn leaves_out(ignored: bool, wanted: Wanted) -> bool
    ensures { result ≡ (ignored && not wanted.i) }
{
    ignored && !wanted.i
}

// The letter of a path without an entry.
fn untracked_letter(matcher: &mut Matcher<'_>, above: bool, path: PathRef<'_>) -> Letter
    requires { IsTrue above ↔ DirIgnored (state_asked matcher.now) (parent_of path.text.now) }
    ensures letter { GivesLetter (state_asked matcher.old) path.entry.text.now result }
    ensures same { state_asked matcher.new ≡ state_asked matcher.old }
{
    if is_ignored(matcher, above, path) {
        return Letter::I;
    }
    Letter::Unknown
}

/// Puts the row of a path, where its letter is wanted, unless it has an entry, for which the search begins at `next`. Whether the directory above
/// the path is ignored is known.
pub(crate) fn add_untracked<K: Entries>(
    alloc: Global,
    entries: &K,
    path: PathRef<'_>,
    matcher: &mut Matcher<'_>,
    above: bool,
    wanted: Wanted,
    next: &mut usize,
    rows: &mut Vec<Row>,
) -> Result<(), TreeFault>
    requires { IsTrue above ↔ DirIgnored (state_asked matcher.now) (parent_of path.text.now) }
    ensures row { OnOk
        result
        (PutsUntracked
        (K.kept entries.now path.entry.text.now)
        wanted
        (state_asked matcher.old)
        path.entry.text.now
        rows.old.items
        rows.new.items) }
    ensures same { state_asked matcher.new ≡ state_asked matcher.old }
    ensures cause { IfErr result (λ e. e ≡ a_tree_fault.OutOfMemory) }
{
    if entries.has(path.as_str(), next) {
        return Ok(());
    }
    let letter = untracked_letter(matcher, above, path);
    if !wants(wanted, letter) {
        return Ok(());
    }
    let path = Path::of(alloc, path)?;
    rows.push(Row {
        letter,
        path,
        source: None,
    })?;
    Ok(())
}
