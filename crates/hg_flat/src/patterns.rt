//! The ignore patterns, where a status needs them.

ghost use Rattle.std.specs.Prelude.{◌≡◌, ◌||◌, ◌++◌, false, IsTrue, IfErr, IfOk, OnOk};
ghost use Rattle.hg_tree.specs.History.{IsOurs, Passes, now};
ghost use Rattle.hg_flat.specs.Asked.{pattern_reads};
ghost use Rattle.hg_listing.specs.Cause.{HasStatusCause};
ghost use Rattle.hg_flat.specs.Course.{AsksPatterns, IsKeptState, LacksPatterns, warned_of};
ghost use Rattle.hg_flat.specs.Patterns.{CountsOversize, needs_patterns};

use hg_ignore::{Ignore, Regexps, Warnings};
use hg_listing::{StatusFault, Wanted};
use hg_tree::Tree;
use std::alloc::Global;

/// Whether letters are asked for between which patterns decide: `?` or I.
pub fn needs_patterns(wanted: Wanted) -> bool
    ensures { result ≡ needs_patterns wanted }
{
    wanted.u || wanted.i
}

/// Reads the patterns where they are needed.
pub fn read_patterns<T: Tree, G: Regexps>(
    alloc: Global,
    tree: &mut T,
    regexps: &mut G,
    wanted: Wanted,
) -> Result<Option<Ignore>, StatusFault>
    ensures passes { Passes (T.history tree.old) (T.history tree.new) }
    ensures kept { IfOk result (IsKeptState wanted (T.history tree.old) (T.history tree.new)) }
    ensures needed { IfErr result (λ fault. IsTrue (needs_patterns wanted)) }
    ensures met { IfErr result (LacksPatterns (T.history tree.old) (T.history tree.new)) }
    ensures asked { IsTrue (T.history tree.old).told → AsksPatterns wanted (T.history tree.old) (T.history tree.new) }
    ensures asked_own { IsOurs (T.history tree.old) (T.history tree.new)
        → OnOk result ((T.history tree.new).asked ≡ (T.history tree.old).asked ++ pattern_reads wanted (now (T.history tree.old))) }
    ensures uncompiled { needs_patterns wanted ≡ false → regexps.new ≡ regexps.old }
    ensures cause { HasStatusCause (T.faults tree.old) (T.faults tree.new) result }
    ensures oversize { CountsOversize (G.oversize regexps.old) (G.oversize regexps.new) result }
{
    if !needs_patterns(wanted) {
        return Ok(None);
    }
    let ignore = Ignore::read(alloc, tree, regexps)?;
    Ok(Some(ignore))
}

/// What the reader of a status is warned of.
pub fn warnings_of(alloc: Global, ignore: Option<Ignore>) -> Warnings
    ensures { result ≡ warned_of ignore }
{
    match ignore {
        None => Warnings::new(alloc),
        Some(ignore) => ignore.into_warnings(),
    }
}
