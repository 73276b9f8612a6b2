//! Everything that stands in the working copy, directory by directory.

ghost use Rattle.std.specs.Prelude.{◌≡◌, ◌↔◌, false, ℕ, List, IsTrue, IfOk, OnOk, Some, option_map, codes};
ghost use Rattle.hg_base.specs.PathText.{child_of, is_path, joined, parent_of};
ghost use Rattle.hg_ignore.specs.Asked.{state_asked};
ghost use Rattle.hg_ignore.specs.Kept.{DirIgnored};
ghost use Rattle.hg_tree.specs.History.{History, Passes, now};
ghost use Rattle.hg_tree.specs.Still.{Untouched, hg_in};
ghost use Rattle.hg_tree.specs.Moment.{AreFit, AreNames, has_dir, is_among, is_dir, stat_at};
ghost use Rattle.hg_listing.specs.Cause.{HasListingCause};
ghost use Rattle.hg_flat.specs.Asked.{AsksFor, AsksNothing, IsAskedDir, IsDirAmong, IsDirFrom, IsDirIn};
ghost use Rattle.hg_flat.specs.Listing.{Gives, HoldsFor, IsUnknownAmong, IsUnknownFrom, IsUnknownIn, holds_repository, shows_dir};
ghost use Rattle.hg_flat.specs.Passed.{AreKnown, ListsFormed, ListsSince, WasKind, WasNoDir};
ghost use Rattle.hg_flat.specs.Serving.{IsDirAt, IsDirWithin, IsSpanOf, IsUnknownAt};

use crate::entries::Entries;
use crate::span::Span;
use crate::untracked::{add_untracked, is_ignored, leaves_out};
use hg_base::{Kind, Path, PathFault, PathRef, Stat};
use hg_ignore::Matcher;
use hg_listing::{Row, Wanted};
use hg_tree::{Name, Tree, TreeFault};
use std::alloc::Global;

fn is_dir_stat(found: Option<Stat>) -> bool
    ensures { result ≡ shows_dir found }
{
    match found {
        None => false,
        Some(stat) => stat.kind == Kind::Dir,
    }
}

fn kind_of_stat(found: Option<Stat>) -> Option<Kind>
    ensures { result ≡ option_map (λ stat. stat.kind) found }
{
    match found {
        None => None,
        Some(stat) => Some(stat.kind),
    }
}

fn has_name(names: &[Name], wanted: &str) -> bool
    ensures { result ≡ is_among wanted.now names.now }
{
    names.iter().any(|name| name.as_str() == wanted)
}

// A directory `.hg` makes its directory a repository of its own.
fn holds_hg<T: Tree>(alloc: Global, tree: &mut T, dir: PathRef<'_>) -> Result<bool, TreeFault>
    requires { IsTrue (is_path (joined (Some dir.text.now) (codes ".hg"))) }
    ensures passes { Passes (T.history tree.old) (T.history tree.new) }
    ensures found { IfOk
        result
        (HoldsFor (Untouched (T.history tree.new) (T.history tree.old).last) (now (T.history tree.old)) (Some dir.entry.text.now)) }
    ensures apart { IsTrue (T.history tree.old).told
        → IfOk
        result
        (λ holds. holds ≡ false → WasNoDir (T.history tree.new) (T.history tree.old).last (hg_in dir.entry.text.now)) }
    ensures asked { IsTrue (T.history tree.old).told → AsksNothing (T.history tree.old) (T.history tree.new) }
    ensures cause { HasListingCause (T.faults tree.old) (T.faults tree.new) result }
{
    let path = Path::within(alloc, Some(dir), ".hg")?;
    let found = tree.stat(path.as_ref())?;
    Ok(is_dir_stat(found))
}

fn is_nested<T: Tree>(
    alloc: Global,
    tree: &mut T,
    dir: Option<PathRef<'_>>,
    names: &[Name],
) -> Result<bool, TreeFault>
    requires { AreFit (option_map (λ d. d.text.now) dir) names.now }
    ensures passes { Passes (T.history tree.old) (T.history tree.new) }
    ensures found { AreNames (now (T.history tree.old)) (option_map (λ d. d.text.now) dir.entry) names.now
        → IfOk
        result
        (HoldsFor
        (Untouched (T.history tree.new) (T.history tree.old).last)
        (now (T.history tree.old))
        (option_map (λ d. d.text.now) dir.entry)) }
    ensures apart { AreNames (now (T.history tree.old)) (option_map (λ d. d.text.now) dir.entry) names.now
        → IsTrue (T.history tree.old).told
        → IfOk
        result
        (λ holds. holds ≡ false
        → (path : List ℕ)
        → option_map (λ d. d.text.now) dir.entry ≡ Some path
        → WasNoDir (T.history tree.new) (T.history tree.old).last (hg_in path)) }
    ensures asked { IsTrue (T.history tree.old).told → AsksNothing (T.history tree.old) (T.history tree.new) }
    ensures cause { HasListingCause (T.faults tree.old) (T.faults tree.new) result }
{
    let Some(dir) = dir else {
        return Ok(false);
    };
    if !has_name(names, ".hg") {
        return Ok(false);
    }
    holds_hg(alloc, tree, dir)
}

// The same of a directory whose names aren't known. Where `.hg` would make no path in it none can be there, and a look at the directory stands for one there.
fn may_hold_hg<T: Tree>(alloc: Global, tree: &mut T, dir: PathRef<'_>) -> Result<bool, TreeFault>
    ensures passes { Passes (T.history tree.old) (T.history tree.new) }
    ensures found { IfOk
        result
        (HoldsFor (Untouched (T.history tree.new) (T.history tree.old).last) (now (T.history tree.old)) (Some dir.entry.text.now)) }
    ensures apart { IsTrue (T.history tree.old).told
        → IfOk
        result
        (λ holds. holds ≡ false → WasNoDir (T.history tree.new) (T.history tree.old).last (hg_in dir.entry.text.now)) }
    ensures asked { IsTrue (T.history tree.old).told → AsksNothing (T.history tree.old) (T.history tree.new) }
    ensures cause { HasListingCause (T.faults tree.old) (T.faults tree.new) result }
{
    match Path::join(alloc, Some(dir), ".hg") {
        Ok(path) => {
            let found = tree.stat(path.as_ref())?;
            Ok(is_dir_stat(found))
        },
        Err(fault) => match fault {
            PathFault::OutOfMemory => Err(TreeFault::OutOfMemory),
            _ => {
                let _ = tree.stat(dir)?;
                Ok(false)
            },
        },
    }
}

// The kind of what stands at a path, where anything does. Where a directory was seen before, one is taken to stand there without a look.
fn kind_at<T: Tree, K: Entries>(
    tree: &mut T,
    entries: &K,
    path: PathRef<'_>,
    next: &mut usize,
) -> Result<Option<Kind>, TreeFault>
    ensures passes { Passes (T.history tree.old) (T.history tree.new) }
    ensures was { IfOk
        result
        (λ kind. (start : ℕ)
        → AreKnown (K.known entries.now) (T.history tree.old) start
        → IsTrue (T.history tree.old).told
        → WasKind (T.history tree.new) start path.entry.text.now kind) }
    ensures asked { IsTrue (T.history tree.old).told → AsksNothing (T.history tree.old) (T.history tree.new) }
    ensures cause { HasListingCause (T.faults tree.old) (T.faults tree.new) result }
{
    if entries.was_entered(path.as_str(), next) {
        return Ok(Some(Kind::Dir));
    }
    let found = tree.stat(path)?;
    Ok(kind_of_stat(found))
}

// What stands at a path or below it. A path isn't asked at which a directory was seen, and what stands below it is listed.
#[cycle(listing)]
fn look<T: Tree, K: Entries>(
    alloc: Global,
    tree: &mut T,
    entries: &K,
    path: PathRef<'_>,
    matcher: &mut Matcher<'_>,
    above: bool,
    wanted: Wanted,
    next: &mut usize,
    rows: &mut Vec<Row>,
) -> Result<(), TreeFault>
    requires { IsTrue above ↔ DirIgnored (state_asked matcher.now) (parent_of path.text.now) }
    ensures passes { Passes (T.history tree.old) (T.history tree.new) }
    ensures listed { OnOk
        result
        (ListsFormed
        (K.kept entries.now)
        (K.known entries.now)
        (Gives wanted (state_asked matcher.old))
        (T.history tree.old)
        (T.history tree.new)
        (IsUnknownFrom (K.kept entries.now) (now (T.history tree.old)) path.entry.text.now)
        rows.old.items
        rows.new.items) }
    ensures asked { IsTrue (T.history tree.old).told
        → (since : History)
        → Passes since (T.history tree.old)
        → AreKnown (K.known entries.now) (T.history tree.old) since.last
        → AsksFor (IsDirFrom (IsAskedDir (K.known entries.now) wanted (state_asked matcher.old)) since (T.history tree.new) path.entry.text.now) (T.history tree.old) (T.history tree.new) }
    ensures same { state_asked matcher.new ≡ state_asked matcher.old }
    ensures cause { HasListingCause (T.faults tree.old) (T.faults tree.new) result }
{
    let Some(kind) = kind_at(tree, entries, path, next)? else {
        return Ok(());
    };
    match kind {
        Kind::File | Kind::Link => {
            add_untracked(alloc, entries, path, matcher, above, wanted, next, rows)
        },
        Kind::Dir => {
            let ignored = is_ignored(matcher, above, path);
            if leaves_out(ignored, wanted) {
                return Ok(());
            }
            go_in(
                alloc, tree, entries, path, matcher, ignored, wanted, next, rows,
            )
        },
        Kind::Other => Ok(()),
    }
}

// What stands in a directory below the root: at its nodes or below them, where they serve as its names, and else by a listing.
#[cycle(listing)]
fn go_in<T: Tree, K: Entries>(
    alloc: Global,
    tree: &mut T,
    entries: &K,
    dir: PathRef<'_>,
    matcher: &mut Matcher<'_>,
    ignored: bool,
    wanted: Wanted,
    next: &mut usize,
    rows: &mut Vec<Row>,
) -> Result<(), TreeFault>
    requires { IsTrue ignored ↔ DirIgnored (state_asked matcher.now) (Some dir.text.now) }
    ensures passes { Passes (T.history tree.old) (T.history tree.new) }
    ensures listed { OnOk
        result
        (ListsFormed
        (K.kept entries.now)
        (K.known entries.now)
        (Gives wanted (state_asked matcher.old))
        (T.history tree.old)
        (T.history tree.new)
        (IsUnknownIn (K.kept entries.now) (now (T.history tree.old)) (Some dir.entry.text.now))
        rows.old.items
        rows.new.items) }
    ensures asked { IsTrue (T.history tree.old).told
        → (since : History)
        → Passes since (T.history tree.old)
        → AreKnown (K.known entries.now) (T.history tree.old) since.last
        → AsksFor
        (IsDirWithin
        (K.known entries.now)
        (IsAskedDir (K.known entries.now) wanted (state_asked matcher.old))
        since
        (T.history tree.new)
        dir.entry.text.now)
        (T.history tree.old)
        (T.history tree.new) }
    ensures same { state_asked matcher.new ≡ state_asked matcher.old }
    ensures cause { HasListingCause (T.faults tree.old) (T.faults tree.new) result }
{
    let Some(span) = entries.served(dir.text, next) else {
        return visit(
            alloc,
            tree,
            entries,
            Some(dir),
            matcher,
            ignored,
            wanted,
            next,
            rows,
        );
    };
    if may_hold_hg(alloc, tree, dir)? {
        return Ok(());
    }
    look_nodes(
        alloc, tree, entries, dir, span, matcher, ignored, wanted, next, rows,
    )
}

// The name of a path in the directory, where it stands right in it.
fn name_in<'a>(dir: PathRef<'_>, path: PathRef<'a>) -> Option<&'a str>
    ensures { option_map (λ name. name.now) result ≡ child_of (Some dir.entry.text.now) path.entry.text.now }
{
    let Some(parent) = path.parent() else {
        return None;
    };
    if parent.text != dir.text {
        return None;
    }
    Some(path.base())
}

// What stands at the nodes that serve as the names of a directory, or below them. A node that was passed isn't asked again; at each other it is looked anew.
#[cycle(listing)]
fn look_nodes<T: Tree, K: Entries>(
    alloc: Global,
    tree: &mut T,
    entries: &K,
    dir: PathRef<'_>,
    span: Span,
    matcher: &mut Matcher<'_>,
    ignored: bool,
    wanted: Wanted,
    next: &mut usize,
    rows: &mut Vec<Row>,
) -> Result<(), TreeFault>
    requires span { IsSpanOf (K.known entries.now).nodes dir.text.now span }
    requires above { IsTrue ignored ↔ DirIgnored (state_asked matcher.now) (Some dir.text.now) }
    ensures passes { Passes (T.history tree.old) (T.history tree.new) }
    ensures listed { OnOk
        result
        (ListsFormed
        (K.kept entries.now)
        (K.known entries.now)
        (Gives wanted (state_asked matcher.old))
        (T.history tree.old)
        (T.history tree.new)
        (IsUnknownAt (K.kept entries.now) (now (T.history tree.old)) dir.entry.text.now (K.known entries.now).nodes)
        rows.old.items
        rows.new.items) }
    ensures asked { IsTrue (T.history tree.old).told
        → (since : History)
        → Passes since (T.history tree.old)
        → AreKnown (K.known entries.now) (T.history tree.old) since.last
        → AsksFor
        (IsDirAt
        (IsAskedDir (K.known entries.now) wanted (state_asked matcher.old))
        since
        (T.history tree.new)
        dir.entry.text.now
        (K.known entries.now).nodes)
        (T.history tree.old)
        (T.history tree.new) }
    ensures same { state_asked matcher.new ≡ state_asked matcher.old }
    ensures cause { HasListingCause (T.faults tree.old) (T.faults tree.new) result }
{
    for at in span.from..span.upto {
        let Some(path) = entries.node_at(at) else {
            return Ok(());
        };
        let Some(name) = name_in(dir, path) else {
            continue;
        };
        *next = at;
        if entries.was_passed(Some(dir), name, next) {
            continue;
        }
        look(
            alloc, tree, entries, path, matcher, ignored, wanted, next, rows,
        )?;
    }
    Ok(())
}

// What stands at the names of a directory or below. A path that was passed isn't asked again, nor is a text made of it, and nothing stands below it.
#[cycle(listing)]
fn look_each<T: Tree, K: Entries>(
    alloc: Global,
    tree: &mut T,
    entries: &K,
    dir: Option<PathRef<'_>>,
    names: &[Name],
    matcher: &mut Matcher<'_>,
    ignored: bool,
    wanted: Wanted,
    next: &mut usize,
    rows: &mut Vec<Row>,
) -> Result<(), TreeFault>
    requires fit { AreFit (option_map (λ d. d.text.now) dir) names.now }
    requires above { IsTrue ignored ↔ DirIgnored (state_asked matcher.now) (option_map (λ d. d.text.now) dir) }
    ensures passes { Passes (T.history tree.old) (T.history tree.new) }
    ensures listed { OnOk
        result
        (ListsFormed
        (K.kept entries.now)
        (K.known entries.now)
        (Gives wanted (state_asked matcher.old))
        (T.history tree.old)
        (T.history tree.new)
        (IsUnknownAmong (K.kept entries.now) (now (T.history tree.old)) (option_map (λ d. d.text.now) dir.entry) names.now)
        rows.old.items
        rows.new.items) }
    ensures asked { IsTrue (T.history tree.old).told
        → (since : History)
        → Passes since (T.history tree.old)
        → AreKnown (K.known entries.now) (T.history tree.old) since.last
        → AsksFor
        (IsDirAmong (IsAskedDir (K.known entries.now) wanted (state_asked matcher.old)) since (T.history tree.new) (option_map (λ d. d.text.now) dir.entry) names.now)
        (T.history tree.old)
        (T.history tree.new) }
    ensures same { state_asked matcher.new ≡ state_asked matcher.old }
    ensures cause { HasListingCause (T.faults tree.old) (T.faults tree.new) result }
{
    for name in names {
        let name = name.as_str();
        if entries.was_passed(dir, name, next) {
            continue;
        }
        let path = Path::within(alloc, dir, name)?;
        look(
            alloc,
            tree,
            entries,
            path.as_ref(),
            matcher,
            ignored,
            wanted,
            next,
            rows,
        )?;
    }
    Ok(())
}

/// Puts a row for each file and link without an entry that stands in the directory at any depth, where its letter is wanted; no directory is
/// the root. A directory below the root that holds a directory `.hg` is a repository of its own, and nothing in it is listed; nor is a directory
/// gone into that is ignored, where I isn't wanted.
///
/// `ignored` says whether the directory is ignored, `next` where the search for an entry begins; the rows are put behind those so far, in no stated
/// order. A path that was passed is left out without a look: at some moment no directory stood there, so nothing stands below it that nobody touched
/// since then. A path at which a directory was seen is listed without a look.
#[cycle(listing)]
pub fn visit<T: Tree, K: Entries>(
    alloc: Global,
    tree: &mut T,
    entries: &K,
    dir: Option<PathRef<'_>>,
    matcher: &mut Matcher<'_>,
    ignored: bool,
    wanted: Wanted,
    next: &mut usize,
    rows: &mut Vec<Row>,
) -> Result<(), TreeFault>
    requires { IsTrue ignored ↔ DirIgnored (state_asked matcher.now) (option_map (λ d. d.text.now) dir) }
    ensures passes { Passes (T.history tree.old) (T.history tree.new) }
    ensures listed { OnOk
        result
        (ListsSince
        (K.kept entries.now)
        (K.known entries.now)
        (Gives wanted (state_asked matcher.old))
        (T.history tree.old)
        (T.history tree.new)
        (IsUnknownIn (K.kept entries.now) (now (T.history tree.old)) (option_map (λ d. d.text.now) dir.entry))
        rows.old.items
        rows.new.items) }
    ensures asked { IsTrue (T.history tree.old).told
        → (since : History)
        → Passes since (T.history tree.old)
        → AreKnown (K.known entries.now) (T.history tree.old) since.last
        → AsksFor
        (IsDirIn (IsAskedDir (K.known entries.now) wanted (state_asked matcher.old)) since (T.history tree.new) (option_map (λ d. d.text.now) dir.entry))
        (T.history tree.old)
        (T.history tree.new) }
    ensures same { state_asked matcher.new ≡ state_asked matcher.old }
    ensures cause { HasListingCause (T.faults tree.old) (T.faults tree.new) result }
{
    let Some(names) = tree.list(alloc, dir)? else {
        return Ok(());
    };
    if is_nested(alloc, tree, dir, &names)? {
        return Ok(());
    }
    look_each(
        alloc, tree, entries, dir, &names, matcher, ignored, wanted, next, rows,
    )
}
