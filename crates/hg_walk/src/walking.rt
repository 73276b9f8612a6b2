//! A status by the record itself, which reads no file whose entry vouches for it.

ghost use Rattle.std.specs.Prelude.{◌≡◌, false, true, ℕ, List, IsTrue, IfErr, IfOk, OnOk};
ghost use Rattle.hg_base.specs.Fault.{HasCause};
ghost use Rattle.hg_entry.specs.Table.{flat_of};
ghost use Rattle.hg_flat.specs.Asked.{AsksAll, AsksBehind, AsksNothing, IsListedDir, nothing_holds, pattern_reads};
ghost use Rattle.hg_flat.specs.First.{MetFirst};
ghost use Rattle.hg_flat.specs.Listing.{wants_bytes};
ghost use Rattle.hg_flat.specs.Met.{Met};
ghost use Rattle.hg_flat.specs.Needed.{AsksNeeded};
ghost use Rattle.hg_flat.specs.Parent.{IsAsked, IsServed, WasAsked};
ghost use Rattle.hg_flat.specs.Patterns.{CountsOversize, HadPatterns, Warns, ignored_at, is_of_parent, needs_patterns};
ghost use Rattle.hg_flat.specs.Stored.{AsksStore};
ghost use Rattle.hg_listing.specs.Cause.{HasShelfCause, HasStatusCause};
ghost use Rattle.hg_listing.specs.Full.{IsFull, IsFullFor};
ghost use Rattle.hg_mixed.specs.Held.{table};
ghost use Rattle.hg_shelf.specs.History as shelves;
ghost use Rattle.hg_shelf.specs.Images as images;
ghost use Rattle.hg_shelf.specs.Polite.{StaysPlain};
ghost use Rattle.hg_tree.specs.History as trees;
ghost use Rattle.hg_tree.specs.Honest.{IsHonest};
ghost use Rattle.hg_walk.specs.Notes.{AreEarned, applied};
ghost use Rattle.hg_walk.specs.Right.{AreRight};
ghost use Rattle.hg_walk.specs.Tracked.{IsBoundary};
ghost use Rattle.hg_walk.specs.Walking.{AreNeeded, AreNoted, AreNotedBy, IsLeftBy, IsRecorded, asked_unvouched, first_id, rows_in, walk_status};

use crate::tracked::{Tracked, tell_all};
use crate::walked::Walked;
use hg_base::{Failed, Time};
use hg_flat::{list_others, read_patterns, wants_bytes};
use hg_ignore::Regexps;
use hg_listing::{StatusFault, Wanted};
use hg_mixed::Mixed;
use hg_shelf::Shelf;
use hg_tree::Tree;
use std::alloc::Global;

// The clock, where bytes may decide letters; else nothing is noted, and the lowest time does.
fn boundary_of<T: Tree>(tree: &mut T, wanted: Wanted) -> Result<Time, Failed>
    ensures passes { trees.Passes (T.history tree.old) (T.history tree.new) }
    ensures boundary { IfOk result (IsBoundary (wants_bytes wanted) (T.history tree.new)) }
    ensures asked { IsTrue (T.history tree.old).told → AsksNothing (T.history tree.old) (T.history tree.new) }
    ensures cause { HasCause (T.faults tree.old) (T.faults tree.new) result (λ e. Unit {0}) }
{
    if !wants_bytes(wanted) {
        return Ok(Time {
            seconds: i64::MIN,
            nanos: 0,
        });
    }
    tree.now()
}

/// Lists each path with a wanted letter, as `hg_flat::plain_status` does, but that a path for which its entry vouches is C and isn't read. Of each path that
/// is compared and clean the time is noted, where the clock, which is asked first of all, lets it be recorded.
pub fn walk<T: Tree, S: Shelf, G: Regexps>(
    alloc: Global,
    mixed: &Mixed<'_>,
    tree: &mut T,
    shelf: &mut S,
    regexps: &mut G,
    wanted: Wanted,
) -> Result<Walked, StatusFault>
    ensures passes { trees.Passes (T.history tree.old) (T.history tree.new) }
    ensures passes_shelf { shelves.Passes (S.history shelf.old) (S.history shelf.new) }
    ensures kept { images.Goes (images.course (S.history shelf.old) (S.images shelf.old)) (images.course (S.history shelf.new) (S.images shelf.new)) }
    ensures held { S.held shelf.new ≡ S.held shelf.old }
    // Here a store is any whose bytes the files of the plain store have wherever they are there during the call: the files at its end where others keep what is
    // there, though absent files come. Where recorded times are right over the call by a store, a path that is left alone has exactly its rows by it.
    ensures still { (store : shelves.Files) → AreRight (rows_in (table mixed.now) store) (table mixed.now) (T.history tree.old) (T.history tree.new)
        → IfOk
        result
        (λ walked. IsFullFor
        (IsLeftBy store wanted (table mixed.now) (T.history tree.new) (T.history tree.old).last (S.history shelf.new) (S.history shelf.old).last)
        (flat_of (table mixed.now))
        (trees.now (T.history tree.old))
        (rows_in (table mixed.now) store)
        (ignored_at (trees.now (T.history tree.old)))
        wanted
        walked.rows) }
    // Where nobody else steps in the working copy, the rows are the full listing.
    ensures full { (store : shelves.Files) → AreRight (rows_in (table mixed.now) store) (table mixed.now) (T.history tree.old) (T.history tree.new)
        → trees.IsOurs (T.history tree.old) (T.history tree.new)
        → StaysPlain store (S.history shelf.new) (S.history shelf.old).last
        → IfOk
        result
        (λ walked. IsFull
        (flat_of (table mixed.now))
        (trees.now (T.history tree.old))
        (rows_in (table mixed.now) store)
        (ignored_at (trees.now (T.history tree.old)))
        wanted
        walked.rows) }
    ensures warns { IfOk result (λ walked. Warns wanted (T.history tree.old) (T.history tree.new) walked.warnings) }
    // Without a fault all that a comparison asked for was there.
    ensures served { OnOk
        result
        ((store : shelves.Files) (path : List ℕ) → IsLeftBy store wanted (table mixed.now) (T.history tree.new) (T.history tree.old).last (S.history shelf.new) (S.history shelf.old).last path
        → IsAsked (asked_unvouched wanted (table mixed.now)) (trees.now (T.history tree.old)) path
        → IsServed store (first_id (table mixed.now)) (trees.now (T.history tree.old)) path) }
    ensures met { IfErr
        result
        (Met (walk_status wanted (table mixed.now) (T.history tree.old) (T.history tree.new) (S.history shelf.old) (S.history shelf.new))) }
    // Of several contents that are absent those of the first path are answered: what each path before it asks for was there.
    ensures first { IfErr
        result
        (MetFirst (walk_status wanted (table mixed.now) (T.history tree.old) (T.history tree.new) (S.history shelf.old) (S.history shelf.new))) }
    // A fault of the first parent comes only behind patterns that were fine.
    ensures behind { IfErr result (λ fault. is_of_parent fault ≡ true → HadPatterns wanted (T.history tree.old) (T.history tree.new)) }
    ensures asked { IsTrue (T.history tree.old).told
        → AsksAll
        wanted
        (asked_unvouched wanted (table mixed.now))
        (IsListedDir nothing_holds wanted (T.history tree.old) (T.history tree.new))
        (T.history tree.old)
        (T.history tree.new) }
    ensures asked_own { trees.IsOurs (T.history tree.old) (T.history tree.new)
        → OnOk
        result
        (AsksBehind
        (pattern_reads wanted (trees.now (T.history tree.old)))
        (asked_unvouched wanted (table mixed.now))
        (IsListedDir nothing_holds wanted (T.history tree.old) (T.history tree.new))
        (T.history tree.old)
        (T.history tree.new)) }
    // The bytes of each path are read in one comparison at most, and only where neither kind, executable bit nor size decide its letter.
    ensures reads { IsTrue (T.history tree.old).told
        → AsksNeeded (walk_status wanted (table mixed.now) (T.history tree.old) (T.history tree.new) (S.history shelf.old) (S.history shelf.new)) }
    // Where no path is compared, the files below `.hg` aren't asked.
    ensures unasked { ((path : List ℕ) → WasAsked (asked_unvouched wanted (table mixed.now)) (T.history tree.old) (T.history tree.new) path → ⊥)
        → shelf.new ≡ shelf.old }
    ensures asked_store { IsTrue (S.history shelf.old).told
        → AsksStore (walk_status wanted (table mixed.now) (T.history tree.old) (T.history tree.new) (S.history shelf.old) (S.history shelf.new)) }
    // What is noted was seen, whatever others do in the working copy.
    ensures earned { (store : shelves.Files) → IsHonest (T.history tree.new)
        → IsTrue (T.history tree.old).told
        → StaysPlain store (S.history shelf.new) (S.history shelf.old).last
        → IfOk
        result
        (λ walked. AreEarned
        (rows_in (table mixed.now) store)
        (table mixed.now)
        (T.history tree.new)
        walked.notes) }
    // Where nobody else steps there, all is noted that a second walk needs to read no clean file again.
    ensures recorded { (store : shelves.Files) → trees.IsOurs (T.history tree.old) (T.history tree.new)
        → StaysPlain store (S.history shelf.new) (S.history shelf.old).last
        → IfOk
        result
        (λ walked. IsRecorded
        wanted
        (rows_in (table mixed.now) store)
        (table mixed.now)
        (trees.now (T.history tree.old))
        (applied walked.notes (table mixed.now))) }
    // Whoever else steps: behind the notes the record vouches for each path that is left alone, is clean at the start, and has a time that may be recorded at
    // one moment of the walk, whose clock is that of all notes.
    ensures noted_by { wants_bytes wanted ≡ true
        → IfOk
        result
        (λ walked. AreNotedBy
        wanted
        (table mixed.now)
        (T.history tree.old)
        (T.history tree.new)
        (S.history shelf.new)
        (S.history shelf.old).last
        walked.notes) }
    ensures needed { IfOk result (λ walked. AreNeeded (table mixed.now) walked.notes) }
    ensures noted { IfOk result (λ walked. AreNoted (T.history tree.old) (T.history tree.new) walked.notes) }
    ensures uncompiled { needs_patterns wanted ≡ false → regexps.new ≡ regexps.old }
    ensures cause { HasStatusCause (T.faults tree.old) (T.faults tree.new) result }
    ensures cause_shelf { HasShelfCause (S.faults shelf.old) (S.faults shelf.new) result }
    ensures oversize { CountsOversize (G.oversize regexps.old) (G.oversize regexps.new) result }
{
    let boundary = boundary_of(tree, wanted)?;
    let ignore = read_patterns(alloc, tree, regexps, wanted)?;
    let tracked = tell_all(alloc, mixed, tree, shelf, wanted, boundary)?;
    let Tracked {
        keeper,
        rows,
        notes,
    } = tracked;
    let listed = list_others(alloc, &keeper, ignore, tree, wanted, rows)?;
    Ok(Walked {
        rows: listed.rows,
        warnings: listed.warnings,
        notes,
    })
}
