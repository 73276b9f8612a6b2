//! The plain status of a working copy.

ghost use Rattle.std.specs.Prelude.{◌≡◌, true, false, ℕ, List, IsTrue, IfErr, IfOk, OnOk};
ghost use Rattle.hg_shelf.specs.History as shelves;
ghost use Rattle.hg_shelf.specs.Images as images;
ghost use Rattle.hg_shelf.specs.Polite.{StaysPlain};
ghost use Rattle.hg_tree.specs.History as trees;
ghost use Rattle.hg_flat.specs.Asked.{AsksAll, AsksBehind, AsksReads, IsListedDir, nothing_holds, pattern_reads};
ghost use Rattle.hg_listing.specs.Cause.{HasShelfCause, HasStatusCause};
ghost use Rattle.hg_flat.specs.Course.{MetParent};
ghost use Rattle.hg_flat.specs.First.{MetFirst};
ghost use Rattle.hg_flat.specs.Judged.{AddsBy, IsLeftAsked};
ghost use Rattle.hg_listing.specs.Full.{IsFull, IsFullFor};
ghost use Rattle.hg_flat.specs.Met.{Met};
ghost use Rattle.hg_flat.specs.Needed.{AsksNeeded, ReadsNeeded};
ghost use Rattle.hg_flat.specs.Parent.{IsAsked, IsLeft, IsServed, WasAsked, asked_by, parent_rows};
ghost use Rattle.hg_flat.specs.Patterns.{CountsOversize, HadPatterns, Warns, ignored_at, is_of_parent, needs_patterns};
ghost use Rattle.hg_flat.specs.Stored.{AsksStore};
ghost use Rattle.hg_flat.specs.Shown.{flat_in};

use crate::flat::Flat;
use crate::letter::add_tracked;
use crate::listed::Listed;
use crate::others::list_others;
use crate::parent::Parent;
use crate::patterns::read_patterns;
use hg_base::Id20;
use hg_ignore::Regexps;
use hg_listing::{Row, StatusFault, Wanted};
use hg_shelf::Shelf;
use hg_tree::Tree;
use std::alloc::Global;

// Looks at each path with an entry, in order.
fn add_each<T: Tree, S: Shelf>(
    alloc: Global,
    flat: &Flat,
    p1: &Id20,
    tree: &mut T,
    shelf: &mut S,
    wanted: Wanted,
    rows: &mut Vec<Row>,
) -> Result<(), StatusFault>
    ensures passes { trees.Passes (T.history tree.old) (T.history tree.new) }
    ensures passes_shelf { shelves.Passes (S.history shelf.old) (S.history shelf.new) }
    ensures kept { images.Goes (images.course (S.history shelf.old) (S.images shelf.old)) (images.course (S.history shelf.new) (S.images shelf.new)) }
    ensures held { S.held shelf.new ≡ S.held shelf.old }
    ensures added { (store : shelves.Files) → OnOk
        result
        (AddsBy
        (asked_by wanted (flat_in flat.now))
        (Unit {0})
        (IsLeftAsked
        store
        (asked_by wanted (flat_in flat.now))
        p1.now
        (T.history tree.new)
        (T.history tree.old).last
        (S.history shelf.new)
        (S.history shelf.old).last)
        store
        p1.now
        (trees.now (T.history tree.old))
        wanted
        flat.now.rows.items
        rows.old.items
        rows.new.items) }
    ensures met { IfErr
        result
        (MetParent
        (record {
          wanted = wanted;
          asks = asked_by wanted (flat_in flat.now);
          id = p1.now;
          tree_old = T.history tree.old;
          tree_new = T.history tree.new;
          shelf_old = S.history shelf.old;
          shelf_new = S.history shelf.new;
        })) }
    // Of several contents that are absent those of the first path are answered.
    ensures first { IfErr
        result
        (MetFirst
        (record {
          wanted = wanted;
          asks = asked_by wanted (flat_in flat.now);
          id = p1.now;
          tree_old = T.history tree.old;
          tree_new = T.history tree.new;
          shelf_old = S.history shelf.old;
          shelf_new = S.history shelf.new;
        })) }
    ensures asked { IsTrue (T.history tree.old).told
        → AsksReads
        (WasAsked (asked_by wanted (flat_in flat.now)) (T.history tree.old) (T.history tree.new))
        (T.history tree.old)
        (T.history tree.new) }
    // The bytes of each path are read in one comparison at most, and only where they are needed.
    ensures reads { IsTrue (T.history tree.old).told
        → ReadsNeeded
        (record {
          wanted = wanted;
          asks = asked_by wanted (flat_in flat.now);
          id = p1.now;
          tree_old = T.history tree.old;
          tree_new = T.history tree.new;
          shelf_old = S.history shelf.old;
          shelf_new = S.history shelf.new;
        }) }
    ensures unasked { ((path : List ℕ) → WasAsked (asked_by wanted (flat_in flat.now)) (T.history tree.old) (T.history tree.new) path → ⊥)
        → shelf.new ≡ shelf.old }
    ensures store { IsTrue (S.history shelf.old).told
        → AsksStore
        (record {
          wanted = wanted;
          asks = asked_by wanted (flat_in flat.now);
          id = p1.now;
          tree_old = T.history tree.old;
          tree_new = T.history tree.new;
          shelf_old = S.history shelf.old;
          shelf_new = S.history shelf.new;
        }) }
    ensures cause { HasStatusCause (T.faults tree.old) (T.faults tree.new) result }
    ensures cause_shelf { HasShelfCause (S.faults shelf.old) (S.faults shelf.new) result }
{
    let mut parent = Parent::new(p1);
    for kept in &flat.rows {
        add_tracked(alloc, tree, shelf, kept, &mut parent, wanted, rows)?;
    }
    Ok(())
}

/// ListsUnknown each path with a wanted letter: first each path with an entry, in order, then, where `?` or I is wanted, everything that stands in
/// the working copy, each directory once.
///
/// Where `?` or I is wanted, `.hgignore` is read first: a path without an entry is ignored where a line of it matches the path or a directory above
/// it, and a directory that is ignored is gone into only where I is wanted. The warnings are those of its lines.
///
/// A path that is tracked and in the first parent alone, with no copy source, is compared byte for byte where M or C is wanted and a file or
/// a link stands there; the manifest of the parent `p1` is loaded at the first such path.
///
/// What the parent has of a path is told by any store whose bytes the files of the plain store have wherever they are there during the call: by the files
/// at its end where others keep what is there, though absent files come. A path that nobody touches meanwhile, nor the patterns where they decide its letter,
/// has exactly its row by such a store, whatever others do to other paths; where nobody else steps, the rows are the full listing.
pub fn plain_status<T: Tree, S: Shelf, G: Regexps>(
    alloc: Global,
    flat: &Flat,
    p1: &Id20,
    tree: &mut T,
    shelf: &mut S,
    regexps: &mut G,
    wanted: Wanted,
) -> Result<Listed, StatusFault>
    ensures passes { trees.Passes (T.history tree.old) (T.history tree.new) }
    ensures passes_shelf { shelves.Passes (S.history shelf.old) (S.history shelf.new) }
    ensures kept { images.Goes (images.course (S.history shelf.old) (S.images shelf.old)) (images.course (S.history shelf.new) (S.images shelf.new)) }
    ensures held { S.held shelf.new ≡ S.held shelf.old }
    ensures still { (store : shelves.Files) → IfOk
        result
        (λ listed. IsFullFor
        (IsLeft
        store
        wanted
        (flat_in flat.now)
        (asked_by wanted (flat_in flat.now))
        p1.now
        (T.history tree.new)
        (T.history tree.old).last
        (S.history shelf.new)
        (S.history shelf.old).last)
        (flat_in flat.now)
        (trees.now (T.history tree.old))
        (parent_rows store p1.now)
        (ignored_at (trees.now (T.history tree.old)))
        wanted
        listed.rows) }
    ensures full { (store : shelves.Files) → trees.IsOurs (T.history tree.old) (T.history tree.new)
        → StaysPlain store (S.history shelf.new) (S.history shelf.old).last
        → IfOk
        result
        (λ listed. IsFull
        (flat_in flat.now)
        (trees.now (T.history tree.old))
        (parent_rows store p1.now)
        (ignored_at (trees.now (T.history tree.old)))
        wanted
        listed.rows) }
    // Where the patterns decide letters they were read and fine, and the warnings are theirs.
    ensures warns { IfOk result (λ listed. Warns wanted (T.history tree.old) (T.history tree.new) listed.warnings) }
    // Without a fault all that a comparison asked for was there.
    ensures served { OnOk
        result
        ((store : shelves.Files) (path : List ℕ) → IsLeft
        store
        wanted
        (flat_in flat.now)
        (asked_by wanted (flat_in flat.now))
        p1.now
        (T.history tree.new)
        (T.history tree.old).last
        (S.history shelf.new)
        (S.history shelf.old).last
        path
        → IsAsked (asked_by wanted (flat_in flat.now)) (trees.now (T.history tree.old)) path
        → IsServed store p1.now (trees.now (T.history tree.old)) path) }
    ensures met { IfErr
        result
        (Met
        (record {
          wanted = wanted;
          asks = asked_by wanted (flat_in flat.now);
          id = p1.now;
          tree_old = T.history tree.old;
          tree_new = T.history tree.new;
          shelf_old = S.history shelf.old;
          shelf_new = S.history shelf.new;
        })) }
    // Of several contents that are absent those of the first path are answered: what each path before it asks for was there.
    ensures first { IfErr
        result
        (MetFirst
        (record {
          wanted = wanted;
          asks = asked_by wanted (flat_in flat.now);
          id = p1.now;
          tree_old = T.history tree.old;
          tree_new = T.history tree.new;
          shelf_old = S.history shelf.old;
          shelf_new = S.history shelf.new;
        })) }
    // A fault of the first parent comes only behind patterns that were fine.
    ensures behind { IfErr result (λ fault. is_of_parent fault ≡ true → HadPatterns wanted (T.history tree.old) (T.history tree.new)) }
    ensures asked { IsTrue (T.history tree.old).told
        → AsksAll
        wanted
        (asked_by wanted (flat_in flat.now))
        (IsListedDir nothing_holds wanted (T.history tree.old) (T.history tree.new))
        (T.history tree.old)
        (T.history tree.new) }
    // Where nobody else steps, the patterns are read exactly where they are needed and their file is there.
    ensures asked_own { trees.IsOurs (T.history tree.old) (T.history tree.new)
        → OnOk
        result
        (AsksBehind
        (pattern_reads wanted (trees.now (T.history tree.old)))
        (asked_by wanted (flat_in flat.now))
        (IsListedDir nothing_holds wanted (T.history tree.old) (T.history tree.new))
        (T.history tree.old)
        (T.history tree.new)) }
    // The bytes of each path are read in one comparison at most, and only where neither kind, executable bit nor size decide its letter.
    ensures reads { IsTrue (T.history tree.old).told
        → AsksNeeded
        (record {
          wanted = wanted;
          asks = asked_by wanted (flat_in flat.now);
          id = p1.now;
          tree_old = T.history tree.old;
          tree_new = T.history tree.new;
          shelf_old = S.history shelf.old;
          shelf_new = S.history shelf.new;
        }) }
    // Where no path is compared, the files below `.hg` aren't asked.
    ensures unasked { ((path : List ℕ) → WasAsked (asked_by wanted (flat_in flat.now)) (T.history tree.old) (T.history tree.new) path → ⊥)
        → shelf.new ≡ shelf.old }
    // They are asked for the manifest of the parent once at most, its size and then its bytes, and behind it only for contents that its rows of such
    // paths name.
    ensures asked_store { IsTrue (S.history shelf.old).told
        → AsksStore
        (record {
          wanted = wanted;
          asks = asked_by wanted (flat_in flat.now);
          id = p1.now;
          tree_old = T.history tree.old;
          tree_new = T.history tree.new;
          shelf_old = S.history shelf.old;
          shelf_new = S.history shelf.new;
        }) }
    // Where no patterns are needed, no regexp is compiled.
    ensures uncompiled { needs_patterns wanted ≡ false → regexps.new ≡ regexps.old }
    ensures cause { HasStatusCause (T.faults tree.old) (T.faults tree.new) result }
    ensures cause_shelf { HasShelfCause (S.faults shelf.old) (S.faults shelf.new) result }
    ensures oversize { CountsOversize (G.oversize regexps.old) (G.oversize regexps.new) result }
{
    let ignore = read_patterns(alloc, tree, regexps, wanted)?;
    let mut rows = Vec::new(alloc);
    add_each(alloc, flat, p1, tree, shelf, wanted, &mut rows)?;
    list_others(alloc, flat, ignore, tree, wanted, rows)
}
