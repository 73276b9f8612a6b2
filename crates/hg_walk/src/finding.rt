//! The letter of a path that a look shows, and the time that may be recorded of it.

ghost use Rattle.std.specs.Prelude.{◌≡◌, ◌⊎◌, true, false, IsTrue, IfErr, IfOk, IfSome, OnOk};
ghost use Rattle.std.specs.Option.{option_map};
ghost use Rattle.hg_compare.specs.Same.{Reads};
ghost use Rattle.hg_entry.specs.Entry.{stamp_view, view};
ghost use Rattle.hg_flat.specs.Course.{MetBy, Proceeds, upto};
ghost use Rattle.hg_flat.specs.Met.{Status};
ghost use Rattle.hg_flat.specs.Needed.{NeedsBytes};
ghost use Rattle.hg_flat.specs.Parent.{WasAsked};
ghost use Rattle.hg_flat.specs.Stored.{AsksStore};
ghost use Rattle.hg_listing.specs.Cause.{HasShelfCause, HasStatusCause};
ghost use Rattle.hg_mtime.specs.Vouching.{vouches};
ghost use Rattle.hg_shelf.specs.History as shelves;
ghost use Rattle.hg_shelf.specs.Images as images;
ghost use Rattle.hg_tree.specs.History as trees;
ghost use Rattle.hg_walk.specs.Finding.{HasLetter, IsEarnedBy, IsNoted, IsNotedIfClean, stamp_after};

use hg_base::{PathRef, Stamp, Stat, Time};
use hg_compare::{Letter, Looked};
use hg_entry::Entry;
use hg_flat::{Parent, compared_letter, letter_of};
use hg_listing::StatusFault;
use hg_mtime::{stamp_of, vouches};
use hg_shelf::Shelf;
use hg_tree::Tree;
use std::alloc::Global;

/// What is found of a path that a look shows.
#[derive(Clone, Copy, Debug)]
pub struct Found {
    pub letter: Letter,
    /// The time of the look, where the path was compared and is clean, and the time may be recorded.
    pub stamp: Option<Stamp>,
}

// The time that may be recorded behind a comparison.
fn stamp_after(looked: Looked, time: Time, boundary: Time) -> Option<Stamp>
    ensures { option_map stamp_view result ≡ stamp_after looked time boundary }
{
    match looked {
        Looked::Same { settled: true } => stamp_of(time, boundary),
        Looked::Same { settled: false } | Looked::Differs | Looked::Gone => None,
    }
}

/// The letter of a path that is tracked and in the first parent alone, with no copy source, where a look showed `before`: C where its entry vouches for
/// that, and nothing is read; else by a comparison with what the first parent has of it. `boundary` is a time of the tree's clock from before the look.
pub fn find<T: Tree, S: Shelf>(
    alloc: Global,
    tree: &mut T,
    shelf: &mut S,
    path: PathRef<'_>,
    entry: &Entry,
    copied: bool,
    before: &Stat,
    boundary: Time,
    parent: &mut Parent,
) -> Result<Found, StatusFault>
    ensures tree_passes { trees.Passes (T.history tree.old) (T.history tree.new) }
    ensures shelf_passes { shelves.Passes (S.history shelf.old) (S.history shelf.new) }
    ensures kept { images.Goes (images.course (S.history shelf.old) (S.images shelf.old)) (images.course (S.history shelf.new) (S.images shelf.new)) }
    ensures held { S.held shelf.new ≡ S.held shelf.old }
    ensures goes { OnOk
        result
        ((s : Status) → Proceeds (upto s (T.history tree.old) (S.history shelf.old)) parent.old
        → (vouches (view entry.now) copied before.now ≡ false → WasAsked s.asks s.tree_old (T.history tree.new) path.entry.text.now)
        → Proceeds (upto s (T.history tree.new) (S.history shelf.new)) parent.new) }
    ensures found { IfOk
        result
        (λ found. (s : Status) → HasLetter
        (record {
          path = path.entry.text.now;
          entry = view entry.now;
          copied = copied;
          before = before.now;
          tree_old = T.history tree.old;
          tree_new = T.history tree.new;
          shelf_old = S.history shelf.old;
          shelf_new = S.history shelf.new;
        })
        s
        parent.old
        found.letter) }
    ensures earned { IfOk
        result
        (λ found. IfSome
        (option_map stamp_view found.stamp)
        (λ stamp. (s : Status) → IsEarnedBy
        (record {
          path = path.entry.text.now;
          entry = view entry.now;
          copied = copied;
          before = before.now;
          tree_old = T.history tree.old;
          tree_new = T.history tree.new;
          shelf_old = S.history shelf.old;
          shelf_new = S.history shelf.new;
        })
        s
        parent.old
        boundary
        stamp)) }
    ensures noted { IfOk
        result
        (λ found. IfSome
        (option_map stamp_view found.stamp)
        (IsNoted
        (record {
          path = path.entry.text.now;
          entry = view entry.now;
          copied = copied;
          before = before.now;
          tree_old = T.history tree.old;
          tree_new = T.history tree.new;
          shelf_old = S.history shelf.old;
          shelf_new = S.history shelf.new;
        })
        boundary
        found.letter)) }
    ensures recorded { IfOk
        result
        (λ found. (s : Status) → IsNotedIfClean
        (record {
          path = path.entry.text.now;
          entry = view entry.now;
          copied = copied;
          before = before.now;
          tree_old = T.history tree.old;
          tree_new = T.history tree.new;
          shelf_old = S.history shelf.old;
          shelf_new = S.history shelf.new;
        })
        s
        parent.old
        boundary
        (option_map stamp_view found.stamp)) }
    ensures met { IfErr
        result
        (λ fault. (s : Status) → Proceeds (upto s (T.history tree.old) (S.history shelf.old)) parent.old
        → MetBy (upto s (T.history tree.new) (S.history shelf.new)) path.entry.text.now before.now fault) }
    // Where the entry vouches, neither the working copy nor the files below `.hg` are asked, and nothing fails.
    ensures unread { vouches (view entry.now) copied before.now ≡ true → (tree.new ≡ tree.old) × (shelf.new ≡ shelf.old) }
    ensures kind { IfErr result (λ fault. vouches (view entry.now) copied before.now ≡ false) }
    // The bytes are read only where the manifest that was read has a row of the path's kind and executable bit, whose contents had the size of the look.
    ensures needed { (s : Status) → Proceeds (upto s (T.history tree.old) (S.history shelf.old)) parent.old
        → (tree.new ≡ tree.old)
        ⊎ NeedsBytes (upto s (T.history tree.new) (S.history shelf.new)) path.entry.text.now before.now }
    ensures asked { IsTrue (T.history tree.old).told → Reads before.now.size path.entry.text.now (T.history tree.old) (T.history tree.new) }
    ensures store { IfErr
        result
        (λ fault. (s : Status) → Proceeds (upto s (T.history tree.old) (S.history shelf.old)) parent.old
        → WasAsked s.asks s.tree_old (T.history tree.new) path.entry.text.now
        → IsTrue s.shelf_old.told
        → AsksStore (upto s (T.history tree.new) (S.history shelf.new))) }
    ensures cause { HasStatusCause (T.faults tree.old) (T.faults tree.new) result }
    ensures cause_shelf { HasShelfCause (S.faults shelf.old) (S.faults shelf.new) result }
{
    if vouches(entry, copied, before) {
        return Ok(Found {
            letter: Letter::C,
            stamp: None,
        });
    }
    let looked = compared_letter(alloc, tree, shelf, path, before, parent)?;
    Ok(Found {
        letter: letter_of(looked),
        stamp: stamp_after(looked, before.mtime, boundary),
    })
}
