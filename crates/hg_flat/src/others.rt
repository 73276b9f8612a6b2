//! What stands in the working copy besides tracked paths, and all rows of a status in order.

ghost use Rattle.std.specs.Prelude.{◌≡◌, true, IsTrue, IfErr, IfOk, OnOk, None, is_some, option_map};
ghost use Rattle.hg_tree.specs.History as trees;
ghost use Rattle.hg_flat.specs.Asked.{AsksFor, IsAskedDir, IsDirIn};
ghost use Rattle.hg_flat.specs.Course.{pieces_of, warned_of};
ghost use Rattle.hg_flat.specs.Listing.{Gives, IsUnknownIn};
ghost use Rattle.hg_flat.specs.Others.{IsOfListing, ListsOthers};
ghost use Rattle.hg_flat.specs.Passed.{AreKnown, ListsSince};
ghost use Rattle.hg_flat.specs.Patterns.{needs_patterns};
ghost use Rattle.hg_listing.specs.Cause.{HasListingCause, HasStatusCause};

use crate::entries::Entries;
use crate::listed::Listed;
use crate::listing::visit;
use crate::patterns::warnings_of;
use hg_ignore::Ignore;
use hg_listing::{Row, Rows, StatusFault, Wanted};
use hg_tree::{Tree, TreeFault};
use std::alloc::Global;

// Looks at what else stands in the working copy, where that is wanted and so patterns were read.
fn add_others<T: Tree, K: Entries>(
    alloc: Global,
    entries: &K,
    ignore: Option<&Ignore>,
    tree: &mut T,
    wanted: Wanted,
    rows: &mut Vec<Row>,
) -> Result<(), TreeFault>
    requires { is_some (option_map (λ i. i.now) ignore) ≡ needs_patterns wanted }
    ensures passes { trees.Passes (T.history tree.old) (T.history tree.new) }
    ensures listed { OnOk
        result
        (ListsSince
        (K.kept entries.now)
        (K.known entries.now)
        (Gives wanted (pieces_of (option_map (λ i. i.now) ignore.entry)))
        (T.history tree.old)
        (T.history tree.new)
        (IsUnknownIn (K.kept entries.now) (trees.now (T.history tree.old)) None)
        rows.old.items
        rows.new.items) }
    ensures asked { IsTrue (T.history tree.old).told
        → (since : trees.History)
        → trees.Passes since (T.history tree.old)
        → AreKnown (K.known entries.now) (T.history tree.old) since.last
        → AsksFor
        (λ dir. (needs_patterns wanted ≡ true)
        × IsDirIn
        (IsAskedDir (K.known entries.now) wanted (pieces_of (option_map (λ i. i.now) ignore.entry)))
        since
        (T.history tree.new)
        None
        dir)
        (T.history tree.old)
        (T.history tree.new) }
    ensures cause { HasListingCause (T.faults tree.old) (T.faults tree.new) result }
{
    let Some(ignore) = ignore else {
        return Ok(());
    };
    let mut matcher = ignore.matcher(alloc)?;
    let mut next = 0;
    visit(
        alloc,
        tree,
        entries,
        None,
        &mut matcher,
        false,
        wanted,
        &mut next,
        rows,
    )
}

/// Lists what else stands in the working copy behind the rows of tracked paths, where patterns were read, and puts all rows in order.
pub fn list_others<T: Tree, K: Entries>(
    alloc: Global,
    entries: &K,
    ignore: Option<Ignore>,
    tree: &mut T,
    wanted: Wanted,
    rows: Vec<Row>,
) -> Result<Listed, StatusFault>
    requires { is_some ignore ≡ needs_patterns wanted }
    ensures passes { trees.Passes (T.history tree.old) (T.history tree.new) }
    ensures listed { IfOk
        result
        (λ listed. ListsOthers
        (K.kept entries.now)
        (K.known entries.now)
        wanted
        (pieces_of ignore)
        (T.history tree.old)
        (T.history tree.new)
        rows.items
        listed.rows) }
    ensures warned { IfOk result (λ listed. listed.warnings ≡ warned_of ignore) }
    ensures asked { IsTrue (T.history tree.old).told
        → (since : trees.History)
        → trees.Passes since (T.history tree.old)
        → AreKnown (K.known entries.now) (T.history tree.old) since.last
        → AsksFor
        (λ dir. (needs_patterns wanted ≡ true)
        × IsDirIn (IsAskedDir (K.known entries.now) wanted (pieces_of ignore)) since (T.history tree.new) None dir)
        (T.history tree.old)
        (T.history tree.new) }
    ensures kind { IfErr result IsOfListing }
    ensures cause { HasStatusCause (T.faults tree.old) (T.faults tree.new) result }
{
    let mut rows = rows;
    add_others(alloc, entries, ignore.as_ref(), tree, wanted, &mut rows)?;
    rows.sort()?;
    rows.dedup();
    let rows = Rows::of(rows);
    let warnings = warnings_of(alloc, ignore);
    Ok(Listed { rows, warnings })
}
