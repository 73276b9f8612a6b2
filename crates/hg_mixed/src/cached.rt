//! Whether any directory of a table is cached, by a walk over the nodes where they are.

ghost use Rattle.std.specs.Prelude.{MatchBool, option_map};
ghost use Rattle.hg_base.specs.PathText.{is_below, parent_of};
ghost use Rattle.hg_base.specs.Within.{is_above, is_within};
ghost use Rattle.hg_mixed.specs.Cached.{FindsCache, IsAnyCached, IsNoneCached};
ghost use Rattle.hg_mixed.specs.Child.{shown_child};
ghost use Rattle.hg_mixed.specs.Children.{AreChildren, IsChild};
ghost use Rattle.hg_nodes.specs.Edits.{IsFormed};
ghost use Rattle.hg_mixed.specs.Held.{table};
ghost use Rattle.hg_mixed.specs.Walk.{IsBelow, ListIsOf, ListsAreOf, walked};

use crate::below::Below;
use crate::child::Child;
use crate::mixed::Mixed;
use crate::walk::Walk;
use hg_base::PathRef;

// Whether a child is cached, or what stands below it.
#[cycle(looking)]
#[inline(always)]
fn has_within<'t>(mixed: &'t Mixed<'_>, child: &Child<'t>) -> bool
    requires formed { IsFormed (table mixed.now) }
    requires child { IsChild mixed.now (parent_of child.now.path.text.now) (shown_child child.now) }
    requires list { ListIsOf mixed.now child.now }
    ensures { FindsCache mixed.now (is_within child.now.path.text.now) result }
{
    if child.cache.is_some() {
        return true;
    }
    if !child.has_kids {
        return false;
    }
    has_below(mixed, child.below())
}

// Whether anything below a child that has children is cached. (A walk is more room than should be cleared for each node that has none.)
#[cycle(looking)]
#[inline(never)]
fn has_below<'t>(mixed: &'t Mixed<'_>, below: Below<'t>) -> bool
    requires formed { IsFormed (table mixed.now) }
    requires below { IsBelow mixed.now below }
    ensures { FindsCache mixed.now (is_below below.entry.path.text.now) result }
{
    let children = mixed.walk_in(below);
    has_in(mixed, Some(below.path), children)
}

// Whether anything below a directory, whose children are walked, is cached, where no directory is the root.
#[cycle(looking)]
fn has_in<'t>(mixed: &'t Mixed<'_>, dir: Option<PathRef<'t>>, mut children: Walk<'t, '_>) -> bool
    requires formed { IsFormed (table mixed.now) }
    requires children { AreChildren mixed.now (option_map (λ d. d.text.now) dir) (walked children) }
    requires lists { ListsAreOf mixed.now children }
    ensures { FindsCache mixed.now (is_above (option_map (λ d. d.text.now) dir.entry)) result }
{
    while let Some(child) = children.next() {
        if has_within(mixed, &child) {
            return true;
        }
    }
    false
}

impl Mixed<'_> {
    /// Whether any directory is cached.
    pub(crate) fn has_caches(&self) -> bool
        ensures { MatchBool result (IsAnyCached (table self.now)) (IsNoneCached (table self.now)) }
    {
        let _ = self.parents();
        has_in(self, None, self.walk(None))
    }
}
