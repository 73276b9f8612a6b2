//! The order of the rows of a listing: by group, by path, and then by source.

ghost use Rattle.std.specs.Prelude.{◌≡◌};
ghost use Rattle.hg_listing.specs.Order.{group_of};

use crate::row::Row;
use hg_compare::Letter;
use std::cmp::Ordering;

// The place of the letter's group in a listing.
fn group(letter: Letter) -> u8
    ensures { result ≡ group_of letter }
{
    match letter {
        Letter::M => 0,
        Letter::A => 1,
        Letter::R => 2,
        Letter::Gone => 3,
        Letter::Unknown => 4,
        Letter::I => 5,
        Letter::C => 6,
    }
}

impl PartialEq for Row {
    ghost use Rattle.std.specs.Cmp.{eq_by_cmp_equiv, partial_equiv_from_equiv};
    ghost use Rattle.std.specs.Ordering.{eq_by_cmp};
    ghost use Rattle.hg_listing.specs.Order.{whole_order, whole_order_total};

    ghost eq = { eq_by_cmp whole_order };

    ghost laws = { partial_equiv_from_equiv (eq_by_cmp_equiv whole_order_total) };

    fn eq(&self, other: &Row) -> bool {
        self.cmp(other).is_eq()
    }
}

impl Eq for Row {
    ghost use Rattle.std.specs.Cmp.{eq_by_cmp_equiv};
    ghost use Rattle.hg_listing.specs.Order.{whole_order_total};

    ghost laws = { eq_by_cmp_equiv whole_order_total };
}

impl PartialOrd for Row {
    ghost use Rattle.std.specs.Prelude.{refl};
    ghost use Rattle.std.specs.Cmp.{partial_order_from_total};
    ghost use Rattle.std.specs.Ordering.{as_partial_cmp};
    ghost use Rattle.hg_listing.specs.Order.{whole_order, whole_order_total};

    ghost partial_cmp = { as_partial_cmp whole_order };

    ghost laws = { partial_order_from_total whole_order_total };

    fn partial_cmp(&self, other: &Row) -> Option<Ordering> {
        Some(self.cmp(other))
    }
}

impl Ord for Row {
    ghost use Rattle.std.specs.Prelude.{refl};
    ghost use Rattle.hg_listing.specs.Order.{whole_order, whole_order_total};

    ghost cmp = { whole_order };

    ghost total = { whole_order_total };

    ghost matches_partial_cmp = { λ x y. refl };

    ghost matches_eq = { λ x y. refl };

    fn cmp(&self, other: &Row) -> Ordering {
        let groups = group(self.letter).cmp(&group(other.letter));
        let order = groups.then(self.path.cmp(&other.path));
        order.then(self.source.cmp(&other.source))
    }
}
