//! One path of a dirstate.

ghost use Rattle.std.specs.Prelude.{◌≡◌};
ghost use Rattle.hg_flat.specs.Kept.{shown_item, shown_row};

use hg_base::Path;
use hg_entry::{Entry, Item};

/// A path with an entry, and what it was copied from where that is recorded.
#[derive(Drop)]
pub struct FlatRow {
    pub path: Path,
    pub entry: Entry,
    pub source: Option<Path>,
}

// The row as others see it.
pub(crate) fn item_of(row: &FlatRow) -> Item<'_>
    ensures { shown_item result ≡ shown_row row.now }
{
    match &row.source {
        None => Item {
            entry: row.entry,
            source: None,
        },
        Some(source) => Item {
            entry: row.entry,
            source: Some(source.as_ref()),
        },
    }
}
