//! What a table has of a path.

ghost use Rattle.std.specs.Prelude.{◌≡◌, option_map};
ghost use Rattle.hg_entry.specs.Entry.{view};
ghost use Rattle.hg_mixed.specs.Held.{table};
ghost use Rattle.hg_ops.specs.Step.{entry_added, is_tracked};

use hg_base::PathRef;
use hg_entry::Entry;
use hg_mixed::Mixed;

/// The entry of a path, where it has one.
pub fn entry_at(mixed: &Mixed<'_>, path: PathRef<'_>) -> Option<Entry>
    ensures { option_map view result ≡ (table mixed.now).entries path.entry.text.now }
{
    match mixed.get(path) {
        None => None,
        Some(item) => Some(item.entry),
    }
}

/// Whether a path is tracked.
pub fn is_tracked(mixed: &Mixed<'_>, path: PathRef<'_>) -> bool
    ensures { result ≡ is_tracked (table mixed.now) path.entry.text.now }
{
    match entry_at(mixed, path) {
        None => false,
        Some(entry) => entry.w,
    }
}

/// The entry of a path that is tracked from now on.
pub fn entry_added(was: Option<Entry>) -> Entry
    ensures { view result ≡ entry_added (option_map view was) }
{
    match was {
        None => Entry {
            w: true,
            p1: false,
            p2: false,
            exec: false,
            link: false,
            size: None,
            stamp: None,
            modified: false,
            fallback: 0,
        },
        Some(was) => {
            let mut entry = was;
            entry.set_tracked();
            entry
        }
    }
}
