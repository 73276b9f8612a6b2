//! The entry of a path that the parents have.

ghost use Rattle.std.specs.Prelude.{◌≡◌, ◌&&◌, ◌||◌, ◌<◌, Some, MatchBool, is_some, option_map};
ghost use Rattle.hg_entry.specs.Entry.{stamp_view, view};
ghost use Rattle.hg_manifest.specs.Plain.{is_null};
ghost use Rattle.hg_nodes.specs.Clash.{is_tracked_entry};
ghost use Rattle.hg_ops.specs.Parents.{entry_by, entry_of_parents, equal_bools, fallback_in, is_other_file, is_same_file};

use hg_base::{Id20, PathRef, Stamp};
use hg_entry::Entry;
use hg_manifest::{FileRow, Manifest};

/// Whether a parent is none.
pub fn is_null(id: &Id20) -> bool
    ensures { result ≡ is_null id.now.0 }
{
    *id == Id20([0; 20])
}

fn is_same_file(a: FileRow, b: FileRow) -> bool
    ensures { result ≡ is_same_file a b }
{
    (a.id == b.id) & (a.exec == b.exec) & (a.link == b.link)
}

// Whether the second parent has a file that the first hasn't.
fn is_other_file(first: Option<FileRow>, second: Option<FileRow>) -> bool
    ensures { result ≡ is_other_file first second }
{
    match second {
        None => false,
        Some(second) => match first {
            None => true,
            Some(first) => !is_same_file(first, second),
        },
    }
}

fn is_tracked_entry(entry: Option<Entry>) -> bool
    ensures { result ≡ is_tracked_entry (option_map view entry) }
{
    match entry {
        None => false,
        Some(entry) => entry.w,
    }
}

fn fallback_in(entry: Option<Entry>) -> u8
    ensures bits { result ≡ fallback_in (option_map view entry) }
    ensures four { result < 16 }
{
    match entry {
        None => 0,
        Some(entry) => entry.fallback,
    }
}

// The entry of a path that the parents have so.
fn entry_of_parents(first: bool, second: bool, was: Option<Entry>) -> Option<Entry>
    ensures { option_map view result ≡ entry_of_parents first second (option_map view was) }
{
    let w = is_tracked_entry(was);
    let fallback = fallback_in(was);
    if w | first | second {
        Some(Entry {
            w,
            p1: first,
            p2: second,
            exec: false,
            link: false,
            size: None,
            stamp: None,
            modified: false,
            fallback,
        })
    } else {
        None
    }
}

/// The entry of a path by the manifests of both parents, where the second counts only if there is one.
pub fn entry_by(
    merged: bool,
    m1: &Manifest,
    m2: &Manifest,
    path: PathRef<'_>,
    was: Option<Entry>,
) -> Option<Entry>
    ensures { option_map view result ≡ entry_by merged m1.now m2.now path.entry.text.now (option_map view was) }
{
    let first = m1.get(path);
    let second = m2.get(path);
    entry_of_parents(first.is_some(), merged & is_other_file(first, second), was)
}

fn is_same_stamp(a: Stamp, b: Stamp) -> bool
    ensures { MatchBool result (stamp_view a ≡ stamp_view b) (stamp_view a ≡ stamp_view b → ⊥) }
{
    if a.seconds != b.seconds {
        return false;
    }
    if a.nanos != b.nanos {
        return false;
    }
    a.ambiguous == b.ambiguous
}

fn is_same_time(a: Option<Stamp>, b: Option<Stamp>) -> bool
    ensures { MatchBool result (option_map stamp_view a ≡ option_map stamp_view b) (option_map stamp_view a ≡ option_map stamp_view b → ⊥) }
{
    match (a, b) {
        (None, None) => true,
        (Some(a), Some(b)) => is_same_stamp(a, b),
        _ => false,
    }
}

/// Whether two entries say the same.
pub fn is_same(a: Entry, b: Entry) -> bool
    ensures { MatchBool result (view a ≡ view b) (view a ≡ view b → ⊥) }
{
    if a.w != b.w {
        return false;
    }
    if a.p1 != b.p1 {
        return false;
    }
    if a.p2 != b.p2 {
        return false;
    }
    if a.exec != b.exec {
        return false;
    }
    if a.link != b.link {
        return false;
    }
    if a.size != b.size {
        return false;
    }
    if a.modified != b.modified {
        return false;
    }
    if a.fallback != b.fallback {
        return false;
    }
    is_same_time(a.stamp, b.stamp)
}
