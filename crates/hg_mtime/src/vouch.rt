//! When an entry says that its file is unchanged.

ghost use Rattle.std.specs.Prelude.{◌≡◌};
ghost use Rattle.hg_entry.specs.Entry.{view};
ghost use Rattle.hg_mtime.specs.Vouching as vouching;

use crate::stamp::matches;
use hg_base::{Kind, Stat, Time};
use hg_entry::Entry;

/// Whether an entry says of a file that shows this that it is as in the first parent: tracked and in the first parent alone, no copy (`copied`
/// says whether it has a source), and no change is expected; size, mode and time are those recorded. Of the size the low 31 bits count, in
/// bytes. Size and mode alone decide nothing.
pub fn vouches(entry: &Entry, copied: bool, stat: &Stat) -> bool
    ensures { result ≡ vouching.vouches (view entry.now) copied stat.now }
{
    if !may_vouch(entry, copied) {
        return false;
    }
    if !has_size(entry.size, stat.size) {
        return false;
    }
    if !has_mode(entry, stat) {
        return false;
    }
    matches_known(entry, stat.mtime)
}

fn may_vouch(entry: &Entry, copied: bool) -> bool
    ensures { result ≡ vouching.may_vouch (view entry.now) copied }
{
    if !entry.w {
        return false;
    }
    if !entry.p1 {
        return false;
    }
    if entry.p2 {
        return false;
    }
    if copied {
        return false;
    }
    !entry.modified
}

fn has_size(known: Option<u32>, size: u64) -> bool
    ensures { result ≡ vouching.has_size known size }
{
    match known {
        None => false,
        Some(known) => u64::from(known) == size % 0x8000_0000,
    }
}

fn has_mode(entry: &Entry, stat: &Stat) -> bool
    ensures { result ≡ vouching.has_mode (view entry.now) stat.now.kind stat.now.exec }
{
    match stat.kind {
        Kind::File => !entry.link && entry.exec == stat.exec,
        Kind::Link => entry.link,
        Kind::Dir | Kind::Other => false,
    }
}

fn matches_known(entry: &Entry, time: Time) -> bool
    ensures { result ≡ vouching.matches_known (view entry.now).stamp time }
{
    match entry.stamp {
        None => false,
        Some(stamp) => matches(stamp, time),
    }
}
