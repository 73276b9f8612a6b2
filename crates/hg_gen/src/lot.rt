//! What becomes of a file: by the rest of its number by sixteen.

ghost use Rattle.std.specs.Prelude.{◌≡◌};
ghost use Rattle.hg_entry.specs.Entry.{view};
ghost use Rattle.hg_gen.specs.Copy as copy;
ghost use Rattle.hg_gen.specs.Manifest as manifest;
ghost use Rattle.hg_gen.specs.Recorded as recorded;

use crate::names::WIDTH;
use hg_entry::Entry;

/// Whether the parent has a file.
pub(crate) fn is_in_parent(file: u32) -> bool
    ensures { result ≡ manifest.is_in_parent file }
{
    !matches!(file % WIDTH, 9 | 11)
}

/// Whether a file is tracked.
pub(crate) fn is_tracked(file: u32) -> bool
    ensures { result ≡ recorded.is_tracked file }
{
    !matches!(file % WIDTH, 9 | 13)
}

/// Whether a file stands on the disk.
pub(crate) fn is_on_disk(file: u32) -> bool
    ensures { result ≡ copy.is_on_disk file }
{
    !matches!(file % WIDTH, 5 | 13)
}

/// Whether it is executable there.
pub(crate) fn is_exec(file: u32) -> bool
    ensures { result ≡ copy.is_exec file }
{
    file % WIDTH == 7
}

/// Whether its first byte is another there.
pub(crate) fn is_changed(file: u32) -> bool
    ensures { result ≡ copy.is_changed file }
{
    file % WIDTH == 3
}
