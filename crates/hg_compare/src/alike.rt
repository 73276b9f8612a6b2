//! What is compared before any byte is read, and behind the bytes.

ghost use Rattle.std.specs.Prelude.{◌≡◌};
ghost use Rattle.hg_compare.specs.Alike.{Settles, is_alike};

use hg_base::{Kind, Stat};
use hg_manifest::FileRow;

/// Whether what a look shows is of the row's kind, and a file has the row's executable bit.
pub(crate) fn is_alike(row: &FileRow, stat: &Stat) -> bool
    ensures { result ≡ is_alike row.now stat.now }
{
    match stat.kind {
        Kind::File => !row.link && row.exec == stat.exec,
        Kind::Link => row.link,
        Kind::Dir | Kind::Other => false,
    }
}

/// Whether two looks show the same.
pub(crate) fn is_settled(before: &Stat, after: &Stat) -> bool
    ensures { Settles result before.now after.now }
{
    if before.kind != after.kind {
        return false;
    }
    if before.exec != after.exec {
        return false;
    }
    if before.size != after.size {
        return false;
    }
    if before.mtime.seconds != after.mtime.seconds {
        return false;
    }
    before.mtime.nanos == after.mtime.nanos
}
