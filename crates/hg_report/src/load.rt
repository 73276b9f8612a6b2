//! The text of two statuses over a working copy that was made from a number.

ghost use Rattle.std.specs.Prelude.{◌≡◌, IfOk};
ghost use Rattle.std.specs.String.{string_bytes};
ghost use Rattle.hg_report.specs.Load as load;

use hg_base::OutOfMemory;
use std::alloc::Global;

/// How many rows of each letter a status had, and of how many paths the bytes were asked for in it.
#[derive(Clone, Copy, Debug, PartialEq, Eq)]
pub struct Counts {
    pub modified: u64,
    pub added: u64,
    pub removed: u64,
    pub deleted: u64,
    pub unknown: u64,
    pub ignored: u64,
    pub clean: u64,
    pub read: u64,
}

// The numbers of what is tracked and isn't as the parent has it.
fn changed_text(alloc: Global, counts: Counts) -> Result<String, OutOfMemory>
    ensures { IfOk result (λ text. string_bytes text ≡ load.changed_text counts) }
{
    let (modified, added) = (counts.modified, counts.added);
    let (removed, deleted) = (counts.removed, counts.deleted);
    Ok(format!(in alloc; "M {modified} A {added} R {removed} ! {deleted}")?)
}

// The other numbers.
fn rest_text(alloc: Global, counts: Counts) -> Result<String, OutOfMemory>
    ensures { IfOk result (λ text. string_bytes text ≡ load.rest_text counts) }
{
    let (unknown, ignored) = (counts.unknown, counts.ignored);
    let (clean, read) = (counts.clean, counts.read);
    Ok(format!(in alloc; "? {unknown} I {ignored} C {clean} read {read}")?)
}

fn counts_text(alloc: Global, counts: Counts) -> Result<String, OutOfMemory>
    ensures { IfOk result (λ text. string_bytes text ≡ load.counts_text counts) }
{
    let changed = changed_text(alloc, counts)?;
    let rest = rest_text(alloc, counts)?;
    Ok(format!(in alloc; "{changed} {rest}")?)
}

/// The lines of both statuses behind one with the number of directories.
pub fn load_text(
    alloc: Global,
    dirs: u32,
    first: Counts,
    second: Counts,
) -> Result<String, OutOfMemory>
    ensures { IfOk result (λ text. string_bytes text ≡ load.load_text dirs first second) }
{
    let first = counts_text(alloc, first)?;
    let second = counts_text(alloc, second)?;
    Ok(format!(in alloc; "load {dirs}\nfirst {first}\nsecond {second}\n")?)
}
