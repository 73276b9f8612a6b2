//! The one copy of `copy`.

ghost use Rattle.std.specs.Prelude.{◌≡◌, ◌<◌, Err, IfErr, IfOk, OnOk, false};
ghost use Rattle.hg_base.specs.Fault.{HasCause};
ghost use Rattle.hg_mixed.specs.Edits.{IsOfSameImage};
ghost use Rattle.hg_mixed.specs.Held.{table};
ghost use Rattle.hg_ops.specs.Copy.{IsCopyFault};
ghost use Rattle.hg_ops.specs.declared.refusal.OpFault.TheVariants as an_op_fault;
ghost use Rattle.hg_session.specs.Acts.{IsCopied, OnlyPuts, copy_line};
ghost use Rattle.hg_session.specs.Call.{watched};
ghost use Rattle.hg_session.specs.Kept.{KeepsLent};

use hg_base::OutOfMemory;
use hg_mixed::Mixed;
use hg_ops::{CopyRefusal, OpFault, copy};
use hg_report::refusal_text;
use hg_tree::Tree;
use std::alloc::Global;

// The line of a refusal, which names the word that it is about.
fn line_of(
    alloc: Global,
    source: &str,
    target: &str,
    refused: &Option<CopyRefusal>,
) -> Result<Vec<u8>, OutOfMemory>
    ensures { IfOk result (λ line. line.items ≡ copy_line source.now target.now refused.now) }
{
    match refused {
        None => Ok(Vec::new(alloc)),
        Some(CopyRefusal::Source(refusal)) => refusal_text(alloc, "copy", source, refusal),
        Some(CopyRefusal::Target(refusal)) => refusal_text(alloc, "copy", target, refusal),
    }
}

// The same, or that there is no memory for it.
fn told(
    alloc: Global,
    source: &str,
    target: &str,
    refused: &Option<CopyRefusal>,
) -> Result<Vec<u8>, OpFault>
    ensures line { IfOk result (λ line. line.items ≡ copy_line source.now target.now refused.now) }
    ensures memory { IfErr result (λ e. e ≡ an_op_fault.OutOfMemory) }
{
    match line_of(alloc, source, target, refused) {
        Err(_) => Err(OpFault::OutOfMemory),
        Ok(line) => Ok(line),
    }
}

/// Copies a file or link that is tracked, and answers the line of the word that was refused.
pub(crate) fn copy_one<T: Tree>(
    alloc: Global,
    source: &str,
    target: &str,
    mixed: &mut Mixed<'_>,
    tree: &mut T,
) -> Result<Vec<u8>, OpFault>
    // `IsCopied` in specs/Acts.antt; of a table in which nothing was changed before.
    ensures does { mixed.old.changed ≡ false
        → IfOk
        result
        (λ line. IsCopied
        source.now
        target.now
        (watched T.history T.faults tree.old tree.new)
        (table mixed.old)
        (table mixed.new)
        line.items
        mixed.new.changed) }
    ensures lent { OnOk result (KeepsLent mixed.old mixed.new) }
    ensures image { IsOfSameImage mixed.old mixed.new }
    ensures puts { OnlyPuts
        source.now
        target.now
        (table mixed.old)
        (watched T.history T.faults tree.old tree.new) }
    ensures kind { IfErr result IsCopyFault }
    ensures cause { HasCause (T.faults tree.old) (T.faults tree.new) result (λ e. e ≡ an_op_fault.TreeFailed) }
    ensures failed { T.faults tree.old < T.faults tree.new → result ≡ Err an_op_fault.TreeFailed }
{
    let refused = copy(alloc, mixed, tree, source, target)?;
    let line = told(alloc, source, target, &refused)?;
    Ok(line)
}
