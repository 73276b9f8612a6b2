//! Whether a file can be made at a path: nothing stands there, and nothing but directories above.

ghost use Rattle.std.specs.Prelude.{◌≡◌, true, IfErr, IfOk, IsTrue};
ghost use Rattle.hg_ops.specs.Cause.{HasOpCause};
ghost use Rattle.hg_ops.specs.Putting.{SeesAbove, SeesPath, is_dir_kind};
ghost use Rattle.hg_ops.specs.declared.refusal.OpFault.TheVariants as a_fault;
ghost use Rattle.hg_tree.specs.History.{AreFormed, Passes};

use crate::refusal::OpFault;
use hg_base::{Kind, PathRef};
use hg_tree::Tree;

fn is_dir(kind: Kind) -> bool
    ensures { result ≡ is_dir_kind kind }
{
    match kind {
        Kind::Dir => true,
        Kind::File | Kind::Link | Kind::Other => false,
    }
}

// Whether each directory above the path that is there is one; from the top.
fn is_clear_above<T: Tree>(tree: &mut T, path: PathRef<'_>) -> Result<bool, OpFault>
    ensures passes { Passes (T.history tree.old) (T.history tree.new) }
    ensures unasked { IsTrue (T.history tree.old).told → (T.history tree.new).asked ≡ (T.history tree.old).asked }
    ensures found { IfOk result (SeesAbove path.entry.text.now (T.history tree.old) (T.history tree.new)) }
    ensures cause { HasOpCause (T.faults tree.old) (T.faults tree.new) result }
    ensures kind { IfErr result (λ fault. fault ≡ a_fault.TreeFailed) }
{
    let Some(dir) = path.parent() else {
        return Ok(true);
    };
    match is_clear_above(tree, dir) {
        Err(fault) => Err(fault),
        Ok(false) => Ok(false),
        Ok(true) => match tree.stat(dir) {
            Err(_) => Err(OpFault::TreeFailed),
            Ok(None) => Ok(true),
            Ok(Some(stat)) => Ok(is_dir(stat.kind)),
        },
    }
}

/// Whether nothing stands at the path, and nothing but directories above it.
pub(crate) fn is_vacant<T: Tree>(tree: &mut T, path: PathRef<'_>) -> Result<bool, OpFault>
    ensures passes { Passes (T.history tree.old) (T.history tree.new) }
    ensures unasked { IsTrue (T.history tree.old).told → (T.history tree.new).asked ≡ (T.history tree.old).asked }
    ensures found { IfOk result (SeesPath path.entry.text.now (T.history tree.old) (T.history tree.new)) }
    ensures formed { IfOk result (λ vacant. vacant ≡ true → IsTrue (T.history tree.old).told → AreFormed (T.history tree.new)) }
    ensures cause { HasOpCause (T.faults tree.old) (T.faults tree.new) result }
    ensures kind { IfErr result (λ fault. fault ≡ a_fault.TreeFailed) }
{
    match is_clear_above(tree, path) {
        Err(fault) => Err(fault),
        Ok(false) => Ok(false),
        Ok(true) => match tree.stat(path) {
            Err(_) => Err(OpFault::TreeFailed),
            Ok(None) => Ok(true),
            Ok(Some(_)) => Ok(false),
        },
    }
}
