//! The file of ignore patterns, as a tree has it.

ghost use Rattle.std.specs.Prelude.{◌≡◌, ◌⊎◌, ◌++◌, ◌≤◌, ◌<◌, ◌^◌, IsTrue, IfOk, IfErr, IfSome, OnOk, length, option_map};
ghost use Rattle.hg_base.specs.Fault.{HasCause};
ghost use Rattle.hg_tree.specs.History.{Passes, now};
ghost use Rattle.hg_ignore.specs.Source as source;
ghost use Rattle.hg_ignore.specs.Source.{AsksOnce, AsksRight, BytesDuring, HasReadCause, HasSizeCause, IsOfReading, MayAsk, text_at, the_read};
ghost use Rattle.hg_ignore.specs.declared.fault.IgnoreFault.TheVariants as a_fault;

use crate::fault::IgnoreFault;
use hg_base::{Got, Kind, PathRef, Stat};
use hg_tree::Tree;
use std::alloc::Global;

/// The file of ignore patterns, at the root.
const FILE: &str = ".hgignore";

/// The size that a stat shows of a file.
fn file_size(found: Option<Stat>) -> Option<u64>
    ensures { result ≡ source.file_size found }
{
    match found {
        None => None,
        Some(stat) => match stat.kind {
            Kind::File => Some(stat.size),
            Kind::Link | Kind::Dir | Kind::Other => None,
        },
    }
}

/// One read of the file's bytes, at most so many, where it is still there.
fn read_file<T: Tree>(
    alloc: Global,
    tree: &mut T,
    most: usize,
) -> Result<Option<Vec<u8>>, IgnoreFault>
    requires { most < 2 ^ 32 }
    ensures passes { Passes (T.history tree.old) (T.history tree.new) }
    ensures asked { IsTrue (T.history tree.old).told → MayAsk (T.history tree.old) (T.history tree.new) }
    ensures asks { IsTrue (T.history tree.old).told → OnOk result ((T.history tree.new).asked ≡ (T.history tree.old).asked ++ the_read) }
    ensures found { IsTrue (T.history tree.old).told → IfOk result (λ bytes. option_map (λ v. v.items) bytes ≡ text_at (now (T.history tree.new))) }
    ensures within { IfOk result (λ bytes. IfSome bytes (λ v. length v.items ≤ most)) }
    ensures large { IsTrue (T.history tree.old).told → IfErr result (HasReadCause most (T.history tree.new)) }
    ensures kind { IfErr result (IsOfReading most) }
    ensures cause { HasCause (T.faults tree.old) (T.faults tree.new) result (λ e. e ≡ a_fault.Failed) }
    ensures stayed { IfErr result (λ e. (e ≡ a_fault.Failed) ⊎ (T.faults tree.new ≡ T.faults tree.old)) }
{
    let mut bytes = vec![in alloc; 0u8; most + 1]?;
    match tree.read(PathRef { text: FILE }, 0, bytes.as_mut_slice()) {
        Err(_) => Err(IgnoreFault::Failed),
        Ok(Got::Absent) => Ok(None),
        Ok(Got::Bytes(n)) => {
            if n > most {
                return Err(IgnoreFault::IgnoreTooLarge { size: n as u64 });
            }
            bytes.truncate(n);
            Ok(Some(bytes))
        }
    }
}

/// The file's bytes, or none where no file stands there; a link isn't followed. More than `most` are refused.
pub fn read_bytes<T: Tree>(
    alloc: Global,
    tree: &mut T,
    most: usize,
) -> Result<Option<Vec<u8>>, IgnoreFault>
    requires { most < 2 ^ 32 }
    ensures passes { Passes (T.history tree.old) (T.history tree.new) }
    ensures asked { IsTrue (T.history tree.old).told → AsksOnce (T.history tree.old) (T.history tree.new) }
    ensures asks { IsTrue (T.history tree.old).told → OnOk result (AsksRight (T.history tree.old) (T.history tree.new)) }
    ensures found { IsTrue (T.history tree.old).told → IfOk result (λ bytes. BytesDuring (T.history tree.old) (T.history tree.new) (option_map (λ v. v.items) bytes)) }
    ensures within { IfOk result (λ bytes. IfSome bytes (λ v. length v.items ≤ most)) }
    ensures size { IsTrue (T.history tree.old).told → IfErr result (HasSizeCause most (T.history tree.old) (T.history tree.new)) }
    ensures kind { IfErr result (IsOfReading most) }
    ensures cause { HasCause (T.faults tree.old) (T.faults tree.new) result (λ e. e ≡ a_fault.Failed) }
    ensures stayed { IfErr result (λ e. (e ≡ a_fault.Failed) ⊎ (T.faults tree.new ≡ T.faults tree.old)) }
{
    match tree.stat(PathRef { text: FILE }) {
        Err(_) => Err(IgnoreFault::Failed),
        Ok(found) => match file_size(found) {
            None => Ok(None),
            Some(size) => {
                if size > most as u64 {
                    return Err(IgnoreFault::IgnoreTooLarge { size });
                }
                read_file(alloc, tree, most)
            }
        },
    }
}
