// Steps, made from borrowed names and bytes.
ghost use Rattle.std.specs.Prelude.{◌≡◌, IfOk};
ghost use Rattle.hg_shelf.specs.Memory as memory;
ghost use Rattle.hg_shelf.specs.declared.outside.Step.TheVariants as a_step;

use crate::outside::{Outside, Step};
use hg_base::{Blob, OutOfMemory, Text};
use std::alloc::Global;

/// A file that another puts.
pub fn placed(alloc: Global, name: &str, bytes: &[u8]) -> Result<Step, OutOfMemory>
    ensures { IfOk result (λ step. step ≡ a_step.Placed name.now bytes.now) }
{
    let name = Text::of(alloc, name)?;
    let bytes = Blob::of(alloc, bytes)?;
    Ok(Step::Placed { name, bytes })
}

/// What another does.
pub fn step_of(alloc: Global, change: &Outside) -> Result<Step, OutOfMemory>
    ensures { IfOk result (λ step. step ≡ memory.step_of change.now) }
{
    match change {
        Outside::Place { name, bytes } => placed(alloc, name.as_str(), bytes.as_bytes()),
        Outside::Remove { name } => {
            let name = Text::of(alloc, name.as_str())?;
            Ok(Step::Taken { name })
        }
    }
}

/// A write.
pub fn wrote(alloc: Global, name: &str, place: u64, bytes: &[u8]) -> Result<Step, OutOfMemory>
    ensures { IfOk result (λ step. step ≡ a_step.Wrote name.now place bytes.now) }
{
    let name = Text::of(alloc, name)?;
    let bytes = Blob::of(alloc, bytes)?;
    Ok(Step::Wrote { name, place, bytes })
}

/// A sync of a file.
pub fn synced(alloc: Global, name: &str) -> Result<Step, OutOfMemory>
    ensures { IfOk result (λ step. step ≡ a_step.Synced name.now) }
{
    let name = Text::of(alloc, name)?;
    Ok(Step::Synced { name })
}

/// A rename.
pub fn renamed(alloc: Global, from: &str, to: &str) -> Result<Step, OutOfMemory>
    ensures { IfOk result (λ step. step ≡ a_step.Renamed from.now to.now) }
{
    let from = Text::of(alloc, from)?;
    let to = Text::of(alloc, to)?;
    Ok(Step::Renamed { from, to })
}

/// A removal.
pub fn removed(alloc: Global, name: &str) -> Result<Step, OutOfMemory>
    ensures { IfOk result (λ step. step ≡ a_step.Removed name.now) }
{
    let name = Text::of(alloc, name)?;
    Ok(Step::Removed { name })
}
