//! Where a data file ends.

ghost use Rattle.std.specs.Prelude.{◌≡◌, ◌<◌, ◌≤◌, ◌^◌, IfOk, IfErr};
ghost use Rattle.hg_append.specs.Encoded.{end_in};
ghost use Rattle.hg_append.specs.declared.fault.EncodeFault.TheVariants.{TooLarge};

use crate::fault::EncodeFault;

/// The last place that 32 bits can name.
pub const LAST: u64 = 4_294_967_295;

/// Where a data file ends that has so many used bytes, and more behind them. Past the last place that 32 bits can name, the refusal
/// is that sum, or the greatest number of 64 bits where the sum is greater.
pub fn end_of(used: u32, more: u64) -> Result<u32, u64>
    ensures { result ≡ end_in used more }
{
    let end = (used as u64).saturating_add(more);
    if end > LAST {
        return Err(end);
    }
    Ok(end as u32)
}

/// The used size of a data file that ends there.
pub fn used_to(end: u64) -> Result<u32, EncodeFault>
    ensures ok { IfOk result (λ used. (used ≡ end) × (end < 2 ^ 32)) }
    ensures err { IfErr result (λ e. (e ≡ TooLarge end) × (2 ^ 32 ≤ end)) }
{
    match end_of(0, end) {
        Ok(used) => Ok(used),
        Err(size) => Err(EncodeFault::TooLarge { size }),
    }
}
