//! What the calls of the file system answer, as the adapters over real files take it.

ghost use Rattle.std.specs.Prelude.{◌≡◌};
ghost use Rattle.hg_base.specs.Fault.{HasCause};

use hg_base::{Failed, risen};
use std::io::{Error, ErrorKind};

/// Nothing stands there: no such name, an ancestor that is no directory, or a name that is too long for the system to hold.
pub(crate) fn is_absence(error: &Error) -> bool {
    matches!(
        error.kind(),
        ErrorKind::NotFound | ErrorKind::NotADirectory | ErrorKind::InvalidFilename
    )
}

/// Counts a failure, and hands the answer on.
pub(crate) fn counted<T: Drop>(faults: &mut u64, answer: Result<T, Failed>) -> Result<T, Failed>
    ensures same { result ≡ answer }
    ensures cause { HasCause faults.old faults.new result (λ e. Unit {0}) }
{
    match answer {
        Ok(thing) => Ok(thing),
        Err(fault) => {
            *faults = risen(*faults);
            Err(fault)
        }
    }
}
