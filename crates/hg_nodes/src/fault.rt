//! Why an entry isn't set.

ghost use Rattle.std.specs.Prelude.{◌≡◌};
ghost use Rattle.hg_nodes.specs.declared.fault.SetFault.TheVariants as a_fault;

use hg_base::{OutOfMemory, Path};
use thiserror::Error;

/// Why an entry isn't set.
#[derive(Debug, Drop, Error)]
pub enum SetFault {
    /// No memory for a node.
    #[error("out of memory")]
    OutOfMemory,
    /// Another path is tracked already, and the one stands below the other: of these paths the least by bytes.
    #[error("{} is tracked", other.as_str())]
    Clash { other: Path },
}

impl From<OutOfMemory> for SetFault {
    ghost from_gives = { λ _ e. e ≡ a_fault.OutOfMemory };

    fn from(_: OutOfMemory) -> SetFault {
        SetFault::OutOfMemory
    }
}
