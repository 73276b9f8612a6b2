//! Why a table wasn't published.

use hg_append::EncodeFault;
use hg_base::Failed;

/// Why a table wasn't published.
#[derive(Drop)]
pub enum PublishFault {
    /// It can't be written; nothing was.
    Encode(EncodeFault),
    /// The files below `.hg` failed.
    Failed,
}

impl From<EncodeFault> for PublishFault {
    ghost use Rattle.std.specs.Prelude.{◌≡◌};
    ghost use Rattle.hg_save.specs.declared.publish_fault.PublishFault.TheVariants as a_fault;

    ghost from_gives = { λ f e. e ≡ a_fault.Encode f };

    fn from(fault: EncodeFault) -> PublishFault {
        PublishFault::Encode(fault)
    }
}

impl From<Failed> for PublishFault {
    ghost use Rattle.std.specs.Prelude.{◌≡◌};
    ghost use Rattle.hg_save.specs.declared.publish_fault.PublishFault.TheVariants as a_fault;

    ghost from_gives = { λ f e. e ≡ a_fault.Failed };

    fn from(_: Failed) -> PublishFault {
        PublishFault::Failed
    }
}
