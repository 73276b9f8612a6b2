//! Why the record could not be changed.

use crate::read_fault::ReadFault;
use hg_append::EncodeFault;
use hg_ops::OpFault;
use hg_report::Fault;
use hg_save::PublishFault;

/// Why the record could not be changed.
#[derive(Drop)]
pub enum ChangeFault {
    /// The record could not be read.
    Read(ReadFault),
    /// What the command says could not be done.
    Op(OpFault),
    /// What it made can't be written.
    Encode(EncodeFault),
    /// Another process holds the lock of the working copy.
    Held,
    /// The files below `.hg` failed while the lock was taken or given back, or while the record was published.
    ShelfFailed,
}

impl From<ReadFault> for ChangeFault {
    ghost use Rattle.std.specs.Prelude.{◌≡◌};
    ghost use Rattle.hg_session.specs.declared.change_fault.ChangeFault.TheVariants as a_fault;

    ghost from_gives = { λ f e. e ≡ a_fault.Read f };

    fn from(fault: ReadFault) -> ChangeFault {
        ChangeFault::Read(fault)
    }
}

impl From<OpFault> for ChangeFault {
    ghost use Rattle.std.specs.Prelude.{◌≡◌};
    ghost use Rattle.hg_session.specs.declared.change_fault.ChangeFault.TheVariants as a_fault;

    ghost from_gives = { λ f e. e ≡ a_fault.Op f };

    fn from(fault: OpFault) -> ChangeFault {
        ChangeFault::Op(fault)
    }
}

impl From<PublishFault> for ChangeFault {
    ghost use Rattle.std.specs.Prelude.{◌≡◌};
    ghost use Rattle.hg_session.specs.Changing.{of_publish};

    ghost from_gives = { λ f e. e ≡ of_publish f };

    fn from(fault: PublishFault) -> ChangeFault {
        match fault {
            PublishFault::Encode(fault) => ChangeFault::Encode(fault),
            PublishFault::Failed => ChangeFault::ShelfFailed,
        }
    }
}

impl From<ChangeFault> for Fault {
    ghost use Rattle.std.specs.Prelude.{◌≡◌};
    ghost use Rattle.hg_session.specs.Change.{of_change};

    ghost from_gives = { λ f e. e ≡ of_change f };

    fn from(fault: ChangeFault) -> Fault {
        match fault {
            ChangeFault::Read(fault) => Fault::from(fault),
            ChangeFault::Op(fault) => Fault::from(fault),
            ChangeFault::Encode(fault) => Fault::from(fault),
            ChangeFault::Held => Fault::Held,
            ChangeFault::ShelfFailed => Fault::ShelfFailed,
        }
    }
}
