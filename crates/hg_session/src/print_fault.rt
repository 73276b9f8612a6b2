//! Why the record could not be printed.

use crate::read_fault::ReadFault;
use hg_report::Fault;

/// Why the record could not be printed.
#[derive(Drop)]
pub enum PrintFault {
    /// The record could not be read.
    Read(ReadFault),
    /// Standard output failed, and its count of failures rose.
    OutFailed,
}

impl From<ReadFault> for PrintFault {
    ghost use Rattle.std.specs.Prelude.{◌≡◌};
    ghost use Rattle.hg_session.specs.declared.print_fault.PrintFault.TheVariants as a_fault;

    ghost from_gives = { λ f e. e ≡ a_fault.Read f };

    fn from(fault: ReadFault) -> PrintFault {
        PrintFault::Read(fault)
    }
}

impl From<PrintFault> for Fault {
    ghost use Rattle.std.specs.Prelude.{◌≡◌};
    ghost use Rattle.hg_session.specs.Load.{of_print};

    ghost from_gives = { λ f e. e ≡ of_print f };

    fn from(fault: PrintFault) -> Fault {
        match fault {
            PrintFault::Read(fault) => Fault::from(fault),
            PrintFault::OutFailed => Fault::OutFailed,
        }
    }
}
