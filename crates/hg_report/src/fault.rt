//! Why a command ended without doing what it was asked for.

use hg_append::EncodeFault;
use hg_base::{Id20, OutOfMemory};
use hg_docket::{DocketFault, Idents};
use hg_image::NodeFault;
use hg_listing::StatusFault;
use hg_ops::OpFault;
use hg_words::WordsFault;
use std::alloc::{AllocError, AllocFailed};

/// Why a command ended without doing what it was asked for.
#[derive(Drop)]
pub enum Fault {
    /// There was no memory.
    OutOfMemory,
    /// What was asked for isn't built yet.
    NotBuilt,
    /// There are no words.
    NoCommand,
    /// The first word names no command.
    UnknownCommand,
    /// The words behind the name of the command aren't those that it takes.
    Usage,
    /// The word of this place behind the name, from 1 and without the flags, isn't a node in 40 hexadecimal digits.
    BadNode { word: u32 },
    /// `.hg/dirstate` is damaged.
    Docket(DocketFault),
    /// The data file that `.hg/dirstate` names is damaged.
    Node(NodeFault),
    /// Each docket that was read named a data file that was then absent; these are their identifiers.
    DataGone { ids: Idents },
    /// The manifest of the first parent is absent.
    NoManifest { id: Id20 },
    /// It has so many bytes, over 67,108,864.
    ManifestTooLarge { size: u64 },
    /// Its line of that number, from 1, has not the form of one.
    ManifestLine { line: u32 },
    /// The path of that line, from 1, is not greater than that of the line before.
    ManifestOrder { line: u32 },
    /// The file of a row's contents is absent.
    NoContents { id: Id20 },
    /// `.hgignore` has so many bytes, over 1,048,576.
    IgnoreTooLarge { size: u64 },
    /// At this byte it isn't UTF-8.
    IgnoreText { at: u32 },
    /// The glob of its line of that number, from 1, is none.
    BadGlob { line: u32 },
    /// The regexp of that line is none, or nested too deep.
    BadRegexp { line: u32 },
    /// The regexp of that line was refused for its size.
    RegexpTooBig { line: u32 },
    /// That line names another file, which isn't read yet.
    BadInclude { line: u32 },
    /// Another process holds the lock of the working copy.
    Held,
    /// The data file would have so many bytes, over 4,294,967,295.
    TooLarge { size: u64 },
    /// No identifier is left for a data file.
    IdsSpent,
    /// The working copy failed.
    TreeFailed,
    /// The files below `.hg` failed.
    ShelfFailed,
    /// Standard input failed.
    InFailed,
    /// Standard output failed.
    OutFailed,
    /// The error stream failed while warnings were written.
    ErrFailed,
    /// The line of that number of a script, from 1, is over 65,536 bytes long.
    ScriptLine { n: u32 },
    /// That line isn't UTF-8.
    ScriptText { n: u32 },
    /// The command of that line is a script itself.
    ScriptNested { n: u32 },
    /// The script has at least so many bytes, over 67,108,864.
    ScriptTooLarge { size: u64 },
}

impl From<OutOfMemory> for Fault {
    ghost use Rattle.std.specs.Prelude.{◌≡◌};
    ghost use Rattle.hg_report.specs.declared.fault.Fault.TheVariants as a_fault;

    ghost from_gives = { λ _ e. e ≡ a_fault.OutOfMemory };

    fn from(_: OutOfMemory) -> Fault {
        Fault::OutOfMemory
    }
}

impl From<AllocError> for Fault {
    ghost use Rattle.std.specs.Prelude.{◌≡◌};
    ghost use Rattle.hg_report.specs.declared.fault.Fault.TheVariants as a_fault;

    ghost from_gives = { λ _ e. e ≡ a_fault.OutOfMemory };

    fn from(_: AllocError) -> Fault {
        Fault::OutOfMemory
    }
}

impl<T: Drop> From<AllocFailed<T>> for Fault {
    ghost use Rattle.std.specs.Prelude.{◌≡◌};
    ghost use Rattle.hg_report.specs.declared.fault.Fault.TheVariants as a_fault;

    ghost from_gives = { λ _ e. e ≡ a_fault.OutOfMemory };

    fn from(_: AllocFailed<T>) -> Fault {
        Fault::OutOfMemory
    }
}

impl From<DocketFault> for Fault {
    ghost use Rattle.std.specs.Prelude.{◌≡◌};
    ghost use Rattle.hg_report.specs.declared.fault.Fault.TheVariants as a_fault;

    ghost from_gives = { λ f e. e ≡ a_fault.Docket f };

    fn from(fault: DocketFault) -> Fault {
        Fault::Docket(fault)
    }
}

impl From<NodeFault> for Fault {
    ghost use Rattle.std.specs.Prelude.{◌≡◌};
    ghost use Rattle.hg_report.specs.declared.fault.Fault.TheVariants as a_fault;

    ghost from_gives = { λ f e. e ≡ a_fault.Node f };

    fn from(fault: NodeFault) -> Fault {
        Fault::Node(fault)
    }
}

impl From<StatusFault> for Fault {
    ghost use Rattle.std.specs.Prelude.{◌≡◌};
    ghost use Rattle.hg_report.specs.Cause.{of_status};

    ghost from_gives = { λ f e. e ≡ of_status f };

    fn from(fault: StatusFault) -> Fault {
        match fault {
            StatusFault::OutOfMemory => Fault::OutOfMemory,
            StatusFault::TreeFailed => Fault::TreeFailed,
            StatusFault::ShelfFailed => Fault::ShelfFailed,
            StatusFault::NoManifest { id } => Fault::NoManifest { id },
            StatusFault::ManifestTooLarge { size } => Fault::ManifestTooLarge { size },
            StatusFault::ManifestLine { line } => Fault::ManifestLine { line },
            StatusFault::ManifestOrder { line } => Fault::ManifestOrder { line },
            StatusFault::NoContents { id } => Fault::NoContents { id },
            StatusFault::IgnoreTooLarge { size } => Fault::IgnoreTooLarge { size },
            StatusFault::IgnoreText { at } => Fault::IgnoreText { at },
            StatusFault::BadGlob { line } => Fault::BadGlob { line },
            StatusFault::BadRegexp { line } => Fault::BadRegexp { line },
            StatusFault::RegexpTooBig { line } => Fault::RegexpTooBig { line },
            StatusFault::BadInclude { line } => Fault::BadInclude { line },
        }
    }
}

impl From<EncodeFault> for Fault {
    ghost use Rattle.std.specs.Prelude.{◌≡◌};
    ghost use Rattle.hg_report.specs.Cause.{of_encode};

    ghost from_gives = { λ f e. e ≡ of_encode f };

    fn from(fault: EncodeFault) -> Fault {
        match fault {
            EncodeFault::OutOfMemory => Fault::OutOfMemory,
            EncodeFault::TooLarge { size } => Fault::TooLarge { size },
            EncodeFault::IdsSpent => Fault::IdsSpent,
        }
    }
}

impl From<OpFault> for Fault {
    ghost use Rattle.std.specs.Prelude.{◌≡◌};
    ghost use Rattle.hg_report.specs.Cause.{of_op};

    ghost from_gives = { λ f e. e ≡ of_op f };

    fn from(fault: OpFault) -> Fault {
        match fault {
            OpFault::OutOfMemory => Fault::OutOfMemory,
            OpFault::TreeFailed => Fault::TreeFailed,
            OpFault::ShelfFailed => Fault::ShelfFailed,
            OpFault::NoManifest { id } => Fault::NoManifest { id },
            OpFault::ManifestTooLarge { size } => Fault::ManifestTooLarge { size },
            OpFault::ManifestLine { line } => Fault::ManifestLine { line },
            OpFault::ManifestOrder { line } => Fault::ManifestOrder { line },
            OpFault::NoContents { id } => Fault::NoContents { id },
        }
    }
}

impl From<WordsFault> for Fault {
    ghost use Rattle.std.specs.Prelude.{◌≡◌};
    ghost use Rattle.hg_report.specs.Cause.{of_words};

    ghost from_gives = { λ f e. e ≡ of_words f };

    fn from(fault: WordsFault) -> Fault {
        match fault {
            WordsFault::OutOfMemory => Fault::OutOfMemory,
            WordsFault::NoCommand => Fault::NoCommand,
            WordsFault::UnknownCommand => Fault::UnknownCommand,
            WordsFault::Usage => Fault::Usage,
            WordsFault::BadNode { word } => Fault::BadNode { word },
        }
    }
}
