//! Why a status could not be listed.

use hg_base::{Failed, Id20, OutOfMemory};
use hg_compare::CompareFault;
use hg_ignore::IgnoreFault;
use hg_manifest::ManifestFault;
use hg_tree::TreeFault;
use std::alloc::{AllocError, AllocFailed};

/// Why a status could not be listed.
#[derive(Debug, Drop, PartialEq, Eq)]
pub enum StatusFault {
    /// There was no memory.
    OutOfMemory,
    /// The working copy failed, and its count of failures rose.
    TreeFailed,
    /// The files below `.hg` failed, and their count of failures rose.
    ShelfFailed,
    /// The manifest of the first parent is absent.
    NoManifest { id: Id20 },
    /// It has so many bytes, over 67,108,864.
    ManifestTooLarge { size: u64 },
    /// Its line of that number, from 1, has not the form of one.
    ManifestLine { line: u32 },
    /// The path of that line, from 1, is not greater than that of the line before.
    ManifestOrder { line: u32 },
    /// The file of a row's contents is absent.
    NoContents { id: Id20 },
    /// `.hgignore` has so many bytes, over 1,048,576.
    IgnoreTooLarge { size: u64 },
    /// At this byte it isn't UTF-8.
    IgnoreText { at: u32 },
    /// The glob of its line of that number, from 1, is none.
    BadGlob { line: u32 },
    /// The regexp of that line is none, or nested too deep.
    BadRegexp { line: u32 },
    /// The regexp of that line was refused for its size.
    RegexpTooBig { line: u32 },
    /// That line names another file, which isn't read yet.
    BadInclude { line: u32 },
}

impl From<OutOfMemory> for StatusFault {
    ghost use Rattle.std.specs.Prelude.{◌≡◌};
    ghost use Rattle.hg_listing.specs.declared.fault.StatusFault.TheVariants as a_fault;

    ghost from_gives = { λ _ e. e ≡ a_fault.OutOfMemory };

    fn from(_: OutOfMemory) -> StatusFault {
        StatusFault::OutOfMemory
    }
}

impl From<AllocError> for StatusFault {
    ghost use Rattle.std.specs.Prelude.{◌≡◌};
    ghost use Rattle.hg_listing.specs.declared.fault.StatusFault.TheVariants as a_fault;

    ghost from_gives = { λ _ e. e ≡ a_fault.OutOfMemory };

    fn from(_: AllocError) -> StatusFault {
        StatusFault::OutOfMemory
    }
}

impl<T: Drop> From<AllocFailed<T>> for StatusFault {
    ghost use Rattle.std.specs.Prelude.{◌≡◌};
    ghost use Rattle.hg_listing.specs.declared.fault.StatusFault.TheVariants as a_fault;

    ghost from_gives = { λ _ e. e ≡ a_fault.OutOfMemory };

    fn from(_: AllocFailed<T>) -> StatusFault {
        StatusFault::OutOfMemory
    }
}

impl From<Failed> for StatusFault {
    ghost use Rattle.std.specs.Prelude.{◌≡◌};
    ghost use Rattle.hg_listing.specs.declared.fault.StatusFault.TheVariants as a_fault;

    ghost from_gives = { λ _ e. e ≡ a_fault.TreeFailed };

    fn from(_: Failed) -> StatusFault {
        StatusFault::TreeFailed
    }
}

impl From<TreeFault> for StatusFault {
    ghost use Rattle.std.specs.Prelude.{◌≡◌};
    ghost use Rattle.hg_listing.specs.Cause.{of_tree};

    ghost from_gives = { λ f e. e ≡ of_tree f };

    fn from(fault: TreeFault) -> StatusFault {
        match fault {
            TreeFault::OutOfMemory => StatusFault::OutOfMemory,
            TreeFault::Failed => StatusFault::TreeFailed,
        }
    }
}

impl From<IgnoreFault> for StatusFault {
    ghost use Rattle.std.specs.Prelude.{◌≡◌};
    ghost use Rattle.hg_listing.specs.Cause.{of_ignore};

    ghost from_gives = { λ f e. e ≡ of_ignore f };

    fn from(fault: IgnoreFault) -> StatusFault {
        match fault {
            IgnoreFault::OutOfMemory => StatusFault::OutOfMemory,
            IgnoreFault::Failed => StatusFault::TreeFailed,
            IgnoreFault::IgnoreTooLarge { size } => StatusFault::IgnoreTooLarge { size },
            IgnoreFault::IgnoreText { at } => StatusFault::IgnoreText { at },
            IgnoreFault::BadGlob { line } => StatusFault::BadGlob { line },
            IgnoreFault::BadRegexp { line } => StatusFault::BadRegexp { line },
            IgnoreFault::RegexpTooBig { line } => StatusFault::RegexpTooBig { line },
            IgnoreFault::BadInclude { line } => StatusFault::BadInclude { line },
        }
    }
}

impl From<ManifestFault> for StatusFault {
    ghost use Rattle.std.specs.Prelude.{◌≡◌};
    ghost use Rattle.hg_listing.specs.Cause.{of_manifest};

    ghost from_gives = { λ f e. e ≡ of_manifest f };

    fn from(fault: ManifestFault) -> StatusFault {
        match fault {
            ManifestFault::OutOfMemory => StatusFault::OutOfMemory,
            ManifestFault::Failed => StatusFault::ShelfFailed,
            ManifestFault::NoManifest { id } => StatusFault::NoManifest { id },
            ManifestFault::ManifestTooLarge { size } => StatusFault::ManifestTooLarge { size },
            ManifestFault::ManifestLine { line } => StatusFault::ManifestLine { line },
            ManifestFault::ManifestOrder { line } => StatusFault::ManifestOrder { line },
        }
    }
}

impl From<CompareFault> for StatusFault {
    ghost use Rattle.std.specs.Prelude.{◌≡◌};
    ghost use Rattle.hg_listing.specs.Cause.{of_compare};

    ghost from_gives = { λ f e. e ≡ of_compare f };

    fn from(fault: CompareFault) -> StatusFault {
        match fault {
            CompareFault::NoContents { id } => StatusFault::NoContents { id },
            CompareFault::TreeFailed => StatusFault::TreeFailed,
            CompareFault::ShelfFailed => StatusFault::ShelfFailed,
        }
    }
}
