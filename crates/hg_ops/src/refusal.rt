//! Why a word is refused, and why a command stops.

ghost use Rattle.std.specs.Prelude.{◌≡◌};
ghost use Rattle.hg_ops.specs.Cause.{of_compare, of_manifest};

use hg_base::{Id20, Path};
use hg_compare::CompareFault;
use hg_manifest::ManifestFault;
use thiserror::Error;

/// Why a word was refused; it leaves the table and the working copy as they were.
///
/// `BadPath`: the word is no path. `NotThere`: nothing stands there. `NotTracked`: the path isn't tracked. `Special`: what stands there is neither a
/// file nor a link. `Clash`: the path `other` is tracked and stands above or below, the least such path by bytes. `Changed`: what stands there isn't what
/// the first parent has, or the path is marked for the second parent or was copied. `Added`: no parent has the path. `StillThere`: a file or a link
/// stands there. `Exists`: the path is tracked, or something stands there, or a proper ancestor is there that isn't a directory.
#[derive(Debug, Drop)]
pub enum Refusal {
    BadPath,
    NotThere,
    NotTracked,
    Special,
    Clash { other: Path },
    Changed,
    Added,
    StillThere,
    Exists,
}

/// Why a command stops: no memory, a failure of the working copy or of the files below `.hg`, whose count of failures rose, or what stands in the
/// plain store, which `remove` alone asks.
#[derive(Clone, Copy, Debug, PartialEq, Eq, Error)]
pub enum OpFault {
    #[error("out of memory")]
    OutOfMemory,
    #[error("the working copy can't be looked at")]
    TreeFailed,
    #[error("the files below .hg can't be read")]
    ShelfFailed,
    /// The manifest of the first parent is absent.
    #[error("the manifest is absent")]
    NoManifest { id: Id20 },
    /// It has so many bytes, over 67,108,864.
    #[error("the manifest is too large")]
    ManifestTooLarge { size: u64 },
    /// Its line of that number, from 1, has not the form of one.
    #[error("a line of the manifest is none")]
    ManifestLine { line: u32 },
    /// The path of that line, from 1, is not greater than that of the line before.
    #[error("the manifest is out of order")]
    ManifestOrder { line: u32 },
    /// The file of a row's contents is absent.
    #[error("the contents are absent")]
    NoContents { id: Id20 },
}

impl From<ManifestFault> for OpFault {
    ghost from_gives = { λ f e. e ≡ of_manifest f };

    fn from(fault: ManifestFault) -> OpFault {
        match fault {
            ManifestFault::OutOfMemory => OpFault::OutOfMemory,
            ManifestFault::Failed => OpFault::ShelfFailed,
            ManifestFault::NoManifest { id } => OpFault::NoManifest { id },
            ManifestFault::ManifestTooLarge { size } => OpFault::ManifestTooLarge { size },
            ManifestFault::ManifestLine { line } => OpFault::ManifestLine { line },
            ManifestFault::ManifestOrder { line } => OpFault::ManifestOrder { line },
        }
    }
}

impl From<CompareFault> for OpFault {
    ghost from_gives = { λ f e. e ≡ of_compare f };

    fn from(fault: CompareFault) -> OpFault {
        match fault {
            CompareFault::NoContents { id } => OpFault::NoContents { id },
            CompareFault::TreeFailed => OpFault::TreeFailed,
            CompareFault::ShelfFailed => OpFault::ShelfFailed,
        }
    }
}
