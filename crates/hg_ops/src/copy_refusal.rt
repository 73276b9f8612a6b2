//! Which word of a copy is refused.

use crate::refusal::Refusal;

/// Which word of a copy was refused, and why.
#[derive(Debug, Drop)]
pub enum CopyRefusal {
    /// The source: `BadPath`, `NotTracked`, `NotThere` or `Special`.
    Source(Refusal),
    /// The target: `BadPath`, `Exists` or `Clash`.
    Target(Refusal),
}
