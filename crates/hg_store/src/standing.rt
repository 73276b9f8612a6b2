//! What stands under the name of a text.

/// What stands under the name of a text: nothing, the same bytes, or others.
#[derive(Clone, Copy, Debug, PartialEq, Eq)]
pub(crate) enum Standing {
    Absent,
    Same,
    Other,
}
