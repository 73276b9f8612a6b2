//! A range of nodes.

/// The nodes from one place on up to another, by their order.
#[derive(Clone, Copy, Debug)]
pub struct Span {
    pub from: usize,
    pub upto: usize,
}
