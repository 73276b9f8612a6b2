//! What a pass over all ends of a short path carries along. Each word has one bit for each end: bit i is the end of i characters.

/// Of one pair of braces: the ends that are accepted behind it, and those that are from a choice on that was passed.
#[derive(Clone, Copy, Debug)]
pub struct Fork {
    pub after: u64,
    pub found: u64,
}

/// The ends that are accepted from a part on, those whose first character is in the class, and how many braces are around.
#[derive(Clone, Copy, Debug)]
pub struct Column {
    pub now: u64,
    pub hit: u64,
    pub depth: usize,
}

/// Over the last characters of a long path the ends that are accepted from a part on, those whose first character is in the class,
/// and whether a longer end may be accepted. No braces are around.
#[derive(Clone, Copy, Debug)]
pub struct Reach {
    pub now: u64,
    pub hit: u64,
    pub beyond: bool,
}
