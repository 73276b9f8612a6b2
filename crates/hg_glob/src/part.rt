//! The parts of a glob, in the order of its text.

/// One part. Places count characters of the glob's text.
#[derive(Clone, Copy, Debug)]
pub enum Part {
    /// This character.
    Literal(char),
    /// Any one character.
    One,
    /// One character of the members that follow, or none of them.
    Class { negated: bool },
    /// A member of a class: the characters from `low` to `high`.
    Range { at: u32, low: char, high: char },
    /// Any text without a slash.
    Star,
    /// Any text.
    Any,
    /// Nothing, or any text that ends in a slash.
    Slashes,
    /// The beginning of choices.
    Open { at: u32 },
    /// The end of a choice before another.
    Comma,
    /// The end of choices.
    Close,
}
