//! A text that is read once, to be asked of many globs.

ghost use Rattle.std.specs.Prelude.{◌≡◌};

use crate::short::Short;
use std::marker::Model;

/// A text, read once for any number of globs; contracts see the text. It takes no memory.
#[derive(Debug, Drop)]
pub struct Subject<'t> {
    pub(crate) text: &'t str,
    pub(crate) short: Short,
    /// Whether `short` has the characters of the whole text.
    pub(crate) is_short: bool,
}

impl<'t> Model for Subject<'t> {
    ghost use Rattle.std.specs.Prelude.{List, ℕ};
    ghost use Rattle.hg_glob.specs.Kept.{IsRead};

    ghost Value = { List ℕ };

    ghost view = { λ s. s.text.now };

    ghost invariant = { λ s. IsRead s.text.now s.short s.is_short };
}

impl<'t> Subject<'t> {
    /// Reads the text, which takes about as long as asking it of two or three short globs.
    pub fn new(text: &'t str) -> Subject<'t>
        ensures { result ≡ text.now }
    {
        let mut short = Short::new();
        let is_short = short.read(text);
        short.prepare();
        Subject {
            text,
            short,
            is_short,
        }
    }
}
