//! Laws of the definitions.

ghost use Rattle.std.specs.Prelude.{ℕ, List, IsTrue};
ghost use Rattle.hg_base.specs.Within.{is_within};
ghost use Rattle.hg_tree.specs.History.{Extends, History};
ghost use Rattle.hg_ignore.specs.Kept.{LawOfIgnored};
ghost use Rattle.hg_ignore.specs.Patterns.{Apart};
ghost use Rattle.hg_ignore.specs.State.{Ignored, Piece, Texts};

/// The law of a listing: a path is ignored where its directory is, or where a line matches the path itself.
pub fn ignored_with_directory()
    ensures { LawOfIgnored }
{}

/// What lies below an ignored path is ignored.
pub fn ignored_below()
    ensures { (state : List Piece) (at path : List ℕ) → Ignored state at → IsTrue (is_within at path) → Ignored state path }
{}

/// A state that could be read still can over an extension of the history.
pub fn still_read()
    ensures { (old new : History) (state : List Piece) → Extends old new → Texts old state → Texts new state }
{}

/// States that a longer history tells apart, a shorter one does.
pub fn apart_before()
    ensures { (old new : History) → Extends old new → Apart new → Apart old }
{}
