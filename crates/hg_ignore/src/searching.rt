//! Asking an ignore state about paths.

ghost use Rattle.std.specs.Prelude.{◌≡◌, ◌↔◌, IsTrue};
ghost use Rattle.hg_ignore.specs.Asked.{state_asked};
ghost use Rattle.hg_ignore.specs.State.{Ignored, Matches};

use crate::matcher::Matcher;
use crate::sets::some_found;
use hg_base::PathRef;

impl<'i> Matcher<'i> {
    /// Whether a line matches the text of a path.
    fn matches_text(&mut self, path: &str) -> bool
        ensures matches { IsTrue result ↔ Matches (state_asked self.old) path.now }
        ensures same { state_asked self.new ≡ state_asked self.old }
    {
        if self.ignore.some_stands(path) {
            return true;
        }
        some_found(&mut self.sets, path)
    }

    /// Whether a line matches the path itself; the directories above it aren't asked.
    pub fn matches(&mut self, path: PathRef<'_>) -> bool
        ensures matches { IsTrue result ↔ Matches (state_asked self.old) path.entry.text.now }
        ensures same { state_asked self.new ≡ state_asked self.old }
    {
        self.matches_text(path.text)
    }

    /// Whether a line matches the path or a directory above it.
    pub fn ignored(&mut self, path: PathRef<'_>) -> bool
        ensures ignored { IsTrue result ↔ Ignored (state_asked self.old) path.entry.text.now }
        ensures same { state_asked self.new ≡ state_asked self.old }
    {
        let mut left = path;
        loop {
            if self.matches(left) {
                return true;
            }
            match left.parent() {
                None => return false,
                Some(dir) => left = dir,
            }
        }
    }
}
