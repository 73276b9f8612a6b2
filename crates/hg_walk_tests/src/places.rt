// Where things stand, and what is in them.

/// The paths of files, ascending by bytes.
pub(crate) const PATHS: &[&str] = &["a", "b.o", "d-e", "d/a", "d/e/b", "f/g/h", "i/a"];

/// The directories above them, and one where a file may be, each behind those above it.
pub(crate) const DIRS: &[&str] = &["a", "d", "d/e", "f", "f/g", "i"];

/// The places of things: those of files, two of directories, one below a file, and a new one.
pub(crate) const PLACES: &[&str] = &[
    "a", "b.o", "d-e", "d/a", "d/e/b", "f/g/h", "i/a", "a/c", "d", "d/e", "new",
];

/// What files have in them, and where links lead: mostly texts of one size.
pub(crate) const TEXTS: &[&str] = &["one\n", "two\n", "ten\n", "seven\n", ""];

/// What `.hgignore` says.
pub(crate) const PATTERNS: &[&str] = &[
    "",
    "syntax: glob\n*.o\n",
    "syntax: glob\ni\nnew\n",
    "syntax: nonsense\nx\nsyntax: rootglob\nd/e\n",
];
