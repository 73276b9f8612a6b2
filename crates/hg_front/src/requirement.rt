//! What the requirements of a repository ask of a program that keeps its dirstate (`.hg/requires`, help topic `config.format`).

ghost use Rattle.std.specs.Prelude.{◌≡◌};
ghost use Rattle.std.specs.Option.{option_map};
ghost use Rattle.hg_front.specs.Requirement as a_requirement;

/// What a requirement asks of a program that keeps the dirstate.
#[derive(Clone, Copy)]
pub(crate) enum Class {
    /// Nothing: it says how the store is kept, where that is, or that the dirstate is kept as it is here.
    Harmless,
    /// More of each command that changes the dirstate than is done here.
    Writers,
    /// A working copy of another kind.
    Unsupported,
    /// It isn't known what.
    Unknown,
}

const HARMLESS: &str =
    "bookmarksinstore dirstate-v2 dotencode exp-archived-phase exp-changelog-v2 exp-compression-none exp-compression-zlib exp-compression-zstd exp-copies-sidedata-changeset exp-revlogv2.2 fncache generaldelta internal-phase-2 persistent-nodemap relshared revlog-compression-zstd revlogv1 share-safe shared sparserevlog store treemanifest";

const WRITERS: &str = "dirstate-tracked-key-v1";

const UNSUPPORTED: &str = "exp-sparse git largefiles lfs narrowhg-experimental";

/// Whether a name is one of a table's, which stand one behind another with a space between them.
pub(crate) fn is_listed(table: &str, name: &str) -> bool
    ensures { result ≡ a_requirement.is_listed table.now name.now }
{
    table.split(' ').any(|listed| listed == name)
}

/// What the requirement of this name asks.
pub(crate) fn class_of(name: &str) -> Class
    ensures { result ≡ a_requirement.class_of name.now }
{
    if is_listed(HARMLESS, name) {
        return Class::Harmless;
    }
    if is_listed(WRITERS, name) {
        return Class::Writers;
    }
    if is_listed(UNSUPPORTED, name) {
        return Class::Unsupported;
    }
    Class::Unknown
}

// Whether a command is refused for a requirement.
fn is_refused(name: &str, changes: bool) -> bool
    ensures { result ≡ a_requirement.is_refused changes name.now }
{
    match class_of(name) {
        Class::Harmless => false,
        Class::Writers => changes,
        Class::Unsupported | Class::Unknown => true,
    }
}

/// The first of the requirements in a text for which a command is refused.
pub(crate) fn refused_in(text: &str, changes: bool) -> Option<&str>
    ensures { option_map (λ name. name.now) result ≡ a_requirement.refused_in changes text.now }
{
    text.lines().find(|name| is_refused(name, changes))
}

/// Whether a text names a requirement.
pub(crate) fn names(text: &str, requirement: &str) -> bool
    ensures { result ≡ a_requirement.names text.now requirement.now }
{
    text.lines().any(|name| name == requirement)
}
