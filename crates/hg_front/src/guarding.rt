//! The guard: whether a command may begin, by what the repository requires of the programs that use it.

ghost use Rattle.std.specs.Prelude.{◌≡◌};
ghost use Rattle.std.specs.Option.{option_map};
ghost use Rattle.std.specs.Result.{result_err};
ghost use Rattle.hg_front.specs.Guard as guards;
ghost use Rattle.hg_front.specs.Placed as placed_words;

use crate::marks::{Mark, first_with};
use crate::placing::Placed;
use crate::requirement::{Class, class_of, names, refused_in};

/// Why a command is refused before it begins.
#[derive(Clone, Copy)]
pub enum Why {
    /// No folder `.hg` is here or above. (It stands with no name.)
    NoRepository,
    /// A requirement makes a working copy of a kind that isn't built.
    Unsupported,
    /// A requirement isn't known.
    Unknown,
    /// A requirement asks more of a command that changes the dirstate.
    Writers,
    /// The dirstate isn't kept as dirstate-v2.
    OldDirstate,
    /// A file word has a line feed or a carriage return, which Mercurial's manifests can't hold.
    LineBreak,
}

/// Why a command is refused, and for which requirement or file word.
#[derive(Clone, Copy)]
pub struct Refused<'a> {
    pub why: Why,
    pub what: &'a str,
}

// Why a command is refused for a requirement.
fn of_requirement(name: &str) -> Refused<'_>
    ensures { (result.why, result.what.now) ≡ guards.of_requirement name.now }
{
    let why = match class_of(name) {
        Class::Writers => Why::Writers,
        Class::Unsupported => Why::Unsupported,
        Class::Harmless | Class::Unknown => Why::Unknown,
    };
    Refused { why, what: name }
}

// The first requirement for which a command is refused: of the repository's own, and then of its store's, where these stand apart.
fn first_refused<'a>(own: &'a str, store: Option<&'a str>, changes: bool) -> Option<&'a str>
    ensures { option_map (λ name. name.now) result ≡ guards.first_refused changes own.now (option_map (λ text. text.now) store.entry) }
{
    if let Some(name) = refused_in(own, changes) {
        return Some(name);
    }
    if !names(own, "share-safe") {
        return None;
    }
    refused_in(store?, changes)
}

fn otherwise_refused<'a>(own: &str, placed: &'a Placed) -> Option<Refused<'a>>
    ensures { option_map (λ r. (r.why, r.what.now)) result ≡ guards.otherwise_refused (placed_words.changes placed.now) (placed_words.files placed.now) own.now }
{
    if !names(own, "dirstate-v2") {
        return Some(Refused {
            why: Why::OldDirstate,
            what: "dirstate-v2",
        });
    }
    if !changes(placed) {
        return None;
    }
    let what = first_with(placed, Mark::LineBreak)?;
    Some(Refused {
        why: Why::LineBreak,
        what,
    })
}

/// Whether a command changes the dirstate.
pub(crate) fn changes(placed: &Placed) -> bool
    ensures { result ≡ placed_words.changes placed.now }
{
    match &placed.command {
        Some(command) => command.changes(),
        None => false,
    }
}

/// Whether a command may begin: `own` is what `.hg/requires` says, where it is there, and `store` what its store's own `requires` says.
pub fn guard<'a>(
    own: Option<&'a str>,
    store: Option<&'a str>,
    placed: &'a Placed,
) -> Result<(), Refused<'a>>
    ensures { option_map (λ r. (r.why, r.what.now)) (result_err result)
        ≡ guards.refusal (option_map (λ text. text.now) own.entry) (option_map (λ text. text.now) store.entry) (placed_words.changes placed.now) (placed_words.files placed.now) }
{
    let Some(own) = own else {
        return Ok(());
    };
    if let Some(name) = first_refused(own, store, changes(placed)) {
        return Err(of_requirement(name));
    }
    match otherwise_refused(own, placed) {
        Some(refused) => Err(refused),
        None => Ok(()),
    }
}
