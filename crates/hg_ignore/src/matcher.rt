//! What asks an ignore state.

ghost use Rattle.hg_ignore.specs.Kept.{FindsAll, patterns_asked};

use crate::ignore::Ignore;
use regex::SetMatcher;

/// Asks an ignore state; it holds what a search for regexps writes to, so that asking takes no memory. Contracts see by `state_asked`
/// which state it asks.
#[derive(Drop)]
pub struct Matcher<'i> {
    pub(crate) ignore: &'i Ignore,
    pub(crate) sets: Vec<SetMatcher<'i>>,
    ghost finds: { FindsAll (patterns_asked sets.items) ignore.now },
}
