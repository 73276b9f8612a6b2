//! The regexps of an ignore text, in sets that are each searched at once.

ghost use Rattle.std.specs.Prelude.{◌≡◌, ◌<◌, [], map, length, slice_index_or, IfOk};
ghost use Rattle.regex.specs.Strings.{regex_pattern, set_matcher_patterns};
ghost use Rattle.hg_ignore.specs.Kept.{patterns_asked, patterns_kept, some_in};

use hg_base::OutOfMemory;
use regex::{Regex, RegexSet, SetMatcher};
use std::alloc::Global;

/// A set has at most so many: `regex` searches for all of a set at once only while they are not too many.
const IN_EACH: usize = 100;

/// The sets of all regexps, in their order.
pub fn sets_of(alloc: Global, regexes: Vec<Regex>) -> Result<Vec<RegexSet>, OutOfMemory>
    ensures { IfOk result (λ sets. patterns_kept sets.items ≡ map regex_pattern regexes.items) }
{
    let mut sets = Vec::new(alloc);
    let mut part = Vec::new(alloc);
    for regex in regexes {
        if part.len() == IN_EACH {
            sets.push(RegexSet::from_regexes(part))?;
            part = Vec::new(alloc);
        }
        part.push(regex)?;
    }
    sets.push(RegexSet::from_regexes(part))?;
    Ok(sets)
}

/// What searches for the regexps of each set.
pub fn matchers_of(alloc: Global, sets: &[RegexSet]) -> Result<Vec<SetMatcher<'_>>, OutOfMemory>
    ensures { IfOk result (λ matchers. patterns_asked matchers.items ≡ patterns_kept sets.now) }
{
    let mut matchers = Vec::new(alloc);
    for set in sets {
        matchers.push(set.matcher(alloc)?)?;
    }
    Ok(matchers)
}

/// Whether a regexp of the set at a place is found in the text.
fn found_at(matchers: &mut Vec<SetMatcher<'_>>, i: usize, text: &str) -> bool
    requires { i < length matchers.old.items }
    ensures found { result ≡ some_in (slice_index_or (map set_matcher_patterns matchers.old.items) i []) text.now }
    ensures same { map set_matcher_patterns matchers.new.items ≡ map set_matcher_patterns matchers.old.items }
{
    matchers[i].is_match(text)
}

/// Whether a regexp of some set is.
pub fn some_found(matchers: &mut Vec<SetMatcher<'_>>, text: &str) -> bool
    ensures found { result ≡ some_in (patterns_asked matchers.old.items) text.now }
    ensures same { map set_matcher_patterns matchers.new.items ≡ map set_matcher_patterns matchers.old.items }
{
    for i in 0..matchers.len() {
        if found_at(matchers, i, text) {
            return true;
        }
    }
    false
}
