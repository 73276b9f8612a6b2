//! One file word.

ghost use Rattle.std.specs.Prelude.{◌≡◌, IfOk, None, Some, option_map, string_bytes};
ghost use Rattle.std.specs.Option.{MatchOption};
ghost use Rattle.hg_base.specs.PathText.{components};
ghost use Rattle.hg_words.specs.Told as told;

use hg_base::{OutOfMemory, Text};
use std::alloc::Global;

// The folder in which a folder stands, none for the root.
fn upper(folder: &str) -> Option<&str>
    ensures { option_map (λ up. up.now) result ≡ told.upper folder.now }
{
    if folder.is_empty() {
        return None;
    }
    match folder.rsplit_once('/') {
        Some((up, _)) => Some(up),
        None => Some(""),
    }
}

// The folder to which the front of a word leads, and the rest of the word; none where it leads out of the root.
fn led<'a>(folder: &'a str, word: &'a str) -> Option<(&'a str, &'a str)>
    ensures { MatchOption result (told.led folder.now (components word.now) ≡ None) (λ p. told.led folder.now (components word.now) ≡ Some (told.in_folder p.0.now p.1.now)) }
{
    let mut dir = folder;
    let mut rest = word;
    while let Some((front, behind)) = rest.split_once('/') {
        if front == "." {
            rest = behind;
            continue;
        }
        if front != ".." {
            return Some((dir, rest));
        }
        dir = upper(dir)?;
        rest = behind;
    }
    Some((dir, rest))
}

// What stands in a folder.
fn text_in(alloc: Global, folder: &str, rest: &str) -> Result<Text, OutOfMemory>
    ensures { IfOk result (λ text. text ≡ told.in_folder folder.now rest.now) }
{
    if folder.is_empty() {
        return Text::of(alloc, rest);
    }
    Text::of(alloc, format!(in alloc; "{folder}/{rest}")?.as_str())
}

// Whether a word isn't told from a folder.
fn stands_alone(word: &str) -> bool
    ensures { result ≡ told.stands_alone word.now }
{
    match word.as_bytes() {
        [] => true,
        [first, ..] => *first == b'/',
    }
}

/// The path from the root that a word tells in a folder, whose own path from the root is given, empty for the root. A word that tells
/// none there is answered as it stands: it is no path.
pub fn from_folder(alloc: Global, folder: &str, word: &str) -> Result<Text, OutOfMemory>
    ensures { IfOk result (λ text. text ≡ told.from_folder folder.now word.now) }
{
    if stands_alone(word) {
        return Text::of(alloc, word);
    }
    match led(folder, word) {
        None => Text::of(alloc, word),
        Some((dir, rest)) => text_in(alloc, dir, rest),
    }
}
