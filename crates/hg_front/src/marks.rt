//! What is looked for in the file words of a command.

ghost use Rattle.std.specs.Prelude.{◌≡◌, if◌then◌else◌};
ghost use Rattle.std.specs.List.{find};
ghost use Rattle.std.specs.Option.{option_map};
ghost use Rattle.hg_base.specs.PathText.{is_path};
ghost use Rattle.hg_front.specs.Marks as marks;
ghost use Rattle.hg_front.specs.Placed as placed_words;
ghost use Rattle.hg_words.specs.Given as given;

use crate::placing::Placed;
use hg_base::{PathRef, Text};
use hg_words::Command;

/// What a word may have.
#[derive(Clone, Copy)]
pub(crate) enum Mark {
    /// A line feed or a carriage return.
    LineBreak,
    /// Nothing at all.
    Nothing,
    /// A slash in front: it isn't told from the current folder.
    Absolute,
    /// A way out of the working copy: only such a word still begins with a way up, or with `./`, once it is told from the root.
    Outside,
    /// A slash at the end, as the name of a directory.
    Directory,
}

/// Whether a word, as it is told from the root, has a mark.
pub(crate) fn has(mark: Mark, word: &str) -> bool
    ensures { result ≡ marks.has mark word.now }
{
    match mark {
        Mark::LineBreak => has_break(word),
        Mark::Nothing => word.is_empty(),
        Mark::Absolute => word.starts_with('/'),
        Mark::Outside => leads_out(word),
        Mark::Directory => ends_in_slash(word),
    }
}

fn has_break(word: &str) -> bool
    ensures { result ≡ marks.has_break word.now }
{
    word.as_bytes().contains(&b'\n') || word.as_bytes().contains(&b'\r')
}

fn leads_out(word: &str) -> bool
    ensures { result ≡ marks.leads_out word.now }
{
    word == ".." || word.starts_with("../") || word.starts_with("./")
}

fn ends_in_slash(word: &str) -> bool
    ensures { result ≡ marks.ends_in_slash word.now }
{
    word.ends_with("/")
}

// The first file word of a command that has the mark.
fn first_in(command: &Command, mark: Mark) -> Option<&str>
    ensures { option_map (λ word. word.now) result ≡ find (marks.has mark) (given.files_of command.now) }
{
    for i in 0..command.files() {
        let word = command.file(i).as_str();
        if has(mark, word) {
            return Some(word);
        }
    }
    None
}

/// The first file word that has the mark.
pub(crate) fn first_with(placed: &Placed, mark: Mark) -> Option<&str>
    ensures { option_map (λ word. word.now) result ≡ find (marks.has mark) (placed_words.files placed.now) }
{
    match &placed.command {
        Some(command) => first_in(command, mark),
        None => None,
    }
}

// The word of a copy that is refused where it is no path: the target only where the source is one.
#[tactic(auto, using(crate::proofs::NoPaths::refused_is_none))]
fn refusable_of_copy<'a>(source: &'a Text, target: &'a Text) -> &'a Text
    ensures { result.now ≡ (if is_path source.now then target.now else source.now) }
{
    match PathRef::read(source.as_str()) {
        Ok(_) => target,
        Err(_) => source,
    }
}

// The same as `first_in`, of the file words that are refused where they are no paths.
fn first_refusable_in(command: &Command, mark: Mark) -> Option<&str>
    ensures { option_map (λ word. word.now) result ≡ find (marks.has mark) (placed_words.refusable_of command.now) }
{
    match command {
        Command::Copy { source, target } => {
            let word = refusable_of_copy(source, target).as_str();
            if has(mark, word) { Some(word) } else { None }
        }
        _ => first_in(command, mark),
    }
}

/// The first file word that has the mark, of those that are refused where they are no paths.
pub(crate) fn first_refusable(placed: &Placed, mark: Mark) -> Option<&str>
    ensures { option_map (λ word. word.now) result ≡ find (marks.has mark) (placed_words.refusable placed.now) }
{
    match &placed.command {
        Some(command) => first_refusable_in(command, mark),
        None => None,
    }
}
