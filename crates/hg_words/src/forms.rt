//! The flags of the commands, and their words as `clap` parts them.

ghost use Rattle.std.specs.Prelude.{◌≡◌, ◌⊎◌, ◌<◌, IfErr, IfOk, None, Some, drop, false, length, map, slice_get, true};
ghost use Rattle.std.specs.List.{list_all};
ghost use Rattle.std.specs.Option.{option_map};
ghost use Rattle.clap.specs.Words.{app_of, found_of, kind_of, rows_of, rule_of};
ghost use Rattle.hg_words.specs.Clapped as clapped;
ghost use Rattle.hg_words.specs.Command.{parted_of, status_flags};
ghost use Rattle.hg_words.specs.declared.fault.WordsFault.TheVariants as a_fault;

use crate::fault::WordsFault;
use clap::error::ErrorKind;
use clap::{Arg, ArgAction, ArgMatches, Error};
use std::alloc::Global;

/// The flags of `status`, by letter and name.
const STATUS: [(char, &str); 11] = [
    ('m', "modified"),
    ('a', "added"),
    ('r', "removed"),
    ('d', "deleted"),
    ('c', "clean"),
    ('u', "unknown"),
    ('i', "ignored"),
    ('A', "all"),
    ('n', "no-status"),
    ('0', "print0"),
    ('C', "copies"),
];

/// The flag of `remove`.
pub(crate) const REMOVE: [(char, &str); 1] = [('A', "after")];

/// The flags of all other commands.
pub(crate) const NONE: [(char, &str); 0] = [];

// A flag.
fn flag<'a>(alloc: Global, letter: char, name: &'a str) -> Arg<'a>
    ensures rule { rule_of result ≡ clapped.flag_arg (record { letter = letter; name = name.entry.now }) }
    ensures alone { result.global ≡ false }
{
    Arg::new(alloc, name)
        .short(letter)
        .long(name)
        .action(ArgAction::SetTrue)
}

// That of a row of a table.
fn flag_at<'a>(alloc: Global, flags: &[(char, &'a str)], i: usize) -> Arg<'a>
    requires { i < length flags.now }
    ensures rule { option_map clapped.arg_in (slice_get flags.now i) ≡ Some (rule_of result) }
    ensures alone { result.global ≡ false }
{
    let (letter, name) = flags[i];
    flag(alloc, letter, name)
}

// The words that are no flags.
fn others<'a>(alloc: Global) -> Arg<'a>
    ensures rule { rule_of result ≡ clapped.word_arg }
    ensures alone { result.global ≡ false }
{
    Arg::new(alloc, "WORD").action(ArgAction::Append)
}

// A command with some flags, which may repeat, and any number of words.
fn command<'a>(
    alloc: Global,
    name: &'a str,
    flags: &[(char, &'a str)],
) -> Result<clap::Command<'a>, WordsFault>
    ensures ok { IfOk result (λ c. app_of c ≡ clapped.app name.entry.now (clapped.flags_in flags.now)) }
    ensures err { IfErr result (λ fault. fault ≡ a_fault.OutOfMemory) }
{
    let mut command = clap::Command::new(alloc, name)
        .disable_help_flag(true)
        .args_override_self(true);
    for i in 0..flags.len() {
        command = command.arg(flag_at(alloc, flags, i))?;
    }
    Ok(command.arg(others(alloc))?)
}

// Why `clap` refused the words.
fn refused(error: &Error) -> WordsFault
    ensures { result ≡ clapped.fault_of_kind (kind_of error.now) }
{
    match error.kind() {
        ErrorKind::OutOfMemory => WordsFault::OutOfMemory,
        _ => WordsFault::Usage,
    }
}

/// The words of a command, its name first, parted by `clap`.
pub(crate) fn parted<'a>(
    alloc: Global,
    name: &'a str,
    flags: &[(char, &'a str)],
    words: &'a [&'a str],
) -> Result<ArgMatches<'a>, WordsFault>
    requires good { list_all clapped.is_good (clapped.flags_in flags.now) ≡ true }
    requires texts { clapped.AreTexts (drop 1 (map (λ word. word.now) words.now)) }
    ensures ok { IfOk result (λ m. clapped.Parts (clapped.flags_in flags.now) (drop 1 (map (λ word. word.now) words.entry.now)) (rows_of (found_of m))) }
    ensures err { IfErr result (λ fault. (fault ≡ a_fault.OutOfMemory)
        ⊎ ((fault ≡ a_fault.Usage) × (parted_of (clapped.flags_in flags.now) (drop 1 (map (λ word. word.now) words.entry.now)) ≡ None))) }
{
    let command = command(alloc, name, flags)?;
    match command.try_get_matches_from(words) {
        Ok(matches) => Ok(matches),
        Err(error) => Err(refused(&error)),
    }
}

/// Those of a status.
pub(crate) fn parted_status<'a>(
    alloc: Global,
    words: &'a [&'a str],
) -> Result<ArgMatches<'a>, WordsFault>
    requires texts { clapped.AreTexts (drop 1 (map (λ word. word.now) words.now)) }
    ensures ok { IfOk result (λ m. clapped.Parts status_flags (drop 1 (map (λ word. word.now) words.entry.now)) (rows_of (found_of m))) }
    ensures err { IfErr result (λ fault. (fault ≡ a_fault.OutOfMemory)
        ⊎ ((fault ≡ a_fault.Usage) × (parted_of status_flags (drop 1 (map (λ word. word.now) words.entry.now)) ≡ None))) }
{
    parted(alloc, "status", STATUS.as_slice(), words)
}
