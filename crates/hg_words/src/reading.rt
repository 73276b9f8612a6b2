//! Words as a command.

ghost use Rattle.std.specs.Prelude.{◌≡◌, ◌⊎◌, ◌≤◌, ◌<◌, Err, false, IfErr, IfOk, Ok, drop, length, map, true, Some, None};
ghost use Rattle.std.specs.Option.{option_map};
ghost use Rattle.clap.specs.Words.{found_of, rows_of};
ghost use Rattle.hg_words.specs.Clapped as clapped;
ghost use Rattle.hg_words.specs.Command as commands;
ghost use Rattle.hg_words.specs.declared.fault.WordsFault.TheVariants as a_fault;

use crate::fault::WordsFault;
use crate::flags::StatusFlags;
use crate::forms::{NONE, REMOVE, parted, parted_status};
use crate::given::Command;
use clap::ArgMatches;
use hex::FromHex;
use hg_base::{Id20, Text, Words};
use std::alloc::Global;

// ---- what `clap` answered

// Whether a flag is set.
fn has(matches: &ArgMatches<'_>, name: &str) -> bool
    ensures { result ≡ clapped.is_set name.now (rows_of (found_of matches.now)) }
{
    match matches.get_str(name) {
        Some(text) => text == "true",
        None => false,
    }
}

// The words that are no flags.
fn given(alloc: Global, matches: &ArgMatches<'_>) -> Result<Words, WordsFault>
    ensures ok { IfOk result (λ all. all ≡ clapped.given (rows_of (found_of matches.now))) }
    ensures err { IfErr result (λ fault. fault ≡ a_fault.OutOfMemory) }
{
    let mut all = Words::new(alloc);
    if let Some(words) = matches.get_raw("WORD") {
        for i in 0..words.len() {
            all.push(Text::of(alloc, words[i])?)?;
        }
    }
    Ok(all)
}

// Whether there are neither too few nor too many words.
fn is_between(least: usize, most: Option<usize>, n: usize) -> bool
    ensures { result ≡ commands.is_between least most n }
{
    let enough = least <= n;
    match most {
        Some(most) => enough & (n <= most),
        None => enough,
    }
}

// The words that are no flags, where they are as many as a command takes.
fn wanted(
    alloc: Global,
    matches: &ArgMatches<'_>,
    least: usize,
    most: Option<usize>,
) -> Result<Words, WordsFault>
    ensures ok { IfOk result (λ all. (all ≡ clapped.given (rows_of (found_of matches.now))) × (commands.is_between least most (length all) ≡ true)) }
    ensures err { IfErr result (λ fault. (fault ≡ a_fault.OutOfMemory)
        ⊎ ((fault ≡ a_fault.Usage) × (commands.is_between least most (length (clapped.given (rows_of (found_of matches.now)))) ≡ false))) }
{
    let all = given(alloc, matches)?;
    if !is_between(least, most, all.len()) {
        return Err(WordsFault::Usage);
    }
    Ok(all)
}

// ---- the commands

fn status_flags(matches: &ArgMatches<'_>) -> StatusFlags
    ensures { result ≡ clapped.status_flags_of (rows_of (found_of matches.now)) }
{
    StatusFlags {
        modified: has(matches, "modified"),
        added: has(matches, "added"),
        removed: has(matches, "removed"),
        deleted: has(matches, "deleted"),
        clean: has(matches, "clean"),
        unknown: has(matches, "unknown"),
        ignored: has(matches, "ignored"),
        all: has(matches, "all"),
        no_status: has(matches, "no-status"),
        print0: has(matches, "print0"),
        copies: has(matches, "copies"),
    }
}

fn status(alloc: Global, words: &[&str]) -> Result<Command, WordsFault>
    requires { clapped.AreTexts (drop 1 (map (λ word. word.now) words.now)) }
    ensures { clapped.Gives (commands.by_form (Some commands.status_form) (drop 1 (map (λ word. word.now) words.now))) result }
{
    let matches = parted_status(alloc, words)?;
    let _ = wanted(alloc, &matches, 0, Some(0))?;
    Ok(Command::Status(status_flags(&matches)))
}

fn remove(alloc: Global, words: &[&str]) -> Result<Command, WordsFault>
    requires { clapped.AreTexts (drop 1 (map (λ word. word.now) words.now)) }
    ensures { clapped.Gives (commands.by_form (Some commands.remove_form) (drop 1 (map (λ word. word.now) words.now))) result }
{
    let matches = parted(alloc, "remove", REMOVE.as_slice(), words)?;
    let files = wanted(alloc, &matches, 1, None)?;
    Ok(Command::Remove {
        after: has(&matches, "after"),
        files,
    })
}

// The words of a command without flags.
fn plain<'a>(
    alloc: Global,
    name: &'a str,
    words: &'a [&'a str],
    least: usize,
    most: Option<usize>,
) -> Result<Words, WordsFault>
    requires { clapped.AreTexts (drop 1 (map (λ word. word.now) words.now)) }
    ensures { clapped.Plain (drop 1 (map (λ word. word.now) words.now)) least most result }
{
    let matches = parted(alloc, name, NONE.as_slice(), words)?;
    wanted(alloc, &matches, least, most)
}

fn copy(alloc: Global, words: &[&str]) -> Result<Command, WordsFault>
    requires { clapped.AreTexts (drop 1 (map (λ word. word.now) words.now)) }
    ensures { clapped.Gives (commands.by_form (Some commands.copy_form) (drop 1 (map (λ word. word.now) words.now))) result }
{
    let files = plain(alloc, "copy", words, 2, Some(2))?;
    let source = Text::of(alloc, files.at(0).as_str())?;
    let target = Text::of(alloc, files.at(1).as_str())?;
    Ok(Command::Copy { source, target })
}

// The node that forty hexadecimal digits spell.
fn node(word: &str) -> Option<Id20>
    ensures { result ≡ commands.node_of word.now }
{
    match <[u8; 20] as FromHex>::from_hex(word) {
        Ok(id) => Some(Id20(id)),
        Err(_) => None,
    }
}

fn parents(first: Option<Id20>, second: Option<Id20>) -> Result<Command, WordsFault>
    ensures { result ≡ commands.parents first second }
{
    let Some(p1) = first else {
        return Err(WordsFault::BadNode { word: 1 });
    };
    match second {
        Some(p2) => Ok(Command::SetParents { p1, p2 }),
        None => Err(WordsFault::BadNode { word: 2 }),
    }
}

fn set_parents(alloc: Global, words: &[&str]) -> Result<Command, WordsFault>
    requires { clapped.AreTexts (drop 1 (map (λ word. word.now) words.now)) }
    ensures { clapped.Gives (commands.by_form (Some commands.parents_form) (drop 1 (map (λ word. word.now) words.now))) result }
{
    let nodes = plain(alloc, "debugsetparents", words, 1, Some(2))?;
    let first = node(nodes.at(0).as_str());
    if nodes.len() < 2 {
        return parents(first, Some(Id20([0; 20])));
    }
    parents(first, node(nodes.at(1).as_str()))
}

fn number(word: &str) -> Result<Command, WordsFault>
    ensures { result ≡ commands.load_of word.now }
{
    match word.parse::<u32>() {
        Ok(n) => {
            if n < 1 || n > 2000 {
                return Err(WordsFault::Usage);
            }
            Ok(Command::DebugLoad { n })
        }
        Err(_) => Err(WordsFault::Usage),
    }
}

fn load(alloc: Global, words: &[&str]) -> Result<Command, WordsFault>
    requires { clapped.AreTexts (drop 1 (map (λ word. word.now) words.now)) }
    ensures { clapped.Gives (commands.by_form (Some commands.load_form) (drop 1 (map (λ word. word.now) words.now))) result }
{
    let words = plain(alloc, "debugload", words, 1, Some(1))?;
    number(words.at(0).as_str())
}

// ---- all of them

// The words of a list, as they stand.
fn texts(alloc: Global, words: &Words) -> Result<Vec<&str>, WordsFault>
    ensures same { IfOk result (λ all. map (λ word. word.now) all.items ≡ words.now) }
    ensures texts { IfOk result (λ all. clapped.AreTexts words.now) }
    ensures err { IfErr result (λ fault. fault ≡ a_fault.OutOfMemory) }
{
    let mut all = Vec::new(alloc);
    for i in 0..words.len() {
        all.push(words.at(i).as_str())?;
    }
    Ok(all)
}

fn named(alloc: Global, name: &str, words: &[&str]) -> Result<Command, WordsFault>
    requires { clapped.AreTexts (drop 1 (map (λ word. word.now) words.now)) }
    ensures { clapped.Gives (commands.by_form (commands.form_of name.now) (drop 1 (map (λ word. word.now) words.now))) result }
{
    match name {
        "status" => status(alloc, words),
        "add" => Ok(Command::Add {
            files: plain(alloc, "add", words, 1, None)?,
        }),
        "forget" => Ok(Command::Forget {
            files: plain(alloc, "forget", words, 1, None)?,
        }),
        "remove" => remove(alloc, words),
        "copy" => copy(alloc, words),
        "debugsetparents" => set_parents(alloc, words),
        "debugdirstate" => {
            let _ = plain(alloc, "debugdirstate", words, 0, Some(0))?;
            Ok(Command::DebugDirstate)
        }
        "debugscript" => {
            let _ = plain(alloc, "debugscript", words, 0, Some(0))?;
            Ok(Command::DebugScript)
        }
        "debugload" => load(alloc, words),
        _ => Err(WordsFault::UnknownCommand),
    }
}

/// The command that words tell, or why they tell none: the first fault in the order of `WordsFault`.
pub fn read(alloc: Global, words: &Words) -> Result<Command, WordsFault>
    ensures ok { IfOk result (λ c. commands.command_of words.now ≡ Ok c) }
    ensures err { IfErr result (λ fault. (fault ≡ a_fault.OutOfMemory) ⊎ (commands.command_of words.now ≡ Err fault)) }
{
    if words.len() == 0 {
        return Err(WordsFault::NoCommand);
    }
    let texts = texts(alloc, words)?;
    named(alloc, words.at(0).as_str(), texts.as_slice())
}
