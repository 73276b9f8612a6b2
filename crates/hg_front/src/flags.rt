//! Words with a dash in front that are no flags of their command.

ghost use Rattle.std.specs.Prelude.{◌≡◌, OnErr, OnOk, codes, drop, ◌++◌};
ghost use Rattle.std.specs.List.{find};
ghost use Rattle.std.specs.Option.{option_map};
ghost use Rattle.hg_base.specs.Fault.{HasCause};
ghost use Rattle.hg_front.specs.Flags as flags;
ghost use Rattle.hg_front.specs.Further.{Says, further_line};
ghost use Rattle.hg_front.specs.Shown.{shown_byte};
ghost use Rattle.hg_stream.specs.Stream.{Grown, GrownByFront};

use crate::further::{put, say};
use crate::pieces::{put_byte, put_name, put_pieces};
use crate::requirement::is_listed;
use hg_base::{Failed, Words};
use hg_stream::{MemSink, Sink};
use std::alloc::Global;

const STATUS_NAMES: &str =
    "--modified --added --removed --deleted --clean --unknown --ignored --all --no-status --print0 --copies";

// A letter is a flag of a command.
fn is_letter(command: &str, letter: u8) -> bool
    ensures { result ≡ flags.is_letter (flags.flags_of command.now) letter }
{
    match command {
        "status" => b"mardcuiAn0C".contains(&letter),
        "remove" => letter == b'A',
        _ => false,
    }
}

// A word of two dashes and a name is one.
fn is_name(command: &str, word: &str) -> bool
    ensures { result ≡ flags.is_name (flags.flags_of command.now) word.now }
{
    match command {
        "status" => is_listed(STATUS_NAMES, word),
        "remove" => word == "--after",
        _ => false,
    }
}

// The first letter of a word, behind its dash, that is no flag.
fn stray_letter(command: &str, word: &str) -> Option<u8>
    ensures { result ≡ flags.stray_letter (flags.flags_of command.now) word.now }
{
    let letters = word.as_bytes();
    for i in 1..letters.len() {
        if !is_letter(command, letters[i]) {
            return Some(letters[i]);
        }
    }
    None
}

// A word begins with a dash and isn't made of flags.
fn is_stray(command: &str, word: &str) -> bool
    ensures { result ≡ flags.is_stray (flags.flags_of command.now) word.now }
{
    if !word.starts_with("-") {
        return false;
    }
    if word.starts_with("--") {
        return !is_name(command, word);
    }
    stray_letter(command, word).is_some()
}

// The first of the words behind the name of a command that begins with a dash and isn't made of flags.
fn first_stray<'a>(command: &str, words: &'a Words) -> Option<&'a str>
    ensures { option_map (λ word. word.now) result ≡ find (flags.is_stray (flags.flags_of command.now)) (drop 1 words.now) }
{
    for i in 1..words.len() {
        let word = words.at(i).as_str();
        if is_stray(command, word) {
            return Some(word);
        }
    }
    None
}

// That word, where it isn't the one behind which there are no flags.
fn stray<'a>(command: &str, words: &'a Words) -> Option<&'a str>
    ensures { option_map (λ word. word.now) result ≡ flags.stray (flags.flags_of command.now) (drop 1 words.now) }
{
    let word = first_stray(command, words)?;
    if word == "--" { None } else { Some(word) }
}

// Puts the name of what is no flag: a dash and a letter, or else the whole word.
fn put_flag<O: Sink>(out: &mut O, command: &str, word: &str) -> Result<(), Failed>
    ensures all { OnOk result (Grown (O.bytes out.old) (O.bytes out.new) (flags.shown_flag (flags.flags_of command.now) word.now)) }
    ensures prefix { OnErr result (GrownByFront (O.bytes out.old) (O.bytes out.new) (flags.shown_flag (flags.flags_of command.now) word.now)) }
    ensures cause { HasCause (O.faults out.old) (O.faults out.new) result (λ e. Unit {0}) }
{
    if word.starts_with("--") {
        return put_name(out, word);
    }
    match stray_letter(command, word) {
        Some(letter) => put_letter(out, word, letter),
        None => put_name(out, word),
    }
}

fn put_letter<O: Sink>(out: &mut O, word: &str, letter: u8) -> Result<(), Failed>
    ensures all { OnOk result (Grown (O.bytes out.old) (O.bytes out.new) (flags.shown_letter word.now letter)) }
    ensures prefix { OnErr result (GrownByFront (O.bytes out.old) (O.bytes out.new) (flags.shown_letter word.now letter)) }
    ensures cause { HasCause (O.faults out.old) (O.faults out.new) result (λ e. Unit {0}) }
{
    if letter >= 128 {
        put_name(out, word)
    } else {
        put_dashed(out, letter)
    }
}

fn put_dashed<O: Sink>(out: &mut O, letter: u8) -> Result<(), Failed>
    ensures all { OnOk result (Grown (O.bytes out.old) (O.bytes out.new) (codes "-" ++ shown_byte letter)) }
    ensures prefix { OnErr result (GrownByFront (O.bytes out.old) (O.bytes out.new) (codes "-" ++ shown_byte letter)) }
    ensures cause { HasCause (O.faults out.old) (O.faults out.new) result (λ e. Unit {0}) }
{
    put_pieces(out, &["-"])?;
    put_byte(out, letter)
}

// Puts the line of a word that isn't made of flags.
fn put_no_flag<O: Sink>(out: &mut O, command: &str, word: &str) -> Result<(), Failed>
    ensures all { OnOk result (Grown (O.bytes out.old) (O.bytes out.new) (further_line (flags.no_flag_text command.now word.now))) }
    ensures prefix { OnErr result (GrownByFront (O.bytes out.old) (O.bytes out.new) (further_line (flags.no_flag_text command.now word.now))) }
    ensures cause { HasCause (O.faults out.old) (O.faults out.new) result (λ e. Unit {0}) }
{
    put_pieces(out, &["hgtrack: ", command, " has no flag "])?;
    put_flag(out, command, word)?;
    put_pieces(out, &[": see hgtrack ", command, " --help\n"])
}

// Puts that of `--help` among other words.
fn put_help<O: Sink>(out: &mut O, command: &str) -> Result<(), Failed>
    ensures all { OnOk result (Grown (O.bytes out.old) (O.bytes out.new) (further_line (flags.alone_text command.now))) }
    ensures prefix { OnErr result (GrownByFront (O.bytes out.old) (O.bytes out.new) (further_line (flags.alone_text command.now))) }
    ensures cause { HasCause (O.faults out.old) (O.faults out.new) result (λ e. Unit {0}) }
{
    put_pieces(
        out,
        &["hgtrack: ", command, " --help takes no other word\n"],
    )
}

// Puts the line of such a word.
fn put_stray<O: Sink>(out: &mut O, command: &str, word: &str) -> Result<(), Failed>
    ensures all { OnOk result (Grown (O.bytes out.old) (O.bytes out.new) (further_line (flags.flag_text command.now word.now))) }
    ensures prefix { OnErr result (GrownByFront (O.bytes out.old) (O.bytes out.new) (further_line (flags.flag_text command.now word.now))) }
    ensures cause { HasCause (O.faults out.old) (O.faults out.new) result (λ e. Unit {0}) }
{
    if word == "--help" {
        put_help(out, command)
    } else {
        put_no_flag(out, command, word)
    }
}

// Prints it in pieces, which takes no memory.
fn say_flag_in_pieces<E: Sink>(err: &mut E, command: &str, word: &str)
    ensures { Says (E.bytes err.old) (E.bytes err.new) (E.faults err.old) (E.faults err.new) (flags.flag_text command.now word.now) }
{
    match put_stray(err, command, word) {
        Ok(()) => {}
        Err(_) => {}
    }
}

fn say_flag<E: Sink>(alloc: Global, err: &mut E, command: &str, word: &str)
    ensures { Says (E.bytes err.old) (E.bytes err.new) (E.faults err.old) (E.faults err.new) (flags.flag_text command.now word.now) }
{
    let mut line = MemSink::new(alloc, usize::MAX);
    match put_stray(&mut line, command, word) {
        Ok(()) => put(err, line.bytes()),
        Err(_) => say_flag_in_pieces(err, command, word),
    }
}

/// Where the commands are told.
pub(crate) const LISTED: &str = "hgtrack --help lists the commands";

/// Says more of words that are wrong behind the name of a command: which is no flag, and else where the commands are told.
pub(crate) fn say_of_usage<E: Sink>(alloc: Global, err: &mut E, words: &Words)
    ensures { Says (E.bytes err.old) (E.bytes err.new) (E.faults err.old) (E.faults err.new) (flags.usage_advice words.now) }
{
    if words.len() == 0 {
        say(alloc, err, LISTED);
        return;
    }
    let command = words.at(0).as_str();
    match stray(command, words) {
        Some(word) => say_flag(alloc, err, command, word),
        None => say(alloc, err, LISTED),
    }
}
