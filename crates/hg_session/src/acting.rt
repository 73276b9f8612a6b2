//! What a command that changes the record makes of it, in memory.

ghost use Rattle.std.specs.Prelude.{◌≡◌, ◌<◌, ◌++◌, ◌⊎◌, Err, IfErr, IfOk, IsTrue, OnOk, false};
ghost use Rattle.hg_base.specs.Fault.{HasCause};
ghost use Rattle.hg_mixed.specs.Edits.{IsOfSameImage, Lends};
ghost use Rattle.hg_nodes.specs.Edits.{IsFormed, IsSame, Marks};
ghost use Rattle.hg_mixed.specs.Held.{table};
ghost use Rattle.hg_ops.specs.Cause.{HasOpCause};
ghost use Rattle.hg_ops.specs.declared.refusal.OpFault.TheVariants as an_op_fault;
ghost use Rattle.hg_session.specs.Acts.{IsActed, name, refused_line, steps_of};
ghost use Rattle.hg_session.specs.Acting.{ActsOn};
ghost use Rattle.hg_session.specs.Call.{watched};
ghost use Rattle.hg_session.specs.Kept.{KeepsLent, KeepsTexts};
ghost use Rattle.hg_session.specs.declared.acting.Changing.TheVariants as a_change;
ghost use Rattle.hg_shelf.specs.Images.{Goes, course};
ghost use Rattle.hg_tree.specs.History.{Passes};

use crate::copying::copy_one;
use crate::removing::remove_words;
use crate::reparenting::reparent;
use hg_base::{OutOfMemory, Words};
use hg_mixed::Mixed;
use hg_ops::{OpFault, Refusal, add, forget};
use hg_report::refusal_text;
use hg_shelf::Shelf;
use hg_tree::Tree;
use hg_words::Command;
use std::alloc::Global;

/// A command that changes the record alone, by each of its words.
#[derive(Clone, Copy, Debug)]
pub(crate) enum Changing {
    Add,
    Forget,
}

// The command's name.
fn name_of(command: Changing) -> &'static str
    ensures { result.now ≡ name command }
{
    match command {
        Changing::Add => "add",
        Changing::Forget => "forget",
    }
}

// Does what a command says for one word.
fn step<T: Tree>(
    alloc: Global,
    command: Changing,
    word: &str,
    mixed: &mut Mixed<'_>,
    tree: &mut T,
) -> Result<Option<Refusal>, OpFault>
    ensures stepped { IfOk result (λ refused. steps_of command (T.history tree.old) (T.history tree.new) word.now (table mixed.old) refused (table mixed.new)) }
    ensures changed { OnOk result (Marks (IsSame (table mixed.new) (table mixed.old)) mixed.old.changed mixed.new.changed) }
    ensures lent { OnOk result (Lends word.now (IsSame (table mixed.new) (table mixed.old)) mixed.old mixed.new) }
    ensures texts { OnOk result (KeepsTexts mixed.old mixed.new) }
    ensures formed { IsFormed (table mixed.old) }
    ensures image { IsOfSameImage mixed.old mixed.new }
    ensures passes { Passes (T.history tree.old) (T.history tree.new) }
    ensures asked { IsTrue (T.history tree.old).told → (T.history tree.new).asked ≡ (T.history tree.old).asked }
    ensures unlooked { command ≡ a_change.Forget → tree.new ≡ tree.old }
    ensures cause { HasOpCause (T.faults tree.old) (T.faults tree.new) result }
    ensures kind { IfErr result (λ e. (e ≡ an_op_fault.OutOfMemory) ⊎ (e ≡ an_op_fault.TreeFailed)) }
    ensures forgets { command ≡ a_change.Forget → IfErr result (λ e. e ≡ an_op_fault.OutOfMemory) }
{
    // (a table tells how it is formed where it is asked)
    let _ = mixed.parents();
    match command {
        Changing::Add => add(alloc, mixed, tree, word),
        Changing::Forget => forget(alloc, mixed, word),
    }
}

/// Puts the line of a word behind the others, where a command of this name refused the word.
pub(crate) fn put_refused(
    alloc: Global,
    name: &str,
    word: &str,
    refused: &Option<Refusal>,
    lines: &mut Vec<u8>,
) -> Result<(), OutOfMemory>
    ensures { OnOk result (lines.new.items ≡ lines.old.items ++ refused_line name.now word.now refused.now) }
{
    match refused {
        None => Ok(()),
        Some(refusal) => {
            let line = refusal_text(alloc, name, word, refusal)?;
            lines.extend_from_slice(line.as_slice())?;
            Ok(())
        }
    }
}

// Does what a command says for each word, in order, and answers the lines of those that were refused.
fn act_words<T: Tree>(
    alloc: Global,
    command: Changing,
    words: &Words,
    mixed: &mut Mixed<'_>,
    tree: &mut T,
) -> Result<Vec<u8>, OpFault>
    // `IsActed` in specs/Acts.antt; of a table in which nothing was changed before.
    ensures acts { mixed.old.changed ≡ false
        → IfOk
        result
        (λ lines. IsActed
        (name command)
        (steps_of command)
        words.now
        (watched T.history T.faults tree.old tree.new)
        (table mixed.old)
        (table mixed.new)
        lines.items
        mixed.new.changed) }
    ensures lent { OnOk result (KeepsLent mixed.old mixed.new) }
    ensures image { IsOfSameImage mixed.old mixed.new }
    ensures passes { Passes (T.history tree.old) (T.history tree.new) }
    ensures asked { IsTrue (T.history tree.old).told → (T.history tree.new).asked ≡ (T.history tree.old).asked }
    // Where files are forgotten the working copy isn't looked at.
    ensures unlooked { command ≡ a_change.Forget → tree.new ≡ tree.old }
    ensures cause { HasCause (T.faults tree.old) (T.faults tree.new) result (λ e. e ≡ an_op_fault.TreeFailed) }
    ensures kind { IfErr result (λ e. (e ≡ an_op_fault.OutOfMemory) ⊎ (e ≡ an_op_fault.TreeFailed)) }
    // Where files are forgotten only memory may lack.
    ensures forgets { command ≡ a_change.Forget → IfErr result (λ e. e ≡ an_op_fault.OutOfMemory) }
    // A failing working copy is told as such.
    ensures failed { T.faults tree.old < T.faults tree.new → result ≡ Err an_op_fault.TreeFailed }
{
    let mut lines = Vec::new(alloc);
    for i in 0..words.len() {
        let word = words.at(i).as_str();
        let refused = step(alloc, command, word, mixed, tree)?;
        match put_refused(alloc, name_of(command), word, &refused, &mut lines) {
            Err(_) => return Err(OpFault::OutOfMemory),
            Ok(()) => {}
        }
    }
    Ok(lines)
}

/// Does what a command says over a table in memory, and answers the lines of the words that were refused.
pub(crate) fn act<T: Tree, S: Shelf>(
    alloc: Global,
    command: &Command,
    mixed: &mut Mixed<'_>,
    tree: &mut T,
    shelf: &mut S,
) -> Result<Vec<u8>, OpFault>
    // `ActsOn` in specs/Acting.antt.
    ensures acts { ActsOn
        command.now
        (watched T.history T.faults tree.old tree.new)
        (watched S.history S.faults shelf.old shelf.new)
        mixed.old
        mixed.new
        result }
    ensures kept { Goes (course (S.history shelf.old) (S.images shelf.old)) (course (S.history shelf.new) (S.images shelf.new)) }
    ensures held { S.held shelf.new ≡ S.held shelf.old }
{
    match command {
        Command::Add { files } => act_words(alloc, Changing::Add, files, mixed, tree),
        Command::Forget { files } => act_words(alloc, Changing::Forget, files, mixed, tree),
        Command::Remove { after, files } => remove_words(alloc, *after, files, mixed, tree, shelf),
        Command::Copy { source, target } => copy_one(
            alloc,
            source.as_str(),
            target.as_str(),
            mixed,
            tree,
        ),
        Command::SetParents { p1, p2 } => reparent(alloc, *p1, *p2, mixed, shelf),
        _ => Ok(Vec::new(alloc)),
    }
}
