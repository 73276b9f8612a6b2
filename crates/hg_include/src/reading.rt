//! Reading `.hgignore` and the files that its lines name, each in the place of the line that names it.

ghost use Rattle.std.specs.Prelude.{◌≡◌, ◌<◌, ◌≤◌, ◌^◌, ◌-◌, ◌++◌, ◌∷◌, [], IfOk, IfErr, OnOk, length};
ghost use Rattle.hg_base.specs.Fault.{HasCause};
ghost use Rattle.hg_tree.specs.History.{IsOurs, Passes, now};
ghost use Rattle.hg_include.specs.declared.fault.IncludeFault.TheVariants as a_fault;
ghost use Rattle.hg_include.specs.Asking.{IsRead, Stops};
ghost use Rattle.hg_include.specs.Moments.{AreTexts, AsksAll, IsAnswer, IsOfReading, known_at};
ghost use Rattle.hg_include.specs.Reading.{named, reading, step_of, tasks_of};
ghost use Rattle.hg_include.specs.Steps.{Grows, IsRefused, LeadsOn, StopsAt, line_task, task_of, tasks_in};
ghost use Rattle.hg_include.specs.declared.line.Says.{Says};

use crate::fault::{Bad, IncludeFault};
use crate::line::{Line, Says};
use crate::name::{Target, included, subincluded};
use crate::opening::{Opened, enter};
use crate::pieces::Pieces;
use crate::warnings::Warning;
use hg_base::{OutOfMemory, Path, PathRef, Text};
use hg_tree::Tree;
use std::alloc::Global;

/// The file at which a reading begins, at the root.
const FILE: &str = ".hgignore";

/// The most bytes of a file.
const MOST: usize = 1_048_576;

/// The most pairs of a file and a base.
const LIMIT: usize = 256;

/// The fault of a line that names no file that may be read.
fn refusal(alloc: Global, file: PathRef<'_>, line: u32) -> IncludeFault
    ensures { IsRefused file.entry.text.now line result }
{
    match Path::of(alloc, file) {
        Err(_) => IncludeFault::OutOfMemory,
        Ok(file) => IncludeFault::Bad {
            file,
            what: Bad::Include { line },
        },
    }
}

/// Warns of a line.
fn warn(
    alloc: Global,
    pieces: &mut Pieces,
    file: PathRef<'_>,
    line: u32,
    missing: bool,
    name: &str,
) -> Result<(), OutOfMemory>
    ensures { OnOk
        result
        (pieces.new ≡ record pieces.old { warnings = pieces.old.warnings ++ record { file = file.entry.text.now; line = line; missing = missing; name = name.now } ∷ [] }) }
{
    let file = Path::of(alloc, file)?;
    let name = Text::of(alloc, name)?;
    pieces.warn(Warning {
        file,
        line,
        missing,
        name,
    })
}

/// Reads a line that names a file: where the name is a path, and wasn't read before with that base, the file is opened.
fn take_named<T: Tree>(
    alloc: Global,
    tree: &mut T,
    most: usize,
    limit: usize,
    pieces: &mut Pieces,
    holder: &Target,
    line: u32,
    name: &str,
    target: Option<Target>,
) -> Result<Option<Opened>, IncludeFault>
    requires { most < 2 ^ 32 - 2 }
    ensures passes { Passes (T.history tree.old) (T.history tree.new) }
    ensures goes { IfOk
        result
        (λ opened. (says : Says)
        → step_of pieces.old.pieces holder.now.file holder.now.base says ≡ named pieces.old.pieces name.now target
        → LeadsOn most limit (T.history tree.old) (T.history tree.new) pieces.old pieces.new (task_of holder.now line says ∷ []) (tasks_in opened)) }
    ensures stops { IfErr
        result
        (λ fault. (says : Says)
        → step_of pieces.old.pieces holder.now.file holder.now.base says ≡ named pieces.old.pieces name.now target
        → StopsAt most limit (T.history tree.old) (T.history tree.new) pieces.old (task_of holder.now line says ∷ []) fault) }
    ensures grows { IfOk result (Grows limit pieces.old pieces.new) }
    ensures cause { HasCause (T.faults tree.old) (T.faults tree.new) result (λ e. e ≡ a_fault.Failed) }
{
    let Some(target) = target else {
        return Err(refusal(alloc, holder.file.as_ref(), line));
    };
    if pieces.has(&target) {
        return Ok(None);
    }
    if pieces.len() >= limit {
        return Err(refusal(alloc, holder.file.as_ref(), line));
    }
    match enter(alloc, tree, most, pieces, target) {
        Err(fault) => Err(fault),
        Ok(Some(opened)) => Ok(Some(opened)),
        Ok(None) => {
            warn(alloc, pieces, holder.file.as_ref(), line, true, name)?;
            Ok(None)
        }
    }
}

/// Reads a line of a file: one is warned of it, or a file that it names is opened.
fn take<T: Tree>(
    alloc: Global,
    tree: &mut T,
    most: usize,
    limit: usize,
    pieces: &mut Pieces,
    holder: &Target,
    line: &Line,
) -> Result<Option<Opened>, IncludeFault>
    requires { most < 2 ^ 32 - 2 }
    ensures passes { Passes (T.history tree.old) (T.history tree.new) }
    ensures goes { IfOk
        result
        (λ opened. LeadsOn most limit (T.history tree.old) (T.history tree.new) pieces.old pieces.new (line_task holder.now line.now ∷ []) (tasks_in opened)) }
    ensures stops { IfErr
        result
        (StopsAt most limit (T.history tree.old) (T.history tree.new) pieces.old (line_task holder.now line.now ∷ [])) }
    ensures grows { IfOk result (Grows limit pieces.old pieces.new) }
    ensures cause { HasCause (T.faults tree.old) (T.faults tree.new) result (λ e. e ≡ a_fault.Failed) }
{
    match &line.says {
        Says::Unknown(name) => {
            warn(
                alloc,
                pieces,
                holder.file.as_ref(),
                line.number,
                false,
                name.as_str(),
            )?;
            Ok(None)
        }
        Says::Include(name) => {
            let target = included(alloc, &holder.base, name.as_str())?;
            take_named(
                alloc,
                tree,
                most,
                limit,
                pieces,
                holder,
                line.number,
                name.as_str(),
                target,
            )
        }
        Says::SubInclude(name) => {
            let target = subincluded(alloc, holder.file.as_ref(), name.as_str())?;
            take_named(
                alloc,
                tree,
                most,
                limit,
                pieces,
                holder,
                line.number,
                name.as_str(),
                target,
            )
        }
    }
}

/// Reads the lines of a file that was opened, and those of the files that they name in their places.
fn read_lines<T: Tree>(
    alloc: Global,
    tree: &mut T,
    most: usize,
    limit: usize,
    pieces: &mut Pieces,
    opened: &Opened,
) -> Result<(), IncludeFault>
    requires { most < 2 ^ 32 - 2 }
    ensures passes { Passes (T.history tree.old) (T.history tree.new) }
    ensures goes { OnOk
        result
        (LeadsOn most limit (T.history tree.old) (T.history tree.new) pieces.old pieces.new (tasks_of opened.now.target opened.now.lines.items) []) }
    ensures stops { IfErr
        result
        (StopsAt most limit (T.history tree.old) (T.history tree.new) pieces.old (tasks_of opened.now.target opened.now.lines.items)) }
    ensures grows { OnOk result (length pieces.old.pieces ≤ length pieces.new.pieces) }
    ensures cause { HasCause (T.faults tree.old) (T.faults tree.new) result (λ e. e ≡ a_fault.Failed) }
{
    for line in &opened.lines {
        if let Some(next) = take(alloc, tree, most, limit, pieces, &opened.target, line)? {
            read_lines(alloc, tree, most, limit, pieces, &next)?;
        }
    }
    Ok(())
}

/// Reads `.hgignore` and the files that its lines name: at most so many bytes of each, and so many pairs of a file and a base.
fn read_within<T: Tree>(
    alloc: Global,
    tree: &mut T,
    most: usize,
    limit: usize,
) -> Result<Pieces, IncludeFault>
    requires { most < 2 ^ 32 - 2 }
    ensures passes { Passes (T.history tree.old) (T.history tree.new) }
    ensures read { IfOk result (λ pieces. IsRead most limit (T.history tree.old) (T.history tree.new) pieces) }
    ensures stops { IfErr result (Stops most limit (T.history tree.old) (T.history tree.new)) }
    ensures cause { HasCause (T.faults tree.old) (T.faults tree.new) result (λ e. e ≡ a_fault.Failed) }
{
    let mut pieces = Pieces::new(alloc);
    let file = Path::of(alloc, PathRef { text: FILE })?;
    let target = Target { file, base: None };
    match enter(alloc, tree, most, &mut pieces, target) {
        Err(fault) => Err(fault),
        Ok(None) => Ok(pieces),
        Ok(Some(opened)) => {
            read_lines(alloc, tree, most, limit, &mut pieces, &opened)?;
            Ok(pieces)
        }
    }
}

/// Reads the file `.hgignore` at the root of a working copy and the files that its lines name, each in the place of the line that names it, before the lines
/// that follow. Each file is looked at by a stat, and read behind it where that shows a regular file of at most 1,048,576 bytes; links aren't followed. At most
/// 256 pairs of a file and a base are read, `.hgignore` without a base being the first; a pair that was read before is skipped.
pub fn read_pieces<T: Tree>(alloc: Global, tree: &mut T) -> Result<Pieces, IncludeFault>
    ensures passes { Passes (T.history tree.old) (T.history tree.new) }

    // the answer is the reading of what the tree gave when it was asked
    ensures read { IfOk result (λ pieces. IsRead 1048576 256 (T.history tree.old) (T.history tree.new) pieces) }
    ensures stops { IfErr result (Stops 1048576 256 (T.history tree.old) (T.history tree.new)) }
    ensures faults { HasCause (T.faults tree.old) (T.faults tree.new) result (λ e. e ≡ a_fault.Failed) }

    // where nobody else steps it is the reading at that moment
    ensures still { IsOurs (T.history tree.old) (T.history tree.new)
        → IsAnswer (reading 1048576 256 (known_at (now (T.history tree.old)))) result }
    ensures asked_still { IsOurs (T.history tree.old) (T.history tree.new)
        → AsksAll 1048576 (reading 1048576 256 (known_at (now (T.history tree.old)))) (T.history tree.old) (T.history tree.new) result }

    // what holds of the answer whatever the tree gave
    ensures texts { IfOk result (λ pieces. AreTexts 1048576 pieces.pieces) }
    ensures kind { IfErr result (IsOfReading 1048576) }
{
    read_within(alloc, tree, MOST, LIMIT)
}
