//! Opening a file of ignore patterns.

ghost use Rattle.std.specs.Prelude.{◌≡◌, ◌<◌, ◌^◌, ◌-◌, IfOk, IfErr, length};
ghost use Rattle.hg_base.specs.Fault.{HasCause};
ghost use Rattle.hg_tree.specs.History.{Passes};
ghost use Rattle.hg_include.specs.Opening.{FailsToOpen, Keeps, Opens};
ghost use Rattle.hg_include.specs.declared.fault.IncludeFault.TheVariants as a_fault;

use crate::fault::IncludeFault;
use crate::line::{Line, lines_of};
use crate::look::{Given, look};
use crate::name::{Target, copied};
use crate::piece::Piece;
use crate::pieces::Pieces;
use hg_base::{OutOfMemory, Path, Text};
use hg_tree::Tree;
use std::alloc::Global;

/// A file that was opened, and what its lines say.
#[derive(Debug, Drop)]
pub struct Opened {
    pub target: Target,
    pub lines: Vec<Line>,
}

/// Puts a file of that text last.
fn keep(
    alloc: Global,
    pieces: &mut Pieces,
    target: Target,
    text: Text,
) -> Result<Opened, OutOfMemory>
    requires { length text < 2 ^ 32 - 1 }
    ensures { IfOk result (λ opened. Keeps target text pieces.old pieces.new opened) }
{
    let lines = lines_of(alloc, text.as_str())?;
    let file = Path::of(alloc, target.file.as_ref())?;
    let base = copied(alloc, &target.base)?;
    pieces.push(Piece { file, base, text })?;
    Ok(Opened { target, lines })
}

/// Looks at a file, and puts it last where it is there.
pub fn enter<T: Tree>(
    alloc: Global,
    tree: &mut T,
    most: usize,
    pieces: &mut Pieces,
    target: Target,
) -> Result<Option<Opened>, IncludeFault>
    requires { most < 2 ^ 32 - 2 }
    ensures passes { Passes (T.history tree.old) (T.history tree.new) }
    ensures opens { IfOk result (λ opened. Opens most target (T.history tree.old) (T.history tree.new) pieces.old pieces.new opened) }
    ensures fails { IfErr result (FailsToOpen most target (T.history tree.old) (T.history tree.new)) }
    ensures cause { HasCause (T.faults tree.old) (T.faults tree.new) result (λ e. e ≡ a_fault.Failed) }
{
    match look(alloc, tree, most, target.file.as_ref()) {
        Err(fault) => Err(fault),
        Ok(given) => match given {
            Given::Missing => Ok(None),
            Given::Refused(what) => Err(IncludeFault::Bad {
                file: target.file,
                what,
            }),
            Given::There(text) => {
                let opened = keep(alloc, pieces, target, text)?;
                Ok(Some(opened))
            }
        },
    }
}
