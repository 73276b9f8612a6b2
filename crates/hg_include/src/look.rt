//! A look at a file of ignore patterns.

ghost use Rattle.std.specs.Prelude.{◌≡◌, ◌<◌, ◌^◌, ◌-◌, IsTrue, IfOk, IfErr, length};
ghost use Rattle.hg_base.specs.Fault.{HasCause};
ghost use Rattle.hg_tree.specs.History.{Passes};
ghost use Rattle.hg_include.specs.declared.fault.IncludeFault.TheVariants as a_fault;
ghost use Rattle.hg_include.specs.Look as looks;
ghost use Rattle.hg_include.specs.Asking.{Fails, Gives, GivesBytes, IsNoRefusal, MayRead};

use crate::fault::{Bad, IncludeFault};
use hg_base::{Got, Kind, OutOfMemory, PathRef, Stat, Text};
use hg_tree::Tree;
use std::alloc::Global;

/// What a file gives: it isn't there, it is refused, or its text.
#[derive(Debug, Drop)]
pub enum Given {
    Missing,
    Refused(Bad),
    There(Text),
}

/// The size that a stat shows of a file.
fn file_size(found: Option<Stat>) -> Option<u64>
    ensures { result ≡ looks.file_size found }
{
    match found {
        None => None,
        Some(stat) => match stat.kind {
            Kind::File => Some(stat.size),
            Kind::Link | Kind::Dir | Kind::Other => None,
        },
    }
}

/// The bytes as a text.
fn given_text(alloc: Global, bytes: &[u8]) -> Result<Given, OutOfMemory>
    requires { length bytes.now < 2 ^ 32 - 1 }
    ensures { IfOk result (λ given. given ≡ looks.given_text bytes.now) }
{
    match str::from_utf8(bytes) {
        Err(error) => Ok(Given::Refused(Bad::Text {
            at: error.valid_up_to() as u32,
        })),
        Ok(text) => {
            let text = Text::of(alloc, text)?;
            Ok(Given::There(text))
        }
    }
}

/// What a read of the file gives, one byte more than is taken.
fn read_file<T: Tree>(
    alloc: Global,
    tree: &mut T,
    most: usize,
    path: PathRef<'_>,
) -> Result<Given, IncludeFault>
    requires { most < 2 ^ 32 - 2 }
    ensures passes { Passes (T.history tree.old) (T.history tree.new) }
    ensures gives { IfOk result (λ given. GivesBytes most path.entry.text.now (T.history tree.old) (T.history tree.new) given) }
    ensures fails { IsTrue (T.history tree.old).told → IfErr result (λ _. MayRead path.entry.text.now (T.history tree.old) (T.history tree.new)) }
    ensures kind { IfErr result IsNoRefusal }
    ensures cause { HasCause (T.faults tree.old) (T.faults tree.new) result (λ e. e ≡ a_fault.Failed) }
{
    let mut bytes = vec![in alloc; 0u8; most + 1]?;
    match tree.read(path, 0, bytes.as_mut_slice()) {
        Err(_) => Err(IncludeFault::Failed),
        Ok(Got::Absent) => Ok(Given::Missing),
        Ok(Got::Bytes(n)) => {
            if n > most {
                return Ok(Given::Refused(Bad::TooLarge { size: n as u64 }));
            }
            bytes.truncate(n);
            let given = given_text(alloc, bytes.as_slice())?;
            Ok(given)
        }
    }
}

/// What the file at a path gives, of at most so many bytes; a link isn't followed.
pub fn look<T: Tree>(
    alloc: Global,
    tree: &mut T,
    most: usize,
    path: PathRef<'_>,
) -> Result<Given, IncludeFault>
    requires { most < 2 ^ 32 - 2 }
    ensures passes { Passes (T.history tree.old) (T.history tree.new) }
    ensures gives { IfOk result (λ given. Gives most path.entry.text.now (T.history tree.old) (T.history tree.new) given) }
    ensures fails { IfErr result (λ _. Fails most path.entry.text.now (T.history tree.old) (T.history tree.new)) }
    ensures kind { IfErr result IsNoRefusal }
    ensures cause { HasCause (T.faults tree.old) (T.faults tree.new) result (λ e. e ≡ a_fault.Failed) }
{
    match tree.stat(path) {
        Err(_) => Err(IncludeFault::Failed),
        Ok(found) => match file_size(found) {
            None => Ok(Given::Missing),
            Some(size) => {
                if size > most as u64 {
                    return Ok(Given::Refused(Bad::TooLarge { size }));
                }
                read_file(alloc, tree, most, path)
            }
        },
    }
}
