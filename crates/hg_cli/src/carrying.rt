//! One command, or a load, which runs two of its own.

ghost use Rattle.hg_cli.specs.Carrying.{IsLoadable};
ghost use Rattle.hg_cli.specs.Run.{Carries};
ghost use Rattle.hg_cli.specs.Seen.{seen};

use crate::load::load;
use hg_ignore::Regexps;
use hg_session::{Outcome, command};
use hg_shelf::Shelf;
use hg_stream::Sink;
use hg_tree::Tree;
use hg_words::Command;
use std::alloc::Global;

/// Carries out a command that was read.
pub(crate) fn carry_out<T: Tree, S: Shelf, G: Regexps, O: Sink, E: Sink>(
    alloc: Global,
    given: &Command,
    tree: &mut T,
    shelf: &mut S,
    regexps: &mut G,
    out: &mut O,
    err: &mut E,
) -> Outcome
    requires { IsLoadable given.now }
    ensures { Carries
        given.now
        (seen
        (record {
          tree = T.history;
          tree_faults = T.faults;
          shelf = S.history;
          images = S.images;
          shelf_faults = S.faults;
          held = S.held;
          oversize = G.oversize;
          out = O.bytes;
          out_faults = O.faults;
          err = E.bytes;
          err_faults = E.faults;
        })
        (tree.old, shelf.old, regexps.old, out.old, err.old)
        (tree.new, shelf.new, regexps.new, out.new, err.new))
        result.status
        result.fault }
{
    match given {
        Command::DebugLoad { n } => load(alloc, *n, out, err),
        _ => command(alloc, given, tree, shelf, regexps, out, err),
    }
}
