//! The one call of the program under test.

use hg_base::Words;
use hg_cli::run;
use hg_ignore::Builds;
use hg_session::Outcome;
use hg_shelf::Shelf;
use hg_stream::{MemSource, Sink};
use hg_tree::Tree;
use std::alloc::Global;

/// Runs once. Nothing is promised of it, so that its callers don't carry what `run` promises.
pub(crate) fn once<T: Tree, S: Shelf, O: Sink, E: Sink>(
    alloc: Global,
    words: &Words,
    tree: &mut T,
    shelf: &mut S,
    regexps: &mut Builds,
    input: &mut MemSource,
    out: &mut O,
    err: &mut E,
) -> Outcome {
    run(alloc, words, tree, shelf, regexps, input, out, err)
}
