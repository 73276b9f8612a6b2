//! What holds of every list of calls, scripts included.

ghost use Rattle.hg_cli.specs.Calls.{EachCallIsSafe, Leads, StaySafe};
ghost use Rattle.hg_cli.specs.Good.{EachCallIsGood, EachStatusIsFull};
ghost use Rattle.hg_cli.specs.Said.{plainly, safely};
ghost use Rattle.hg_shelf.specs.Images.{course};

use hg_ignore::Regexps;
use hg_shelf::Shelf;
use hg_stream::Sink;
use hg_tree::Tree;

/// At each moment of each call of a list of calls of `run`, and in a script of each turn that was made, a crash leaves a record of what it might have
/// left at its start, of the one table that it published of what its command made, or of what others published since, also where others publish
/// between the calls and beside them; and each of the calls' steps keeps the bytes that dockets use, so that where others' do too, what a load asks of
/// them holds (`KeepData`).
pub fn each_call_is_safe<T: Tree, S: Shelf, G: Regexps, O: Sink, E: Sink>()
    ensures { EachCallIsSafe (record {
      tree = T.history;
      tree_faults = T.faults;
      shelf = S.history;
      images = S.images;
      shelf_faults = S.faults;
      held = S.held;
      oversize = G.oversize;
      out = O.bytes;
      out_faults = O.faults;
      err = E.bytes;
      err_faults = E.faults;
    }) }
{}

/// So it is of every list of calls that run one command each, whatever the other devices of each call are.
pub fn each_run_is_safe<S: Shelf>()
    ensures { StaySafe
        (λ shelf. course (S.history shelf) (S.images shelf))
        (Leads plainly (λ shelf. course (S.history shelf) (S.images shelf)))
        (Leads safely (λ shelf. course (S.history shelf) (S.images shelf))) }
{}

/// From a shelf of which whatever a crash leaves is good, each call of a list of calls of `run`, each of which may be a script, leads to such a one, at each
/// of its moments, where it has what it needs of others: honest times, a plain store whose files stay once they are there, and good records of theirs.
pub fn each_call_is_good<T: Tree, S: Shelf, G: Regexps, O: Sink, E: Sink>()
    ensures { EachCallIsGood (record {
      tree = T.history;
      tree_faults = T.faults;
      shelf = S.history;
      images = S.images;
      shelf_faults = S.faults;
      held = S.held;
      oversize = G.oversize;
      out = O.bytes;
      out_faults = O.faults;
      err = E.bytes;
      err_faults = E.faults;
    }) }
{}

/// So each status in such a list of calls, and in a script too, that ended without a fault printed exactly the full listing of what stood there at its start,
/// where nobody else makes a step during its call and no two states of ignore patterns share a hash: whatever calls came before, what others did
/// between them, and also where the first shelf is what a crash left.
pub fn each_status_is_full<T: Tree, S: Shelf, G: Regexps, O: Sink, E: Sink>()
    ensures { EachStatusIsFull (record {
      tree = T.history;
      tree_faults = T.faults;
      shelf = S.history;
      images = S.images;
      shelf_faults = S.faults;
      held = S.held;
      oversize = G.oversize;
      out = O.bytes;
      out_faults = O.faults;
      err = E.bytes;
      err_faults = E.faults;
    }) }
{}
