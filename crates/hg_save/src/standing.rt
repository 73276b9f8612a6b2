//! Whether the docket stands as it was loaded.

ghost use Rattle.std.specs.Prelude.{◌≡◌, ◌∷◌, [], ◌↔◌, IsTrue, IfOk};
ghost use Rattle.hg_base.specs.Fault.{HasCause};
ghost use Rattle.hg_shelf.specs.Asks.{AsksInOrder};
ghost use Rattle.hg_shelf.specs.History.{Passes, now};
ghost use Rattle.hg_shelf.specs.Images.{Goes, course};
ghost use Rattle.hg_save.specs.Asked.{docket_ask};
ghost use Rattle.hg_save.specs.Record.{docket_in, shown_in};

use crate::loaded::Loaded;
use crate::loading::{MOST, read_docket};
use hg_base::Failed;
use hg_shelf::Shelf;

/// Whether the docket has the bytes that were loaded, where an absent one has none. It reads the docket once, and takes no memory.
pub fn still<S: Shelf>(shelf: &mut S, loaded: &Loaded) -> Result<bool, Failed>
    ensures passes { Passes (S.history shelf.old) (S.history shelf.new) }
    ensures kept { Goes (course (S.history shelf.old) (S.images shelf.old)) (course (S.history shelf.new) (S.images shelf.new)) }
    ensures held { S.held shelf.new ≡ S.held shelf.old }
    ensures asked { IsTrue (S.history shelf.old).told → AsksInOrder (docket_ask ∷ []) (S.history shelf.old) (S.history shelf.new) result }
    // The bytes are those that reads show at the end.
    ensures found { IsTrue (S.history shelf.old).told
        → IfOk result (λ same. IsTrue same ↔ (docket_in (now (S.history shelf.new)).files ≡ loaded.now.docket.items)) }
    ensures shown { IsTrue (S.history shelf.old).told
        → IfOk result (λ same. IsTrue same → shown_in (now (S.history shelf.new)).files ≡ loaded.now.shown.items) }
    ensures cause { HasCause (S.faults shelf.old) (S.faults shelf.new) result (λ e. Unit {0}) }
{
    let mut buf = [0; MOST];
    match read_docket(shelf, &mut buf) {
        Err(_) => Err(Failed),
        Ok(n) => Ok(buf.split_at(n).0 == loaded.docket.as_slice()),
    }
}
