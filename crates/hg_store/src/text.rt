//! Storing a text that is at hand.

ghost use Rattle.std.specs.Prelude.{◌≡◌, ℕ, List, None, false, OnOk, IfOk, IfErr, bytes_eq, replicate};
ghost use Rattle.hg_shelf.specs.Images.{course, last_scene};
ghost use Rattle.hg_store.specs.Names.{plain_file};
ghost use Rattle.hg_store.specs.Standing.{CountsShelf, Decides, IsSettleFault, OnClash, clashes};
ghost use Rattle.hg_store.specs.Storing.{IsAlone, IsStored, Keeps, Leads, Proceeds, new_name};
ghost use Rattle.sha1.specs.Sha1.{sha1};

use crate::comparing::HALF;
use crate::fault::StoreFault;
use crate::names::{Plain, PlainName};
use crate::settling::settle;
use crate::writing::write_text;
use hg_base::Id20;
use hg_compare::Room;
use hg_shelf::Shelf;
use sha1::Sha1;

/// Stores a text under the SHA-1 of its bytes, and answers that identifier.
pub(crate) fn store_text<S: Shelf>(
    shelf: &mut S,
    plain: Plain,
    text: &[u8],
    room: &mut Room,
) -> Result<Id20, StoreFault>
    ensures leads { IsAlone (course (S.history shelf.old) (S.images shelf.old)) (course (S.history shelf.new) (S.images shelf.new))
        → Leads (Keeps ((last_scene (course (S.history shelf.old) (S.images shelf.old))).files (plain_file plain (sha1 text.now))) (plain_file plain (sha1 text.now)) text.now) (course (S.history shelf.old) (S.images shelf.old)) (course (S.history shelf.new) (S.images shelf.new)) }
    ensures decided { IsAlone (course (S.history shelf.old) (S.images shelf.old)) (course (S.history shelf.new) (S.images shelf.new))
        → Decides (clashes (sha1 text.now) ((last_scene (course (S.history shelf.old) (S.images shelf.old))).files (plain_file plain (sha1 text.now))) text.now) (record { 0 = sha1 text.now }) result }
    ensures stored { IsAlone (course (S.history shelf.old) (S.images shelf.old)) (course (S.history shelf.new) (S.images shelf.new)) → OnOk result (IsStored (plain_file plain (sha1 text.now)) text.now (course (S.history shelf.old) (S.images shelf.old)) (course (S.history shelf.new) (S.images shelf.new))) }
    ensures named { IfOk result (λ id. id.0 ≡ sha1 text.now) }
    ensures cleared { IsAlone (course (S.history shelf.old) (S.images shelf.old)) (course (S.history shelf.new) (S.images shelf.new)) → OnClash ((last_scene (course (S.history shelf.new) (S.images shelf.new))).files new_name ≡ None) result }
    ensures kind { IfErr result (IsSettleFault (record { 0 = sha1 text.now })) }
    ensures known { OnOk result (bytes_eq (sha1 text.now) (replicate 20 0) ≡ false) }
    ensures proceeds { Proceeds (course (S.history shelf.old) (S.images shelf.old)) (course (S.history shelf.new) (S.images shelf.new)) }
    ensures held { S.held shelf.new ≡ S.held shelf.old }
    ensures count { CountsShelf (S.faults shelf.old) (S.faults shelf.new) result }
{
    write_text(shelf, text)?;
    let id = Id20(Sha1::digest(text));
    let name = PlainName::of(plain, &id);
    let (mine, theirs) = room.buffer().split_at_mut(HALF);
    match settle(shelf, name.as_str(), id, text.len() as u64, mine, theirs) {
        Ok(()) => Ok(id),
        Err(fault) => Err(fault),
    }
}
