//! A table, encoded by either way.

ghost use Rattle.std.specs.Prelude.{◌≡◌, ◌+◌, ◌≤◌, ◌^◌, ℕ, List, Option, None, IfErr, IfOk, is_some, true};
ghost use Rattle.hg_docket.specs.Docket.{docket_of};
ghost use Rattle.hg_docket.specs.Number.{next_name};
ghost use Rattle.hg_image.specs.Counts.{is_counted};
ghost use Rattle.hg_image.specs.Reading.{reading_of};
ghost use Rattle.hg_image.specs.Rows.{rows_of};
ghost use Rattle.hg_mixed.specs.Held.{is_lent, table};
ghost use Rattle.hg_append.specs.Encoded.{IsWritten, ReadsAs, Yields};
ghost use Rattle.hg_append.specs.Layout.{size_of};
ghost use Rattle.hg_append.specs.Lost.{waste};
ghost use Rattle.hg_append.specs.Put.{kept};
ghost use Rattle.hg_append.specs.Tree.{IsTreeOf, Tree};
ghost use Rattle.hg_append.specs.declared.fault.EncodeFault.TheVariants.{IdsSpent, TooLarge};
ghost use Rattle.hg_append.specs.declared.way.Way.TheVariants as a_way;
ghost use Rattle.hg_append.specs.Appended.{IsAppended, IsExact, IsNewTree, StaysAt, end_with};
ghost use Rattle.hg_append.specs.Either.{CanEncode, HasCauseBy, file_of};

use crate::appending::append;
use crate::fault::EncodeFault;
use crate::rewriting::rewrite;
use crate::way::Way;
use hg_docket::Ident;
use hg_mixed::Mixed;
use std::alloc::Global;

/// A table as a docket and a data file.
#[derive(Drop)]
pub struct Encoded {
    /// Where in the data file the bytes are to be written.
    pub place: u32,
    /// What is to be written there.
    pub bytes: Vec<u8>,
    /// The bytes of the docket.
    pub docket: Vec<u8>,
    /// The identifier of the data file.
    pub id: Ident,
}

/// Encodes a table as a docket and as what is to be written to the data file: behind its used bytes, under the identifier that it has, where `plan` answers
/// that; or anew, under the next identifier, from place 0 on.
///
/// What fails leaves the table as it is; nothing is written to a disk.
pub fn encode(alloc: Global, mixed: &Mixed<'_>, way: Way) -> Result<Encoded, EncodeFault>
    requires { CanEncode mixed.now way }
    ensures written { way ≡ a_way.Rewrite → IfOk result (IsWritten mixed.now) }
    // Behind the data file come the nodes that aren't in lists that are lent, laid out as they are written anew, and the docket counts all.
    ensures appended { way ≡ a_way.Append → IfOk result (IsAppended mixed.now) }
    // Read again from the data file, once it is written there, it is the table.
    ensures reads { IfOk result (λ e. ReadsAs (table mixed.now) (reading_of e.docket.items (file_of mixed.now e))) }
    // Each count is the one from scratch.
    ensures counted { IfOk result (λ e. is_counted (docket_of e.docket.items) (rows_of (docket_of e.docket.items) (file_of mixed.now e)) ≡ true) }
    // Anew, something leads to each byte. Behind, the unreachable number is the waste where it was so, and no two texts or records shared bytes.
    ensures waste { way ≡ a_way.Rewrite → IfOk result (λ e. waste (docket_of e.docket.items) (rows_of (docket_of e.docket.items) (file_of mixed.now e)) ≡ 0) }
    ensures told { way ≡ a_way.Append
        → IsExact mixed.now
        → IfOk
        result
        (λ e. (docket_of e.docket.items).unreachable ≡ waste (docket_of e.docket.items) (rows_of (docket_of e.docket.items) (file_of mixed.now e))) }
    // Each list that is lent stands where it stood, that of the root among them.
    ensures stays { way ≡ a_way.Append
        → IfOk result (λ e. (dir : Option (List ℕ)) → is_lent mixed.now dir ≡ true → StaysAt mixed.now e dir) }
    ensures cause { IfErr result (HasCauseBy mixed.now way) }
    // Where no identifier is left for a new file, that is told first; a file that would be too large is always told, unless there is no memory.
    ensures ids_spent { way ≡ a_way.Rewrite → next_name mixed.now.docket.id ≡ None → Yields IdsSpent result }
    ensures too_large_anew { way ≡ a_way.Rewrite
        → (tree : Tree) → IsTreeOf mixed.now None tree → 2 ^ 32 ≤ size_of tree → is_some (next_name mixed.now.docket.id) ≡ true → Yields (TooLarge (kept (size_of tree))) result }
    ensures too_large { way ≡ a_way.Append
        → (tree : Tree) → IsNewTree mixed.now tree → 2 ^ 32 ≤ end_with mixed.now tree → Yields (TooLarge (kept (end_with mixed.now tree))) result }
{
    match way {
        Way::Rewrite => rewrite(alloc, mixed),
        Way::Append => append(alloc, mixed),
    }
}
