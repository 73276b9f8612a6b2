//! A table, written anew.

ghost use Rattle.std.specs.Prelude.{◌≡◌, ◌<◌, ◌≤◌, ◌^◌, [], IfOk, IfErr, IfSome, None, is_some, true};
ghost use Rattle.hg_docket.specs.Number.{next_name, number_of};
ghost use Rattle.hg_docket.specs.Docket.{docket_of};
ghost use Rattle.hg_docket.specs.Written as written;
ghost use Rattle.hg_image.specs.Counts.{is_counted};
ghost use Rattle.hg_image.specs.Reading.{reading_of};
ghost use Rattle.hg_image.specs.Rows.{rows_of};
ghost use Rattle.hg_nodes.specs.Edits.{IsFormed};
ghost use Rattle.hg_mixed.specs.Held.{table};
ghost use Rattle.hg_append.specs.Encoded.{HasCause, IsFit, IsSoundly, IsWritten, ReadsAs, Yields, contents_with};
ghost use Rattle.hg_append.specs.Layout.{size_of};
ghost use Rattle.hg_append.specs.Put.{kept};
ghost use Rattle.hg_append.specs.Tree.{IsTreeOf, Tree};
ghost use Rattle.hg_append.specs.Lost.{waste};
ghost use Rattle.hg_append.specs.declared.fault.EncodeFault.TheVariants.{IdsSpent, TooLarge};

use crate::encoding::Encoded;
use crate::ends::used_to;
use crate::fault::EncodeFault;
use crate::lists::{Put, put_list};
use crate::way::Way;
use hg_base::{OutOfMemory, PathRef};
use hg_docket::{Docket, Ident};
use hg_mixed::Mixed;
use std::alloc::Global;

// The identifier that follows.
fn next_id(id: &[u8]) -> Option<Ident>
    ensures next { result ≡ next_name id.now }
    ensures number { IfSome result (λ next. is_some (number_of next) ≡ true) }
{
    match Ident::read(id) {
        None => Ident::none().next(),
        Some(id) => id.next(),
    }
}

// The bytes of the docket that goes with what was put.
fn docket_bytes(
    alloc: Global,
    mixed: &Mixed<'_>,
    id: &Ident,
    put: Put,
    used: u32,
) -> Result<Vec<u8>, OutOfMemory>
    requires fit { IsFit put }
    requires named { is_some (number_of id.now) ≡ true }
    ensures bytes { IfOk result (λ v. v.items ≡ written.bytes_of (contents_with mixed.now id.now put used)) }
    ensures back { IfOk result (λ v. written.ReadsAs v.items (contents_with mixed.now id.now put used)) }
{
    let (p1, p2) = mixed.parents();
    let docket = Docket {
        p1,
        p2,
        root_start: put.start as u32,
        root_count: put.sums.count as u32,
        entries: put.sums.entries as u32,
        copies: put.sums.copies as u32,
        unreachable: 0,
        hash: mixed.hash(),
        used,
        id: id.as_bytes(),
    };
    let mut out = Vec::new(alloc);
    docket.write(&mut out)?;
    Ok(out)
}

// Room for as many bytes as the image has, and for an eighth more.
fn room(alloc: Global, mixed: &Mixed<'_>) -> Result<Vec<u8>, OutOfMemory>
    ensures { IfOk result (λ v. v.items ≡ []) }
{
    let used = mixed.image().docket.used as usize;
    let bytes = Vec::with_capacity(alloc, used + used / 8)?;
    Ok(bytes)
}

// Writes a table anew.
fn write(alloc: Global, mixed: &Mixed<'_>) -> Result<Encoded, EncodeFault>
    ensures written { IfOk result (λ e. IsSoundly mixed.now e) }
    ensures cause { IfErr result (λ e. HasCause mixed.now e) }
{
    let Some(id) = next_id(mixed.image().docket.id) else {
        return Err(EncodeFault::IdsSpent);
    };
    let mut bytes = room(alloc, mixed)?;
    let mut records = Vec::new(alloc);
    let put = put_list(
        mixed,
        Way::Rewrite,
        None,
        mixed.walk(None),
        0,
        &mut bytes,
        &mut records,
    )?;
    let used = used_to(put.sums.end)?;
    let docket = docket_bytes(alloc, mixed, &id, put, used)?;
    Ok(Encoded {
        place: 0,
        bytes,
        docket,
        id,
    })
}

// (a table tells what it keeps where it is asked)
fn formed(mixed: &Mixed<'_>)
    ensures { IsFormed (table mixed.now) }
{
    let _ = mixed.get(PathRef { text: "a" });
}

/// Writes a table anew: under the next identifier, and all bytes from place 0 on.
pub fn rewrite(alloc: Global, mixed: &Mixed<'_>) -> Result<Encoded, EncodeFault>
    // The bytes are those of the tree of all nodes, laid out as `specs/Layout.antt` says, and the docket is that of the tree.
    ensures written { IfOk result (λ e. IsWritten mixed.now e) }
    // Read again, they are the table.
    ensures reads { IfOk result (λ e. ReadsAs (table mixed.now) (reading_of e.docket.items e.bytes.items)) }
    // Each count is the one from scratch.
    ensures counted { IfOk result (λ e. is_counted (docket_of e.docket.items) (rows_of (docket_of e.docket.items) e.bytes.items) ≡ true) }
    // Something leads to each byte.
    ensures waste { IfOk result (λ e. waste (docket_of e.docket.items) (rows_of (docket_of e.docket.items) e.bytes.items) ≡ 0) }
    // Each fault comes for its cause alone. Where no identifier is left, that is told first, and else a size that is too great.
    ensures cause { IfErr result (λ e. HasCause mixed.now e) }
    ensures ids_spent { next_name mixed.now.docket.id ≡ None → Yields IdsSpent result }
    ensures too_large { (tree : Tree) → IsTreeOf mixed.now None tree → 2 ^ 32 ≤ size_of tree → is_some (next_name mixed.now.docket.id) ≡ true → Yields (TooLarge (kept (size_of tree))) result }
{
    formed(mixed);
    write(alloc, mixed)
}
