//! A table, written behind the data file that it was opened from.

ghost use Rattle.std.specs.Prelude.{◌≡◌, ◌<◌, ◌≤◌, ◌+◌, ◌-◌, ◌^◌, [], if◌then◌else◌, nat_lt, IfOk, IfErr, length};
ghost use Rattle.hg_docket.specs.Written as written;
ghost use Rattle.hg_mixed.specs.Held.{table};
ghost use Rattle.hg_append.specs.Put.{IsFew};
ghost use Rattle.hg_append.specs.declared.fault.EncodeFault.TheVariants.{TooLarge};
ghost use Rattle.hg_append.specs.declared.way.Way.TheVariants as a_way;
ghost use Rattle.hg_append.specs.Appended.{IsOverImage, IsSoundlyAppended};
ghost use Rattle.hg_append.specs.Appending.{HasAppendCause, IsFitBehind, IsRootPut, contents_put};
ghost use Rattle.hg_append.specs.Loss.{plan_of};

use crate::encoding::Encoded;
use crate::ends::used_to;
use crate::fault::EncodeFault;
use crate::lists::{Put, put_list};
use crate::loss::{Loss, left_behind};
use crate::sums::Sums;
use crate::way::Way;
use hg_base::OutOfMemory;
use hg_docket::{Docket, Ident};
use hg_image::List;
use hg_mixed::Mixed;
use std::alloc::Global;

// The list of the root, which stays where it is: nothing is put.
fn stays(list: List<'_>, entries: u32, used: u32) -> Put
    ensures start { result.start ≡ list.entry.start }
    ensures end { result.sums.end ≡ used }
    ensures count { result.sums.count ≡ list.entry.count }
    ensures entries { result.sums.entries ≡ entries }
    ensures copies { result.sums.copies ≡ 0 }
    ensures few { IsFew result }
{
    Put {
        start: list.start as u64,
        sums: Sums {
            end: used as u64,
            count: list.count as u64,
            entries: entries as u64,
            tracked: 0,
            copies: 0,
        },
    }
}

// Puts the list of the root with all that isn't lent, unless it is lent itself.
fn put_root(alloc: Global, mixed: &Mixed<'_>, bytes: &mut Vec<u8>) -> Result<Put, OutOfMemory>
    requires over { IsOverImage mixed.now }
    requires none { bytes.old.items ≡ [] }
    ensures put { IfOk result (λ p. IsRootPut mixed.now p bytes.new.items) }
    ensures few { IfOk result IsFew }
{
    let docket = mixed.image().docket;
    if let Some(list) = mixed.lent(None) {
        return Ok(stays(list, docket.entries, docket.used));
    }
    let mut records = Vec::new(alloc);
    let put = put_list(
        mixed,
        Way::Append,
        None,
        mixed.walk(None),
        docket.used as u64,
        bytes,
        &mut records,
    )?;
    Ok(put)
}

// How many nodes have a copy source: those of the image, but for what is lost, and those that were put.
fn copies_now(mixed: &Mixed<'_>, put: Put, loss: Loss) -> u32
    requires { IsFitBehind mixed.now put loss }
    ensures { result ≡ mixed.now.docket.copies - loss.copies + put.sums.copies }
{
    let image = mixed.image();
    let kept = (image.docket.copies as u64).saturating_sub(loss.copies);
    (kept + put.sums.copies) as u32
}

// What is lost, but not more than there is.
fn at_most(lost: u64, used: u32) -> u32
    ensures { result ≡ (if nat_lt used lost then used else lost) }
{
    if (used as u64) < lost {
        return used;
    }
    lost as u32
}

// The bytes of the docket that goes with what was put.
fn docket_bytes(
    alloc: Global,
    mixed: &Mixed<'_>,
    id: &Ident,
    put: Put,
    loss: Loss,
    used: u32,
) -> Result<Vec<u8>, OutOfMemory>
    requires fit { IsFitBehind mixed.now put loss }
    requires named { length id.now ≡ 0 → used ≡ 0 }
    ensures bytes { IfOk result (λ v. v.items ≡ written.bytes_of (contents_put mixed.now id.now put loss used)) }
    ensures back { IfOk result (λ v. written.ReadsAs v.items (contents_put mixed.now id.now put loss used)) }
{
    let (p1, p2) = mixed.parents();
    let docket = Docket {
        p1,
        p2,
        root_start: put.start as u32,
        root_count: put.sums.count as u32,
        entries: put.sums.entries as u32,
        copies: copies_now(mixed, put, loss),
        unreachable: at_most(loss.bytes, used),
        hash: mixed.hash(),
        used,
        id: id.as_bytes(),
    };
    let mut out = Vec::new(alloc);
    docket.write(&mut out)?;
    Ok(out)
}

// (a table tells what it keeps where it is asked)
fn over(mixed: &Mixed<'_>)
    requires { plan_of mixed.now ≡ a_way.Append }
    ensures { IsOverImage mixed.now }
{
    let _ = mixed.parents();
    let _ = mixed.image();
}

// The identifier that the data file has.
fn own_id(mixed: &Mixed<'_>) -> Ident
    requires { plan_of mixed.now ≡ a_way.Append }
    ensures id { mixed.now.docket.id ≡ result }
    ensures named { length result ≡ 0 → mixed.now.docket.used ≡ 0 }
{
    match Ident::read(mixed.image().docket.id) {
        Some(id) => id,
        None => unreachable!(),
    }
}

/// Writes a table behind its data file.
pub fn append(alloc: Global, mixed: &Mixed<'_>) -> Result<Encoded, EncodeFault>
    requires { plan_of mixed.now ≡ a_way.Append }
    ensures over { IsOverImage mixed.now }
    ensures appended { IfOk result (λ e. IsSoundlyAppended mixed.now e) }
    ensures cause { IfErr result (λ e. HasAppendCause mixed.now e) }
{
    over(mixed);
    let id = own_id(mixed);
    let mut bytes = Vec::new(alloc);
    let put = put_root(alloc, mixed, &mut bytes)?;
    let used = used_to(put.sums.end)?;
    let docket = docket_bytes(alloc, mixed, &id, put, left_behind(mixed), used)?;
    Ok(Encoded {
        place: mixed.image().docket.used,
        bytes,
        docket,
        id,
    })
}
