//! What of a data file an append leaves behind.

ghost use Rattle.std.specs.Prelude.{◌≡◌, ◌∷◌, ◌==◌, [], false, if◌then◌else◌};
ghost use Rattle.hg_base.specs.PathText.{parent_of};
ghost use Rattle.hg_image.specs.View.{row, rows_in};
ghost use Rattle.hg_docket.specs.Written.{is_writable};
ghost use Rattle.hg_docket.specs.Docket.{view};
ghost use Rattle.hg_mixed.specs.Held.{is_lent};
ghost use Rattle.hg_mixed.specs.Shown.{AreLentWhole};
ghost use Rattle.hg_append.specs.Lost as lost;
ghost use Rattle.hg_append.specs.Put.{kept};
ghost use Rattle.hg_append.specs.Appended.{lost_copies};
ghost use Rattle.hg_append.specs.Loss as losses;
ghost use Rattle.hg_append.specs.Loss.{IsOfImage, loss_of, plan_of};

use crate::way::Way;
use hg_docket::{Docket, Ident};
use hg_entry::bits::has_entry;
use hg_image::{List, NodeRef};
use hg_mixed::Mixed;
use hg_node::Rec;

/// How many bytes nothing would lead to any more, and how many nodes with a copy source they have. A number that would be greater than the greatest of 64
/// bits stays at that.
#[derive(Clone, Copy)]
pub struct Loss {
    pub bytes: u64,
    pub copies: u64,
}

fn nothing() -> Loss
    ensures bytes { result.bytes ≡ 0 }
    ensures copies { result.copies ≡ 0 }
{
    Loss {
        bytes: 0,
        copies: 0,
    }
}

fn plus(a: Loss, b: Loss) -> Loss
    ensures { result ≡ losses.plus a b }
{
    Loss {
        bytes: a.bytes.saturating_add(b.bytes),
        copies: a.copies.saturating_add(b.copies),
    }
}

// Whether a text is lent still from its place.
fn is_at(at: Option<u32>, place: u32) -> bool
    ensures { result ≡ lost.is_at at place }
{
    match at {
        None => false,
        Some(at) => at == place,
    }
}

// A length, unless the text is lent.
fn unless(lent: bool, length: u16) -> u64
    ensures { result ≡ (if lent then 0 else length) }
{
    if lent { 0 } else { length as u64 }
}

// The length of the copy source that a record names; a start of 0 names none.
fn named_length(rec: Rec) -> u16
    ensures { result ≡ (if rec.copy_start == 0 then 0 else rec.copy_len) }
{
    if rec.copy_start == 0 { 0 } else { rec.copy_len }
}

fn one_if(holds: bool) -> u64
    ensures { result ≡ (if holds then 1 else 0) }
{
    if holds { 1 } else { 0 }
}

// What is lost of a node, whose list isn't lent.
fn loss_at(mixed: &Mixed<'_>, node: NodeRef<'_>) -> Loss
    requires { is_lent mixed.now (parent_of (row node).path) ≡ false }
    ensures { result ≡ loss_of mixed.now (row node.entry ∷ []) }
{
    let rec = node.rec();
    let (text_at, source_at) = mixed.places(node.path());
    let path = unless(is_at(text_at, rec.path_start), rec.path_len);
    let named = has_entry(rec.flags) && is_at(source_at, rec.copy_start);
    let source = unless(named, named_length(rec));
    Loss {
        bytes: 44 + path + source,
        copies: one_if(node.source().is_some()),
    }
}

// What is lost of a list of the image and of all below it: nothing, where it is lent.
fn loss_in(mixed: &Mixed<'_>, list: List<'_>) -> Loss
    requires whole { AreLentWhole mixed.now }
    requires of { IsOfImage mixed.now list }
    ensures { result ≡ loss_of mixed.now (rows_in list.entry) }
{
    if list.len() == 0 {
        return nothing();
    }
    if mixed.is_lent(list.dir) {
        return nothing();
    }
    let mut sum = nothing();
    for i in 0..list.len() {
        let node = list.get(i);
        let under = loss_in(mixed, node.children());
        sum = plus(sum, plus(loss_at(mixed, node), under));
    }
    sum
}

/// What of the data file an append would leave behind, with what nothing leads to already.
pub fn left_behind(mixed: &Mixed<'_>) -> Loss
    ensures bytes { result.bytes ≡ kept (lost.lost mixed.now) }
    ensures copies { result.copies ≡ kept (lost_copies mixed.now) }
{
    let image = mixed.image();
    let now = loss_in(mixed, image.root());
    Loss {
        bytes: now.bytes.saturating_add(image.docket.unreachable as u64),
        copies: now.copies,
    }
}

// Whether a docket can be written again: its identifier is one, and there is one where there is a data file.
fn is_writable(docket: Docket<'_>) -> bool
    ensures { result ≡ is_writable (view docket.entry) }
{
    Ident::read(docket.id).is_some() && (!docket.id.is_empty() || docket.used == 0)
}

/// How a table is best written: behind its data file, where the counts of that are right and less than half of it would be left behind; else anew.
pub fn plan(mixed: &Mixed<'_>) -> Way
    ensures { result ≡ plan_of mixed.now }
{
    let image = mixed.image();
    if !is_writable(image.docket) {
        return Way::Rewrite;
    }
    if !image.counted() {
        return Way::Rewrite;
    }
    if left_behind(mixed).bytes.saturating_mul(2) < image.docket.used as u64 {
        return Way::Append;
    }
    Way::Rewrite
}
