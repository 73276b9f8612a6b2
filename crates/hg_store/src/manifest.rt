//! Storing a manifest.

ghost use Rattle.std.specs.Prelude.{◌≡◌, ◌≤◌, ◌-◌, ◌^◌, ◌++◌, None, min, length, OnOk, IfOk, IfErr};
ghost use Rattle.hg_manifest.specs.Plain.{plain_name};
ghost use Rattle.hg_shelf.specs.Images.{course, last_scene};
ghost use Rattle.hg_store.specs.Rows.{AnswersManifest, DecidesManifest, IsBefore, flag_of, line_of, text_of};
ghost use Rattle.hg_store.specs.Standing.{CountsShelf, OnClash, clashes};
ghost use Rattle.hg_store.specs.Storing.{IsAlone, IsStored, Keeps, Leads, Proceeds, new_name};
ghost use Rattle.sha1.specs.Sha1.{sha1};

use crate::fault::StoreFault;
use crate::names::{Plain, digits_of};
use crate::rows::{NewRow, NewRows};
use crate::text::store_text;
use hg_base::{Id20, OutOfMemory};
use hg_compare::Room;
use hg_manifest::FileRow;
use hg_shelf::Shelf;
use std::alloc::Global;

// A manifest has at most so many bytes.
const MOST: u64 = 67_108_864;

// The flag of a row.
fn flag_of(row: &FileRow) -> &'static [u8]
    ensures { result.now ≡ flag_of row.now }
{
    if row.link {
        return b"l";
    }
    if row.exec {
        return b"x";
    }
    &[]
}

// How many bytes the line of a row has.
fn line_len(row: &NewRow) -> u64
    ensures { result ≡ length (line_of row.now) }
{
    let digits = digits_of(&row.row.id);
    row.path.as_ref().as_str().len() as u64
        + digits.len() as u64
        + flag_of(&row.row).len() as u64
        + 2
}

// How many bytes the lines have, at most 2^64 - 1.
fn text_len(rows: &NewRows) -> u64
    ensures { result ≡ min (length (text_of rows.now)) (2 ^ 64 - 1) }
{
    let mut len: u64 = 0;
    for i in 0..rows.len() {
        len = len.saturating_add(line_len(rows.at(i)));
    }
    len
}

// Puts the line of a row behind a text.
fn put_line(text: &mut Vec<u8>, row: &NewRow) -> Result<(), OutOfMemory>
    ensures { OnOk result (text.new.items ≡ text.old.items ++ line_of row.now) }
{
    text.extend_from_slice(row.path.as_ref().as_str().as_bytes())?;
    text.push(0)?;
    text.extend_from_slice(&digits_of(&row.row.id))?;
    text.extend_from_slice(flag_of(&row.row))?;
    text.push(b'\n')?;
    Ok(())
}

// The lines, one behind another.
fn text_of(alloc: Global, rows: &NewRows) -> Result<Vec<u8>, OutOfMemory>
    ensures { IfOk result (λ text. text.items ≡ text_of rows.now) }
{
    let mut text = Vec::new(alloc);
    for i in 0..rows.len() {
        put_line(&mut text, rows.at(i))?;
    }
    Ok(text)
}

/// Stores the manifest of these rows in the plain store, and answers its identifier, the SHA-1 of its text.
///
/// A text of over 67,108,864 bytes is refused before anything is written, with its size in bytes. Rows that ascend by path, as a commit has them, are read
/// back by `hg_manifest` as they are.
pub fn store_manifest<S: Shelf>(
    alloc: Global,
    shelf: &mut S,
    rows: &NewRows,
    room: &mut Room,
) -> Result<Id20, StoreFault>
    ensures answers { AnswersManifest (text_of rows.now) result }
    ensures leads { IsAlone (course (S.history shelf.old) (S.images shelf.old)) (course (S.history shelf.new) (S.images shelf.new))
        → Leads (Keeps ((last_scene (course (S.history shelf.old) (S.images shelf.old))).files (plain_name (sha1 (text_of rows.now)))) (plain_name (sha1 (text_of rows.now))) (text_of rows.now)) (course (S.history shelf.old) (S.images shelf.old)) (course (S.history shelf.new) (S.images shelf.new)) }
    ensures decided { IsAlone (course (S.history shelf.old) (S.images shelf.old)) (course (S.history shelf.new) (S.images shelf.new))
        → DecidesManifest (clashes (sha1 (text_of rows.now)) ((last_scene (course (S.history shelf.old) (S.images shelf.old))).files (plain_name (sha1 (text_of rows.now)))) (text_of rows.now)) result }
    ensures stored { IsAlone (course (S.history shelf.old) (S.images shelf.old)) (course (S.history shelf.new) (S.images shelf.new)) → OnOk result (IsStored (plain_name (sha1 (text_of rows.now))) (text_of rows.now) (course (S.history shelf.old) (S.images shelf.old)) (course (S.history shelf.new) (S.images shelf.new))) }
    // A clash leaves no new file.
    ensures cleared { IsAlone (course (S.history shelf.old) (S.images shelf.old)) (course (S.history shelf.new) (S.images shelf.new)) → OnClash ((last_scene (course (S.history shelf.new) (S.images shelf.new))).files new_name ≡ None) result }
    // Want of memory and a text that is too large are told before anything is written.
    ensures before { IfErr result (λ fault. IsBefore fault → shelf.new ≡ shelf.old) }
    ensures proceeds { Proceeds (course (S.history shelf.old) (S.images shelf.old)) (course (S.history shelf.new) (S.images shelf.new)) }
    ensures held { S.held shelf.new ≡ S.held shelf.old }
    ensures count { CountsShelf (S.faults shelf.old) (S.faults shelf.new) result }
{
    let size = text_len(rows);
    if size > MOST {
        return Err(StoreFault::ManifestTooLarge { size });
    }
    match text_of(alloc, rows) {
        Err(_) => Err(StoreFault::OutOfMemory),
        Ok(text) => store_text(shelf, Plain::Manifest, text.as_slice(), room),
    }
}
