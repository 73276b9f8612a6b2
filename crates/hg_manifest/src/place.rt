//! Where the lines of a text stand, and what stands there.

ghost use Rattle.std.specs.Prelude.{◌≡◌, ◌≤◌, true, Some, take, drop, length, is_some};
ghost use Rattle.hg_manifest.specs.Kept.{FindsPlaces, IsNext, IsPlace, row_in};
ghost use Rattle.hg_manifest.specs.Line.{id_of, line_of};

use crate::fault::ManifestFault;
use crate::line::{Front, read_line};
use crate::row::FileRow;
use hex::FromHex;
use hg_base::{Id20, PathRef};
use std::alloc::Global;

/// Where a line begins in its text, and how many bytes its path has.
#[derive(Clone, Copy, Debug)]
pub(crate) struct Place {
    pub start: u32,
    pub len: u32,
}

// The line at the front of a text, if its path comes after that of the line before.
fn next_line<'a>(text: &'a [u8], before: &str, number: u32) -> Result<Front<'a>, ManifestFault>
    ensures { IsNext before.now number (line_of text.now) result }
{
    match read_line(text) {
        None => Err(ManifestFault::ManifestLine { line: number }),
        Some(front) => if before < front.path.text {
            Ok(front)
        } else {
            Err(ManifestFault::ManifestOrder { line: number })
        },
    }
}

/// The places of all lines of a text, or its first fault. (A function by itself keeps what the loop carries in registers.)
#[inline(never)]
pub(crate) fn read_places(alloc: Global, text: &[u8]) -> Result<Vec<Place>, ManifestFault>
    requires { length text.now ≤ 67108864 }
    ensures { FindsPlaces text.now result }
{
    let mut places = Vec::new(alloc);
    let mut rest = text;
    let mut before = "";
    let mut number = 1;
    'lines: while !rest.is_empty() {
        let front = next_line(rest, before, number)?;
        places.push(Place {
            start: (text.len() - rest.len()) as u32,
            len: front.path.text.len() as u32,
        })?;
        before = front.path.text;
        rest = front.rest;
        number += 1;
    }
    Ok(places)
}

/// The path of the line at a place.
#[tactic(auto, using(crate::proofs::Places::place_fits, crate::proofs::Places::path_there, crate::proofs::Places::path_utf8, crate::proofs::Places::path_good))]
pub(crate) fn path_in(text: &[u8], place: Place) -> PathRef<'_>
    requires { IsPlace text.now place }
    ensures { result.text.now ≡ (row_in text.now place).0 }
{
    let path = text
        .split_at(place.start as usize)
        .1
        .split_at(place.len as usize)
        .0;
    PathRef {
        text: unsafe { std::str::from_utf8_unchecked(path) },
    }
}

// The identifier that forty digits spell.
fn id_in(digits: &[u8]) -> Id20
    requires { is_some (id_of digits.now) ≡ true }
    ensures { id_of digits.now ≡ Some result }
{
    match <[u8; 20] as FromHex>::from_hex(digits) {
        Ok(id) => Id20(id),
        Err(_) => unreachable!(),
    }
}

/// What the line at a place says of its path.
#[tactic(auto, using(crate::proofs::Places::place_fits, crate::proofs::Places::digits_there, crate::proofs::Places::file_there))]
pub(crate) fn file_in(text: &[u8], place: Place) -> FileRow
    requires { IsPlace text.now place }
    ensures { result ≡ (row_in text.now place).1 }
{
    let behind = text
        .split_at(place.start as usize)
        .1
        .split_at(place.len as usize + 1)
        .1;
    let (digits, end) = behind.split_at(40);
    FileRow {
        id: id_in(digits),
        exec: end[0] == b'x',
        link: end[0] == b'l',
    }
}
