//! The docket as it is read: each field at its place, and the first fault of bytes that are none.

ghost use Rattle.std.specs.Prelude.{◌≡◌, ◌+◌, ◌≤◌, ◌<◌, ◌^◌, take, drop, length, IfOk, IfSome, IsTrue, None};
ghost use Rattle.std.specs.Result.{result_err};
ghost use Rattle.hg_docket.specs.declared.fault.DocketFault.TheVariants.{Short};
ghost use Rattle.hg_docket.specs.Name.{foreign_place, is_name};
ghost use Rattle.hg_docket.specs.Written.{is_writable};
ghost use Rattle.hg_docket.specs.Docket.{view, number_at, empty_docket, docket_of, docket_refusal, first_other};

use crate::fault::DocketFault;
use crate::name::is_name_byte;
use hg_base::Id20;

/// What every docket begins with.
pub(crate) const MARKER: [u8; 12] = *b"dirstate-v2\n";

/// The SHA-1 of no bytes.
const EMPTY_HASH: [u8; 20] = [
    0xda, 0x39, 0xa3, 0xee, 0x5e, 0x6b, 0x4b, 0x0d, 0x32, 0x55, 0xbf, 0xef, 0x95, 0x60, 0x18, 0x90,
    0xaf, 0xd8, 0x07, 0x09,
];

/// The bytes before the identifier.
const HEAD_LEN: usize = 125;

/// What the file `.hg/dirstate` says (internals.dirstate-v2, "The docket file format").
#[derive(Clone, Copy, Debug)]
pub struct Docket<'a> {
    /// The first parent of the working copy, null where there is none.
    pub p1: Id20,
    /// The second parent, null but for a merge.
    pub p2: Id20,
    /// Where the records of the root's children begin, in bytes of the data file.
    pub root_start: u32,
    /// How many records they are.
    pub root_count: u32,
    /// How many nodes have an entry.
    pub entries: u32,
    /// How many nodes have a copy source.
    pub copies: u32,
    /// How many used bytes of the data file nothing leads to any more.
    pub unreachable: u32,
    /// The hash of the ignore patterns that the cached directories were seen with.
    pub hash: [u8; 20],
    /// How many bytes of the data file are used.
    pub used: u32,
    /// The identifier of the data file, empty where there is none.
    pub id: &'a [u8],
}

impl<'a> Docket<'a> {
    /// The docket of a working copy that has none: null parents, nothing tracked, no data file.
    fn empty() -> Docket<'a>
        ensures { view result ≡ empty_docket }
    {
        Docket {
            p1: Id20([0; 20]),
            p2: Id20([0; 20]),
            root_start: 0,
            root_count: 0,
            entries: 0,
            copies: 0,
            unreachable: 0,
            hash: EMPTY_HASH,
            used: 0,
            id: &[],
        }
    }

    /// Reads a docket; no bytes at all are the empty one. What stands behind the identifier is ignored.
    pub fn read(bytes: &'a [u8]) -> Result<Docket<'a>, DocketFault>
        requires { length bytes.now ≤ 512 }
        ensures refused { result_err result ≡ docket_refusal bytes.entry.now }
        ensures fields { IfOk result (λ d. view d ≡ docket_of bytes.entry.now) }
        // What is read can be written, and its identifier is one.
        ensures writable { IfOk result (λ d. IsTrue (is_writable (view d))) }
        ensures named { IfOk result (λ d. IsTrue (is_name d.id.now)) }
    {
        if bytes.is_empty() {
            return Ok(Docket::empty());
        }
        if let Some(at) = first_difference(&MARKER, bytes) {
            return Err(DocketFault::Marker { at });
        }
        let len = bytes.len();
        if len < HEAD_LEN {
            return Err(short(len, HEAD_LEN));
        }
        let id_len = bytes[124] as usize;
        if len < HEAD_LEN + id_len {
            return Err(short(len, HEAD_LEN + id_len));
        }
        let id = bytes.split_at(HEAD_LEN).1.split_at(id_len).0;
        if let Some(at) = foreign(id) {
            return Err(DocketFault::Identifier {
                at: 125 + at as u32,
            });
        }
        let used = u32_at(bytes, 120);
        if id.is_empty() {
            if used != 0 {
                return Err(DocketFault::NoIdentifier { used });
            }
        }
        Ok(Docket {
            p1: Id20(hash_at(bytes, 12)),
            p2: Id20(hash_at(bytes, 44)),
            root_start: u32_at(bytes, 76),
            root_count: u32_at(bytes, 80),
            entries: u32_at(bytes, 84),
            copies: u32_at(bytes, 88),
            unreachable: u32_at(bytes, 92),
            hash: hash_at(bytes, 100),
            used,
            id,
        })
    }
}

// So many bytes where more are needed.
fn short(len: usize, needed: usize) -> DocketFault
    requires less { len < needed }
    requires few { needed ≤ 512 }
    ensures { result ≡ Short len needed }
{
    DocketFault::Short {
        len: len as u32,
        needed: needed as u32,
    }
}

// The first place where both have a byte and the bytes differ.
fn first_difference(front: &[u8], bytes: &[u8]) -> Option<u8>
    requires { length front.now ≤ 12 }
    ensures { result ≡ first_other 0 front.now bytes.now }
{
    let mut at: u8 = 0;
    let mut front = front;
    let mut rest = bytes;
    while let [m, more @ ..] = front {
        let [b, after @ ..] = rest else {
            return None;
        };
        if *m != *b {
            return Some(at);
        }
        at += 1;
        front = more;
        rest = after;
    }
    None
}

// The number that stands at a place, its greatest byte first.
fn u32_at(bytes: &[u8], at: usize) -> u32
    requires { at + 4 ≤ length bytes.now }
    ensures { result ≡ number_at at bytes.now }
{
    u32::from_be_bytes([bytes[at], bytes[at + 1], bytes[at + 2], bytes[at + 3]])
}

// The 20 bytes that stand at a place.
fn hash_at(bytes: &[u8], at: usize) -> [u8; 20]
    requires { at + 20 ≤ length bytes.now }
    ensures { result ≡ take 20 (drop at bytes.now) }
{
    let mut hash = [0; 20];
    hash.copy_from_slice(bytes.split_at(at).1.split_at(20).0);
    hash
}

// The first place of a byte that no identifier has; with none, it is an identifier.
fn foreign(id: &[u8]) -> Option<usize>
    requires { length id.now ≤ 255 }
    ensures place { result ≡ foreign_place id.now }
    ensures bound { IfSome result (λ at. at ≤ 255) }
    ensures name { result ≡ None → IsTrue (is_name id.now) }
{
    first_foreign(id)
}

fn first_foreign(id: &[u8]) -> Option<usize>
    requires { length id.now ≤ 255 }
    ensures place { result ≡ foreign_place id.now }
    ensures bound { IfSome result (λ at. at ≤ 255) }
{
    id.iter().position(|b| !is_name_byte(*b))
}
