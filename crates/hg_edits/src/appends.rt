// Records that are appended to: a worked case byte for byte, and lists of edits at random, each saved and opened again, beside a plain table.
use crate::edits::{Edit, File, Plain, apply, is_same, rewritten};
use crate::encodings::{LONG, PATHS, drawn, some_edit};
use hg_append::{Encoded, Way, encode, plan};
use hg_docket::Docket;
use hg_image::{Image, List};
use hg_mixed::Mixed;
use std::alloc::Global;
use std::test::Fail;
use std::vec::Vec;

// A docket and a data file.
#[derive(Drop)]
struct Saved {
    docket: Vec<u8>,
    file: Vec<u8>,
}

// The docket of a record.
fn docket_of(saved: &Saved) -> Result<Docket<'_>, Fail> {
    if saved.docket.len() > 512 {
        return Err("a docket that is too long".into());
    }
    Ok(Docket::read(&saved.docket).ok().ok_or("a sound docket")?)
}

// The record of these edits of an empty table, written anew.
fn saved_anew(alloc: Global, edits: &[Edit]) -> Result<Saved, Fail> {
    let docket = Docket::read(b"")?;
    let mut m = Mixed::open(Image::open(&docket, b"")?);
    let mut plain = Plain::of(alloc, PATHS)?;
    for it in edits {
        apply(alloc, &mut m, &mut plain, *it)?;
    }
    let encoded = rewritten(alloc, &m)?;
    Ok(Saved {
        docket: encoded.docket,
        file: encoded.bytes,
    })
}

// What one more edit of a record is encoded as, by the better way.
fn one_more(alloc: Global, saved: &Saved, edit: Edit) -> Result<(Way, Encoded), Fail> {
    let docket = docket_of(saved)?;
    let mut m = Mixed::open(Image::open(&docket, &saved.file)?);
    let mut plain = Plain::of(alloc, PATHS)?;
    apply(alloc, &mut m, &mut plain, edit)?;
    let way = plan(&m);
    Ok((way, encode(alloc, &m, way)?))
}

// `b` behind the three files of a record of 184 bytes: its path, and the list of the root with it. The list of `d` stays at 7.
const BEHIND: &[u8] = b"b\
\x00\x00\x00\x00\x00\x01\x00\x00\x00\x00\x00\x00\x00\x00\x00\x00\x00\x00\x00\x00\x00\x00\
\x00\x00\x00\x00\x00\x00\x00\x00\x00\x01\x00\x00\x00\x00\x00\x00\x00\x00\x00\x00\x00\x00\
\x00\x00\x00\xb8\x00\x01\x00\x00\x00\x00\x00\x00\x00\x00\x00\x00\x00\x00\x00\x00\x00\x00\
\x00\x00\x00\x00\x00\x00\x00\x00\x00\x01\x00\x00\x00\x00\x00\x00\x00\x00\x00\x00\x00\x00\
\x00\x00\x00\x5f\x00\x01\x00\x00\x00\x00\x00\x00\x00\x00\x00\x00\x00\x07\x00\x00\x00\x02\
\x00\x00\x00\x02\x00\x00\x00\x02\x00\x00\x00\x00\x00\x00\x00\x00\x00\x00\x00\x00\x00\x00";

// Its docket: the list of the root at 185 with 3 nodes, 4 entries, no copy source, 88 bytes that nothing leads to, 317 used.
const NUMBERS: &[u8] =
    b"\x00\x00\x00\xb9\x00\x00\x00\x03\x00\x00\x00\x04\x00\x00\x00\x00\x00\x00\x00\x58\x00\x00\x00\x00";

const END: &[u8] = b"\x00\x00\x01\x3d\x100000000000000000";

#[test]
fn appends_a_file(rt: HostRuntime) -> Result<(), Fail> {
    let alloc = rt.alloc();
    let saved = saved_anew(
        alloc,
        &[
            Edit::Set("a", File::Added),
            Edit::Set("d/0", File::Added),
            Edit::Set("d/1", File::Added),
        ],
    )?;
    assert_eq!(rt; saved.file.len(), 184);
    let (way, encoded) = one_more(alloc, &saved, Edit::Set("b", File::Added))?;
    assert_eq!(rt; way, Way::Append);
    assert_eq!(rt; encoded.place, 184);
    assert_eq!(rt; encoded.bytes.as_slice(), BEHIND);
    assert_eq!(rt; encoded.docket.len(), 141);
    assert_eq!(rt; encoded.docket.get(76..100), Some(NUMBERS));
    assert_eq!(rt; encoded.docket.get(120..), Some(END));
    Ok(())
}

// A half of the file would be left behind, no less: it is written anew.
#[test]
fn rewrites_at_a_half(rt: HostRuntime) -> Result<(), Fail> {
    let alloc = rt.alloc();
    let saved = saved_anew(
        alloc,
        &[Edit::Set("a", File::Added), Edit::Set(LONG, File::Added)],
    )?;
    assert_eq!(rt; saved.file.len(), 176);
    let (way, encoded) = one_more(alloc, &saved, Edit::Set("b", File::Added))?;
    assert_eq!(rt; way, Way::Rewrite);
    assert_eq!(rt; encoded.place, 0);
    assert_eq!(rt; encoded.bytes.len(), 221);
    assert_eq!(rt; encoded.id.as_bytes(), b"0000000000000001".as_slice());
    Ok(())
}

// How many bytes the nodes of a list and all below it lead to: their records, their paths and their copy sources.
fn reached(list: List<'_>) -> u64 {
    let mut sum = 0_u64;
    for i in 0..list.len() {
        let node = list.get(i);
        let rec = node.rec();
        let source = if rec.copy_start == 0 { 0 } else { rec.copy_len };
        sum = sum
            .saturating_add(44)
            .saturating_add(rec.path_len as u64)
            .saturating_add(source as u64)
            .saturating_add(reached(node.children()));
    }
    sum
}

// A saved record says what the plain table does, with right counts; and the docket tells exactly how many bytes nothing leads to.
fn is_saved(alloc: Global, saved: &Saved, plain: &Plain) -> Result<(), Fail> {
    let docket = docket_of(saved)?;
    let image = Image::open(&docket, &saved.file)?;
    if !image.counted() {
        return Err("counts that are wrong".into());
    }
    let needed = reached(image.root());
    if needed.saturating_add(docket.unreachable as u64) != docket.used as u64 {
        return Err("another number of bytes that nothing leads to".into());
    }
    let m = Mixed::open(image);
    if !is_same(&m, plain)? {
        return Err("another table is read".into());
    }
    Ok(())
}

// Some edits of a record, and what it is encoded as then.
fn changed(
    alloc: Global,
    saved: &Saved,
    plain: &mut Plain,
    state: &mut u64,
) -> Result<(Way, Encoded), Fail> {
    let docket = docket_of(saved)?;
    let mut m = Mixed::open(Image::open(&docket, &saved.file)?);
    for _ in 0..drawn(state, 4) {
        apply(alloc, &mut m, plain, some_edit(state))?;
    }
    let way = plan(&m);
    Ok((way, encode(alloc, &m, way)?))
}

// Writes it.
fn write(saved: &mut Saved, encoded: Encoded) -> Result<(), Fail> {
    saved.file.truncate(encoded.place as usize);
    saved.file.extend_from_slice(&encoded.bytes)?;
    saved.docket = encoded.docket;
    Ok(())
}

// A record that is changed and saved again and again; how often it was appended to and written anew.
fn one_history(alloc: Global, state: &mut u64, counts: &mut (u64, u64)) -> Result<(), Fail> {
    let mut saved = Saved {
        docket: Vec::new(alloc),
        file: Vec::new(alloc),
    };
    let mut plain = Plain::of(alloc, PATHS)?;
    for _ in 0..10 {
        let (way, encoded) = changed(alloc, &saved, &mut plain, state)?;
        match way {
            Way::Append => counts.0 = counts.0.saturating_add(1),
            Way::Rewrite => counts.1 = counts.1.saturating_add(1),
        }
        write(&mut saved, encoded)?;
        is_saved(alloc, &saved, &plain)?;
    }
    Ok(())
}

#[test]
fn saves_again_and_again(rt: HostRuntime) -> Result<(), Fail> {
    let mut state = 7;
    let mut counts = (0, 0);
    for _ in 0..400 {
        one_history(rt.alloc(), &mut state, &mut counts)?;
    }
    assert_eq!(rt; counts.0 > 400, true, "{}", counts.0);
    assert_eq!(rt; counts.1 > 400, true, "{}", counts.1);
    Ok(())
}
