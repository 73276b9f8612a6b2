// What edits leave of a table, and what it is encoded as: worked cases, and many lists of edits at random beside a plain table.
use crate::edits::{Edit, File, Plain, When, apply, is_same, reads_back, rewritten};
use hg_docket::Docket;
use hg_image::Image;
use hg_mixed::Mixed;
use std::alloc::Global;
use std::test::Fail;

pub(crate) const LONG: &str = "d/0123456789012345678901234567890123456789";

// The paths that edits name, ascending by bytes.
pub(crate) const PATHS: &[&str] = &[
    "a",
    "a-b",
    "a/b",
    "a/b-c",
    "a/b/c",
    "a/b/d",
    "a/e",
    "a0",
    "b",
    "d",
    "d/0",
    LONG,
    "d/1",
    "d/b",
    "z/y/x/w",
    "z/y/x/w/v",
];

// The case, the edits of an empty table, how many bytes its data file then has, and what stands at `a`, `d`, `d/0` and `d/b`: an entry, a
// cached directory, a node, or nothing.
const CASES: &[(&str, &[Edit], usize, &str)] = &[
    ("nothing", &[], 0, "----"),
    ("one file", &[Edit::Set("a", File::Added)], 45, "!---"),
    (
        "a directory",
        &[
            Edit::Set("a", File::Added),
            Edit::Set("d/0", File::Added),
            Edit::Set("d/1", File::Added),
        ],
        184,
        "!.!-",
    ),
    (
        "a long name",
        &[
            Edit::Set("a", File::Added),
            Edit::Set(LONG, File::Added),
            Edit::Set("b", File::Added),
        ],
        221,
        "!.--",
    ),
    (
        "all dropped below a directory",
        &[
            Edit::Set("a", File::Added),
            Edit::Set("d/0", File::Added),
            Edit::Set("d/b", File::Added),
            Edit::Drop("d/0"),
            Edit::Drop("d/b"),
        ],
        45,
        "!---",
    ),
    (
        "a drop takes the cache",
        &[
            Edit::Set("d/0", File::Added),
            Edit::Set("d/b", File::Added),
            Edit::Note("d", When::Noon),
            Edit::Drop("d/0"),
        ],
        92,
        "-.-!",
    ),
    (
        "caches dropped",
        &[
            Edit::Set("d/b", File::Added),
            Edit::Note("d", When::Noon),
            Edit::NoCaches,
        ],
        92,
        "-.-!",
    ),
    (
        "a cache kept",
        &[Edit::Set("d/b", File::Added), Edit::Note("d", When::Late)],
        92,
        "-*-!",
    ),
    (
        "a source",
        &[
            Edit::Set("d/b", File::Added),
            Edit::Copy("d/b", Some("a")),
            Edit::Set("d/b", File::Clean),
        ],
        93,
        "-.-!",
    ),
    (
        "no source behind a drop",
        &[
            Edit::Set("d/b", File::Clean),
            Edit::Copy("d/b", Some("a")),
            Edit::Drop("d/b"),
            Edit::Set("d/b", File::Clean),
        ],
        92,
        "-.-!",
    ),
    (
        "a removed file where a directory is",
        &[Edit::Set("d/b", File::Added), Edit::Set("d", File::Removed)],
        92,
        "-!-!",
    ),
    (
        "a clash",
        &[Edit::Set("d/b", File::Added), Edit::Set("d", File::Added)],
        92,
        "-.-!",
    ),
];

fn mark(plain: &Plain, path: &str) -> &'static str {
    match plain.row(path) {
        None => "?",
        Some(row) => {
            if row.entry.is_some() {
                return "!";
            }
            if row.cache.is_some() {
                return "*";
            }
            if row.there { "." } else { "-" }
        }
    }
}

fn marks(alloc: Global, plain: &Plain) -> Result<String, Fail> {
    let mut text = String::new(alloc);
    for path in ["a", "d", "d/0", "d/b"] {
        text.push_str(mark(plain, path))?;
    }
    Ok(text)
}

// How many bytes the data file has after these edits, and what then stands where; both tables agree, before and after.
fn worked(alloc: Global, edits: &[Edit]) -> Result<(usize, String), Fail> {
    let docket = Docket::read(b"")?;
    let mut m = Mixed::open(Image::open(&docket, b"")?);
    let mut plain = Plain::of(alloc, PATHS)?;
    for it in edits {
        apply(alloc, &mut m, &mut plain, *it)?;
    }
    if !is_same(&m, &plain)? {
        return Err("the table differs".into());
    }
    let encoded = rewritten(alloc, &m)?;
    if !reads_back(alloc, &encoded, &plain)? {
        return Err("another table is read".into());
    }
    Ok((encoded.bytes.len(), marks(alloc, &plain)?))
}

#[test]
fn encodes(rt: HostRuntime) -> Result<(), Fail> {
    for (name, edits, size, left) in CASES {
        let (found, marks) = worked(rt.alloc(), edits)?;
        assert_eq!(rt; found, *size, "{name}");
        assert_eq!(rt; marks.as_str(), *left, "{name}");
    }
    Ok(())
}

// Numbers that look as if they were drawn, the same in each run.
pub(crate) fn drawn(state: &mut u64, below: u64) -> u64 {
    *state = state
        .wrapping_mul(6_364_136_223_846_793_005)
        .wrapping_add(1_442_695_040_888_963_407);
    if below == 0 {
        return 0;
    }
    (*state >> 33) % below
}

fn some_byte(state: &mut u64) -> u8 {
    (drawn(state, 256) % 256) as u8
}

fn some_path(state: &mut u64) -> &'static str {
    let mut left = drawn(state, PATHS.len() as u64);
    for path in PATHS {
        if left == 0 {
            return *path;
        }
        left = left.saturating_sub(1);
    }
    "a"
}

fn some_file(state: &mut u64) -> File {
    match drawn(state, 6) {
        0 => File::Clean,
        1 => File::Removed,
        2 => File::Merged,
        _ => File::Added,
    }
}

fn some_time(state: &mut u64) -> When {
    match drawn(state, 2) {
        0 => When::Noon,
        _ => When::Late,
    }
}

fn some_source(state: &mut u64) -> Option<&'static str> {
    match drawn(state, 3) {
        0 => None,
        _ => Some(some_path(state)),
    }
}

pub(crate) fn some_edit(state: &mut u64) -> Edit {
    let path = some_path(state);
    match drawn(state, 24) {
        0..=9 => Edit::Set(path, some_file(state)),
        10..=12 => Edit::Copy(path, some_source(state)),
        13..=16 => Edit::Drop(path),
        17..=19 => Edit::Note(path, some_time(state)),
        20 => Edit::Forget(path),
        21 => Edit::NoCaches,
        22 => Edit::Ids(some_byte(state), some_byte(state)),
        _ => Edit::Hash(some_byte(state)),
    }
}

// A list of edits at random, encoded and read back; both tables agree after each edit.
fn one_list(alloc: Global, state: &mut u64) -> Result<(), Fail> {
    let docket = Docket::read(b"")?;
    let mut m = Mixed::open(Image::open(&docket, b"")?);
    let mut plain = Plain::of(alloc, PATHS)?;
    for _ in 0..drawn(state, 25) {
        apply(alloc, &mut m, &mut plain, some_edit(state))?;
        if !is_same(&m, &plain)? {
            return Err("the table differs".into());
        }
    }
    let encoded = rewritten(alloc, &m)?;
    if !reads_back(alloc, &encoded, &plain)? {
        return Err("another table is read".into());
    }
    Ok(())
}

#[test]
fn encodes_what_edits_leave(rt: HostRuntime) -> Result<(), Fail> {
    let mut state = 1;
    for _ in 0..2_000 {
        one_list(rt.alloc(), &mut state)?;
    }
    Ok(())
}
