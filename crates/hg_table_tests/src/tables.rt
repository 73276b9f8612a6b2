//! Edits of a table: each is a word, and carried out by itself, so that what the calls promise isn't carried through a case.
use hg_base::{Id20, Path, PathRef, Stamp};
use hg_case_tests::{Play, agree};
use hg_docket::Docket;
use hg_entry::Entry;
use hg_image::Image;
use hg_mixed::Mixed;
use hg_node::Rec;
use hg_nodes::SetFault;
use std::alloc::Global;
use std::string::String;
use std::test::Fail;
use std::vec::Vec;

const NOON: Stamp = Stamp {
    seconds: 12,
    nanos: 0,
    ambiguous: false,
};

const ADDED: Entry = Entry {
    w: true,
    p1: false,
    p2: false,
    exec: false,
    link: false,
    size: None,
    stamp: None,
    modified: false,
    fallback: 0,
};

// A file of a parent that isn't tracked any more.
const REMOVED: Entry = Entry {
    w: false,
    p1: true,
    p2: false,
    exec: false,
    link: false,
    size: None,
    stamp: None,
    modified: false,
    fallback: 0,
};

// A file of a parent as it was last seen.
const CLEAN: Entry = Entry {
    w: true,
    p1: true,
    p2: false,
    exec: false,
    link: false,
    size: Some(5),
    stamp: Some(Stamp {
        seconds: 7,
        nanos: 8,
        ambiguous: false,
    }),
    modified: false,
    fallback: 0,
};

// The table of a record.
fn opened<'a>(alloc: Global, docket: &Docket<'a>, bytes: &'a [u8]) -> Result<Mixed<'a>, Fail> {
    let image = Image::open(docket, bytes)?;
    Ok(Mixed::open(image))
}

fn set(alloc: Global, m: &mut Mixed<'_>, path: &str, entry: Entry) -> Result<(), Fail> {
    m.set(alloc, PathRef::read(path)?, entry)?;
    Ok(())
}

// (The two calls of a directory want that it has a node and no entry.)
fn note(alloc: Global, m: &mut Mixed<'_>, path: &str) -> Result<(), Fail> {
    let dir = PathRef::read(path)?;
    if !m.has_node(dir) {
        return Err("no node".into());
    }
    if m.get(dir).is_some() {
        return Err("an entry".into());
    }
    m.note_dir(alloc, dir, NOON)?;
    Ok(())
}

fn forget(alloc: Global, m: &mut Mixed<'_>, path: &str) -> Result<(), Fail> {
    let dir = PathRef::read(path)?;
    if !m.has_node(dir) {
        return Err("no node".into());
    }
    if m.get(dir).is_some() {
        return Err("an entry".into());
    }
    m.forget_dir(alloc, dir)?;
    Ok(())
}

fn drop(alloc: Global, m: &mut Mixed<'_>, path: &str) -> Result<(), Fail> {
    let path = PathRef::read(path)?;
    if m.get(path).is_none() {
        return Err("no entry".into());
    }
    m.drop_entry(alloc, path)?;
    Ok(())
}

fn uncache(alloc: Global, m: &mut Mixed<'_>) -> Result<(), Fail> {
    m.drop_caches(alloc)?;
    Ok(())
}

fn copy(alloc: Global, m: &mut Mixed<'_>, path: &str, source: &str) -> Result<(), Fail> {
    let path = PathRef::read(path)?;
    if m.get(path).is_none() {
        return Err("no entry".into());
    }
    m.copy_from(alloc, path, Some(PathRef::read(source)?))?;
    Ok(())
}

fn set_ids(m: &mut Mixed<'_>) {
    m.set_ids(Id20([1; 20]), Id20([2; 20]));
}

fn set_hash(m: &mut Mixed<'_>) {
    m.set_hash([3; 20]);
}

// One edit. `+a`: the file is added; `!a`: it is removed; `~a`: it is clean; `-a`: its entry goes; `=a`: it was copied from `c`; `*d`: the directory was
// seen at noon; `/d`: that is forgotten; `uncache`: so is each; `ids`: the parents are ones and twos; `hash`: the hash is threes.
fn step(alloc: Global, m: &mut Mixed<'_>, word: &str) -> Result<(), Fail> {
    let Some((sign, path)) = word.split_at_checked(1) else {
        return Ok(());
    };
    match sign {
        "+" => set(alloc, m, path, ADDED),
        "!" => set(alloc, m, path, REMOVED),
        "~" => set(alloc, m, path, CLEAN),
        "-" => drop(alloc, m, path),
        "=" => copy(alloc, m, path, "c"),
        "*" => note(alloc, m, path),
        "/" => forget(alloc, m, path),
        _ => whole(alloc, m, word),
    }
}

fn whole(alloc: Global, m: &mut Mixed<'_>, word: &str) -> Result<(), Fail> {
    match word {
        "uncache" => uncache(alloc, m),
        "ids" => {
            set_ids(m);
            Ok(())
        }
        "hash" => {
            set_hash(m);
            Ok(())
        }
        _ => Err("no such edit".into()),
    }
}

// The edits of words.
fn steps(alloc: Global, m: &mut Mixed<'_>, words: &str) -> Result<(), Fail> {
    for word in words.split(' ') {
        step(alloc, m, word)?;
    }
    Ok(())
}

// What stands at a path: an entry with or without a source, a cached directory, a node, or nothing.
fn mark(m: &Mixed<'_>, path: PathRef<'_>) -> &'static str {
    if let Some(item) = m.get(path) {
        return if item.source.is_some() { "&" } else { "!" };
    }
    if m.cache(path).is_some() {
        return "*";
    }
    if m.has_node(path) { "." } else { "-" }
}

fn shown(m: &Mixed<'_>, text: &mut String, paths: &str) -> Result<(), Fail> {
    for path in paths.split(' ') {
        text.push_str(mark(m, PathRef::read(path)?))?;
    }
    Ok(())
}

// The children of a directory behind a bar, each with a slash where it has children.
fn listed(m: &Mixed<'_>, text: &mut String, dir: Option<PathRef<'_>>) -> Result<(), Fail> {
    text.push_str("|")?;
    let mut children = m.children(dir);
    for _ in 0..9 {
        let Some(child) = children.next() else {
            return Ok(());
        };
        text.push_str(child.path.as_str())?;
        text.push_str(if child.has_kids { "/ " } else { " " })?;
    }
    Err("too many".into())
}

// The edits of a table without a record, and what then stands at some paths.
struct Edits;

impl Play for Edits {
    fn play(alloc: Global, words: &str, answer: &mut String) -> Result<(), Fail> {
        let docket = Docket::read(b"")?;
        let mut m = opened(alloc, &docket, b"")?;
        steps(alloc, &mut m, words)?;
        shown(&m, answer, "a a/b a/b/c a/b/d a/x")
    }
}

const EDITS: &str = "
+a/b/c +a/b/d +a/x *a *a/b -a/b/c => *.-!!
+a/b/c +a/b/d +a/x *a *a/b -a/b/c -a/b/d => .---!
+a/b/c +a/b/d +a/x -a/b/c -a/b/d -a/x => -----
!a +a/b +a/x -a/b => !---!
!a +a/b +a/x -a/b -a => .---!
+a/b *a => *!---
+a/b *a /a => .!---
+a/b *a uncache => .!---
+a/b =a/b => .&---
";

#[test]
fn edits_each_part(rt: HostRuntime) -> Result<(), Fail> {
    agree::<Edits>(rt.alloc(), "", EDITS)
}

// The path that clashes with a tracked file at this path.
fn clash(alloc: Global, m: &mut Mixed<'_>, path: &str) -> Result<Option<Path>, Fail> {
    match m.set(alloc, PathRef::read(path)?, ADDED) {
        Err(SetFault::Clash { other }) => Ok(Some(other)),
        Err(SetFault::OutOfMemory) => Err("out of memory".into()),
        Ok(()) => Ok(None),
    }
}

fn print_clash(
    alloc: Global,
    m: &mut Mixed<'_>,
    path: &str,
    answer: &mut String,
) -> Result<(), Fail> {
    match clash(alloc, m, path)? {
        Some(other) => answer.push_str(other.as_str())?,
        None => answer.push_str("none")?,
    }
    Ok(())
}

struct Clashes;

impl Play for Clashes {
    fn play(alloc: Global, path: &str, answer: &mut String) -> Result<(), Fail> {
        let docket = Docket::read(b"")?;
        let mut m = opened(alloc, &docket, b"")?;
        steps(alloc, &mut m, "!d +d/b/z +d/b-c +d/e")?;
        print_clash(alloc, &mut m, path, answer)
    }
}

const CLASHES: &str = "
d => d/b-c
d/b => d/b/z
d/e/f/g => d/e
d- => none
";

#[test]
fn names_the_least_clash(rt: HostRuntime) -> Result<(), Fail> {
    agree::<Clashes>(rt.alloc(), "", CLASHES)
}

// The file `d/e`, copied from `src`, in the cached directory `d`, whose record stands last.
const FILE: Rec = Rec {
    place: 0,
    path_start: 0,
    path_len: 3,
    base_at: 2,
    copy_start: 3,
    copy_len: 3,
    kids_start: 0,
    kids_count: 0,
    entries_below: 0,
    tracked_below: 0,
    flags: 0x0c03,
    size: 5,
    seconds: 7,
    nanos: 8,
};

const DIR: Rec = Rec {
    place: 0,
    path_start: 0,
    path_len: 1,
    base_at: 0,
    copy_start: 0,
    copy_len: 0,
    kids_start: 6,
    kids_count: 1,
    entries_below: 1,
    tracked_below: 1,
    flags: 0x6800,
    size: 0,
    seconds: 12,
    nanos: 0,
};

// The bytes of these records, behind their texts.
fn bytes_of(alloc: Global) -> Result<Vec<u8>, Fail> {
    let mut bytes = Vec::from_slice(alloc, b"d/esrc")?;
    bytes.extend_from_slice(&FILE.write())?;
    bytes.extend_from_slice(&DIR.write())?;
    Ok(bytes)
}

const DOCKET: Docket<'static> = Docket {
    p1: Id20([1; 20]),
    p2: Id20([2; 20]),
    root_start: 50,
    root_count: 1,
    entries: 1,
    copies: 1,
    unreachable: 0,
    hash: [3; 20],
    used: 94,
    id: b"0",
};

// The edits of the table of that record, what then stands at some paths, and two lists of children.
struct Lent;

impl Play for Lent {
    fn play(alloc: Global, words: &str, answer: &mut String) -> Result<(), Fail> {
        let bytes = bytes_of(alloc)?;
        let mut m = opened(alloc, &DOCKET, bytes.as_slice())?;
        steps(alloc, &mut m, words)?;
        shown(&m, answer, "d d/e d/f e")?;
        listed(&m, answer, None)?;
        listed(&m, answer, Some(PathRef::read("d")?))
    }
}

const LENT: &str = "
 => *&--|d/ |d/e
+e => *&-!|d/ e |d/e
+d/f => *&!-|d/ |d/e d/f
-d/e => ----||
+d/f -d/e => .-!-|d/ |d/f
!d => !&--|d/ |d/e
!d uncache -d/e => !---|d |
uncache => .&--|d/ |d/e
";

#[test]
fn takes_what_an_edit_needs(rt: HostRuntime) -> Result<(), Fail> {
    agree::<Lent>(rt.alloc(), "", LENT)
}

struct LentClashes;

impl Play for LentClashes {
    fn play(alloc: Global, path: &str, answer: &mut String) -> Result<(), Fail> {
        let bytes = bytes_of(alloc)?;
        let mut m = opened(alloc, &DOCKET, bytes.as_slice())?;
        print_clash(alloc, &mut m, path, answer)
    }
}

const LENT_CLASHES: &str = "
d => d/e
d/e/x => d/e
d/f => none
";

#[test]
fn finds_what_clashes_in_an_image(rt: HostRuntime) -> Result<(), Fail> {
    agree::<LentClashes>(rt.alloc(), "", LENT_CLASHES)
}
