//! Dirstates of the first version, as what they are shown: the docket's numbers and the nodes in the order of a walk; or why they aren't read.
ghost use Rattle.std.specs.Prelude.{◌≤◌, IfOk, length};

use hg_case_tests::{Play, agree, bytes, number, print};
use hg_docket::{Docket, Ident};
use hg_image::{Image, List, NodeRef};
use hg_vone::{Shown, is_vone, read_vone};
use std::alloc::Global;
use std::string::String;
use std::test::Fail;

// An entry by a word: its state, its size and its text, parted by colons; the bytes themselves behind a `=`.
fn put_entry(alloc: Global, word: &str, file: &mut Vec<u8>) -> Result<(), Fail> {
    if let Some(raw) = word.strip_prefix("=") {
        let raw = bytes(alloc, raw)?;
        file.extend_from_slice(raw.as_slice())?;
        return Ok(());
    }
    let Some((state, rest)) = word.split_once(':') else {
        return Err(Fail::new("no entry"));
    };
    let Some((size, text)) = rest.split_once(':') else {
        return Err(Fail::new("no entry"));
    };
    let text = bytes(alloc, text)?;
    let size = u32::try_from(number(size, 0)?)?;
    let len = u32::try_from(text.len())?;
    file.extend_from_slice(state.as_bytes())?;
    file.extend_from_slice(&[0; 4])?;
    file.extend_from_slice(&size.to_be_bytes())?;
    file.extend_from_slice(&[7; 4])?;
    file.extend_from_slice(&len.to_be_bytes())?;
    file.extend_from_slice(text.as_slice())?;
    Ok(())
}

// The file of some entries: parents of ones and of twos, and the entries.
fn file(alloc: Global, steps: &str) -> Result<Vec<u8>, Fail> {
    let mut file = Vec::new(alloc);
    file.extend_from_slice(&[b'1'; 20])?;
    file.extend_from_slice(&[b'2'; 20])?;
    for word in steps.split(' ') {
        if !word.is_empty() {
            put_entry(alloc, word, &mut file)?;
        }
    }
    Ok(file)
}

// A node: its path, its flags, how many entries are below it, and its copy source.
fn print_node(node: NodeRef<'_>, answer: &mut String) -> Result<(), Fail> {
    let rec = node.rec();
    write!(answer, " {}={}", node.path().text, rec.flags)?;
    if rec.entries_below > 0 {
        write!(answer, "+{}/{}", rec.entries_below, rec.tracked_below)?;
    }
    if let Some(source) = node.source() {
        write!(answer, "<{}", source.text)?;
    }
    Ok(())
}

fn print_nodes(list: List<'_>, answer: &mut String) -> Result<(), Fail> {
    for i in 0..list.len() {
        let node = list.get(i);
        print_node(node, answer)?;
        print_nodes(node.children(), answer)?;
    }
    Ok(())
}

// The numbers of a docket, its parents, and the identifier behind its own.
fn print_docket(docket: &Docket<'_>, answer: &mut String) -> Result<(), Fail> {
    print(answer, docket.id)?;
    write!(
        answer,
        " {} {} {}",
        docket.entries, docket.copies, docket.used
    )?;
    if docket.p1.0 != [b'1'; 20] || docket.p2.0 != [b'2'; 20] {
        write!(answer, " parents")?;
    }
    if docket.hash[0] != 0xda || docket.hash[19] != 0x09 {
        write!(answer, " hash")?;
    }
    let Some(id) = Ident::read(docket.id) else {
        return Err(Fail::new("no identifier"));
    };
    match id.next() {
        Some(next) if next.as_bytes() == b"0000000000000000".as_slice() => Ok(()),
        _ => Err(Fail::new("another identifier")),
    }
}

fn print_image(docket: &Docket<'_>, nodes: &[u8], answer: &mut String) -> Result<(), Fail> {
    let Ok(image) = Image::open(docket, nodes) else {
        return Err(Fail::new("no nodes"));
    };
    if image.counted() {
        write!(answer, " counted")?;
    }
    print_nodes(image.root(), answer)
}

fn print_shown(shown: &Shown, answer: &mut String) -> Result<(), Fail> {
    if shown.docket.len() > 512 {
        return Err(Fail::new("a long docket"));
    }
    let Ok(docket) = Docket::read(shown.docket.as_slice()) else {
        return Err(Fail::new("no docket"));
    };
    print_docket(&docket, answer)?;
    print_image(&docket, shown.nodes.as_slice(), answer)
}

fn print_read(alloc: Global, file: &[u8], answer: &mut String) -> Result<(), Fail> {
    if file.len() > 1_000_000 {
        return Err(Fail::new("a long file"));
    }
    if !is_vone(file) {
        write!(answer, "of another version")?;
        return Ok(());
    }
    match read_vone(alloc, file) {
        Ok(shown) => print_shown(&shown, answer),
        Err(fault) => Ok(write!(answer, "{fault:?}")?),
    }
}

// Entries behind two parents.
struct Entries;

impl Play for Entries {
    fn play(alloc: Global, steps: &str, answer: &mut String) -> Result<(), Fail> {
        let file = file(alloc, steps)?;
        print_read(alloc, file.as_slice(), answer)
    }
}

// The bytes of a file.
struct Files;

impl Play for Files {
    fn play(alloc: Global, steps: &str, answer: &mut String) -> Result<(), Fail> {
        let file = bytes(alloc, steps.trim())?;
        print_read(alloc, file.as_slice(), answer)
    }
}

const ENTRIES: &str = r"
= => 0 0 0 counted
n:0:a => v1 2 0 102 a=3
n:4294967294:a => v1 2 0 102 a=5
n:4294967295:a => v1 2 0 102 a=3
a:0:a => v1 2 0 102 a=1
a:4294967294:a => v1 2 0 102 a=1
r:4294967295:a => v1 2 0 102 a=6
r:4294967294:a => v1 2 0 102 a=4
r:4294967293:a => v1 2 0 102 a=2
m:0:a => v1 2 0 102 a=7
m:4294967294:a => v1 2 0 102 a=7
n:0:d/x => v1 2 0 148 d=0+1/1 d/x=3
n:0:a a:0:d/x r:4294967295:d/e/y => v1 4 0 320 a=3 d=0+2/1 d/e=0+1/0 d/e/y=6 d/x=1
a:0:d/x n:0:a r:0:d/e/y => v1 4 0 320 a=3 d=0+2/1 d/e=0+1/0 d/e/y=2 d/x=1
n:0:a/b n:0:a-b n:0:a => v1 4 0 230 a=3+1/1 a/b=3 a-b=3
n:0:a.b/c n:0:a/b/c n:0:ab => v1 4 0 367 a=0+1/1 a/b=0+1/1 a/b/c=3 a.b=0+1/1 a.b/c=3 ab=3
n:0:b\0a a:0:c\0d/e => v1 3 2 170 b=3<a c=1<d/e
r:0:b\0a => v1 2 1 104 b=2<a
=x => V1Short { at: 40 }
=n\0\0\0\0\0\0\0\0\0\0\0\0\0\0\0 => V1Short { at: 40 }
=n\0\0\0\0\0\0\0\0\0\0\0\0\0\0\0\x02a => V1Short { at: 40 }
=x\0\0\0\0\0\0\0\0\0\0\0\0\0\0\0\x02a => V1Short { at: 40 }
=n\0\0\0\0\0\0\0\0\0\0\0\0\xff\xff\xff\xffa => V1Short { at: 40 }
n:0:a =n => V1Short { at: 58 }
N:0:a => V1State { at: 40 }
x:0: => V1State { at: 40 }
n:0:ab x:0:ab => V1State { at: 59 }
n:0: => V1Path { at: 40 }
n:0:\xff => V1Path { at: 40 }
n:0:a//b => V1Path { at: 40 }
n:0:.hg/a => V1Path { at: 40 }
n:0:a\0 => V1Path { at: 40 }
n:0:a\0\xff => V1Path { at: 40 }
n:0:a\0.hg => V1Path { at: 40 }
n:0:a\0b\0c => V1Path { at: 40 }
n:0:\0a => V1Path { at: 40 }
n:0:a n:0:a => V1Twice { at: 58 }
n:0:a r:0:a\0b => V1Twice { at: 58 }
n:0:a n:0:b a:0:a x:0:c => V1Twice { at: 76 }
n:0:a x:0:b n:0:a => V1State { at: 58 }
n:0:a n:0:a\0.. => V1Path { at: 58 }
";

#[test]
fn entries_are_read(rt: HostRuntime) -> Result<(), Fail> {
    agree::<Entries>(rt.alloc(), "", ENTRIES)
}

const FILES: &str = r"
\e => of another version
dirstate-v => of another version
dirstate-v2 => of another version
dirstate-v2\n => of another version
dirstate-v21 => of another version
x => V1Short { at: 0 }
dirstate-v1 => V1Short { at: 0 }
111111111111111111111111111111111111111 => V1Short { at: 0 }
1111111111111111111122222222222222222222 => 0 0 0 counted
";

#[test]
fn versions_are_told_apart(rt: HostRuntime) -> Result<(), Fail> {
    agree::<Files>(rt.alloc(), "", FILES)
}

// A path of so many components of one byte.
fn deep(alloc: Global, components: u32) -> Result<String, Fail> {
    let mut text = String::from_str(alloc, "n:0:a")?;
    for _ in 1..components {
        text.push_str("/a")?;
    }
    Ok(text)
}

// What is answered of such a path, without its nodes.
fn deep_answer(alloc: Global, components: u32) -> Result<String, Fail> {
    let entry = deep(alloc, components)?;
    let file = file(alloc, entry.as_str())?;
    if file.len() > 1_000_000 {
        return Err(Fail::new("a long file"));
    }
    if !is_vone(file.as_slice()) {
        return Err(Fail::new("of another version"));
    }
    match read_vone(alloc, file.as_slice()) {
        Ok(shown) => Ok(format!(in alloc; "{}", shown.nodes.len())?),
        Err(fault) => Ok(format!(in alloc; "{fault:?}")?),
    }
}

#[test]
fn the_deepest_path_is_read(rt: HostRuntime) -> Result<(), Fail> {
    let deepest = deep_answer(rt.alloc(), 2048)?;
    let deeper = deep_answer(rt.alloc(), 2049)?;
    assert_eq!(rt; deepest.as_str(), "94264");
    assert_eq!(rt; deeper.as_str(), "V1Path { at: 40 }");
    Ok(())
}
