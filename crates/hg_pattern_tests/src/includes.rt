//! Files that name others: which are read, in which order and with which base, of what one is warned, what is refused, and what is read for it.
use hg_base::{Blob, Path, PathRef, Time};
use hg_case_tests::{Play, agree, bytes, number, print, text, word};
use hg_include::{IncludeFault, Pieces, Warning, read_pieces};
use hg_tree::{Asked, MemTree, Outside, Thing};
use std::alloc::Global;
use std::string::String;
use std::test::Fail;

const NOON: Time = Time {
    seconds: 43_200,
    nanos: 0,
};

fn place_file(alloc: Global, tree: &mut MemTree, name: &str, bytes: &[u8]) -> Result<(), Fail> {
    let bytes = Blob::of(alloc, bytes)?;
    tree.place(
        PathRef::read(name)?,
        Thing::File { exec: false, bytes },
        NOON,
    )?;
    Ok(())
}

fn place_link(alloc: Global, tree: &mut MemTree, name: &str) -> Result<(), Fail> {
    let target = Blob::of(alloc, b"a")?;
    tree.place(PathRef::read(name)?, Thing::Link { target }, NOON)?;
    Ok(())
}

// So many files of which each names the next.
fn place_chain(alloc: Global, tree: &mut MemTree, length: u64) -> Result<(), Fail> {
    place_file(alloc, tree, ".hgignore", b"include:f1")?;
    for i in 1..length.saturating_add(1) {
        let name = format!(in alloc; "f{i}")?;
        let next = format!(in alloc; "include:f{}", i.saturating_add(1))?;
        place_file(alloc, tree, name.as_str(), next.as_bytes())?;
    }
    Ok(())
}

fn set(alloc: Global, tree: &mut MemTree, step: &str) -> Result<(), Fail> {
    let name = word(step, 1);
    match word(step, 0) {
        "file" => {
            let bytes = bytes(alloc, word(step, 2))?;
            place_file(alloc, tree, name, bytes.as_slice())
        }
        "large" => {
            let bytes = vec![in alloc; b'a'; number(step, 2)? as usize]?;
            place_file(alloc, tree, name, bytes.as_slice())
        }
        "dir" => {
            tree.place(PathRef::read(name)?, Thing::Dir, NOON)?;
            Ok(())
        }
        "link" => place_link(alloc, tree, name),
        "fail" => {
            tree.fail_at(number(step, 1)?)?;
            Ok(())
        }
        "gone" => {
            let path = Path::read(alloc, word(step, 2))?;
            tree.due(number(step, 1)?, Outside::Take { path })?;
            Ok(())
        }
        "chain" => place_chain(alloc, tree, number(step, 1)?),
        _ => Err(Fail::new("no step")),
    }
}

fn tree_of(alloc: Global, steps: &str) -> Result<MemTree, Fail> {
    let mut tree = MemTree::new(alloc, NOON)?;
    for step in steps.split("; ") {
        set(alloc, &mut tree, step)?;
    }
    Ok(tree)
}

fn read(alloc: Global, tree: &mut MemTree) -> Result<Pieces, IncludeFault> {
    read_pieces(alloc, tree)
}

fn print_warning(warning: &Warning, answer: &mut String) -> Result<(), Fail> {
    let what = if warning.missing { "no" } else { "syntax" };
    write!(
        answer,
        " {}:{}:{what}:",
        warning.file.as_str(),
        warning.line
    )?;
    print(answer, warning.name.as_str().as_bytes())
}

// Each file, with its base behind a `<`, and each warning.
fn print_pieces(pieces: &Pieces, answer: &mut String) -> Result<(), Fail> {
    for i in 0..pieces.len() {
        let piece = pieces.at(i);
        write!(answer, " {}", piece.file.as_str())?;
        if let Some(base) = &piece.base {
            write!(answer, "<{}", base.as_str())?;
        }
    }
    let warnings = pieces.warnings();
    for i in 0..warnings.len() {
        print_warning(warnings.at(i), answer)?;
    }
    Ok(())
}

fn print_fault(fault: &IncludeFault, answer: &mut String) -> Result<(), Fail> {
    match fault {
        IncludeFault::OutOfMemory => answer.push_str("no memory")?,
        IncludeFault::Failed => answer.push_str("failed")?,
        IncludeFault::Bad { file, what } => write!(answer, "bad {} {what:?}", file.as_str())?,
    }
    Ok(())
}

// What the tree was asked to read.
fn print_reads(tree: &MemTree, answer: &mut String) -> Result<(), Fail> {
    answer.push_str(" |")?;
    for asked in tree.asked() {
        if let Asked::Read { path } = asked {
            write!(answer, " {}", path.as_str())?;
        }
    }
    Ok(())
}

// What stands in the working copy; what is read, and what for it.
struct Files;

impl Play for Files {
    fn play(alloc: Global, steps: &str, answer: &mut String) -> Result<(), Fail> {
        let mut tree = tree_of(alloc, steps)?;
        match read(alloc, &mut tree) {
            Ok(pieces) => print_pieces(&pieces, answer)?,
            Err(fault) => print_fault(&fault, answer)?,
        }
        print_reads(&tree, answer)
    }
}

// The same, of which only the number of files is told.
struct Many;

impl Play for Many {
    fn play(alloc: Global, steps: &str, answer: &mut String) -> Result<(), Fail> {
        let mut tree = tree_of(alloc, steps)?;
        match read(alloc, &mut tree) {
            Ok(pieces) => write!(answer, "{} {}", pieces.len(), pieces.warnings().len())?,
            Err(fault) => print_fault(&fault, answer)?,
        }
        Ok(())
    }
}

const ORDER: &str = r"
file x a => |
dir .hgignore => |
link .hgignore => |
file .hgignore include:common.ign\nsubinclude:sub/.hgignore; file common.ign syntax:\sglob\n*.o; file sub/.hgignore ^x$ => .hgignore common.ign sub/.hgignore<sub | .hgignore common.ign sub/.hgignore
file .hgignore include:a\ninclude:c; file a include:b; file b b; file c c => .hgignore a b c | .hgignore a b c
file .hgignore include:a\nsyntax:\sz; file a include:b\nsyntax:y; file b syntax:\sx => .hgignore a b b:1:syntax:x a:2:syntax:y .hgignore:2:syntax:z | .hgignore a b
file .hgignore include:a\ninclude:a\nsubinclude:a\ninclude:.hgignore; file a include:a => .hgignore a | .hgignore a
file .hgignore subinclude:s/f\ninclude:s/f; file s/f s => .hgignore s/f<s s/f | .hgignore s/f s/f
file .hgignore subinclude:s/f; file s/f include:a\nsubinclude:t/g; file a a; file s/t/g g => .hgignore s/f<s a<s s/t/g<s/t | .hgignore s/f a s/t/g
file .hgignore subinclude:s/f; file s/f include:.hgignore => .hgignore s/f<s .hgignore<s | .hgignore s/f .hgignore
file .hgignore include:s/f; file s/f subinclude:g; file s/g g => .hgignore s/f s/g<s | .hgignore s/f s/g
";

const NAMES: &str = r"
file .hgignore include:none\n\ninclude:none => .hgignore .hgignore:1:no:none .hgignore:3:no:none | .hgignore
file .hgignore include:d\ninclude:l; dir d; link l => .hgignore .hgignore:1:no:d .hgignore:2:no:l | .hgignore
file .hgignore subinclude:s/f; file s/f subinclude:n => .hgignore s/f<s s/f:1:no:n | .hgignore s/f
file .hgignore include:\sa\s\s#\sb => .hgignore .hgignore:1:no: a | .hgignore
file .hgignore include:a\\#b; file a#b c => .hgignore a#b | .hgignore a#b
file .hgignore include:a:b; file a:b c => .hgignore a:b | .hgignore a:b
file .hgignore #include:a\nre:include:a\n\sinclude:a\nsyntax:\sre\nglob:subinclude:a => .hgignore | .hgignore
file .hgignore syntax:\nsyntax:\sGLOB => .hgignore .hgignore:1:syntax: .hgignore:2:syntax:GLOB | .hgignore
";

const REFUSED: &str = r"
file .hgignore include:../c => bad .hgignore Include { line: 1 } | .hgignore
file .hgignore include: => bad .hgignore Include { line: 1 } | .hgignore
file .hgignore a\ninclude:/a => bad .hgignore Include { line: 2 } | .hgignore
file .hgignore include:.hg/a => bad .hgignore Include { line: 1 } | .hgignore
file .hgignore subinclude:./a => bad .hgignore Include { line: 1 } | .hgignore
file .hgignore include:s/f; file s/f subinclude:../g; file g g => bad s/f Include { line: 1 } | .hgignore s/f
file .hgignore include:s/f; file s/f subinclude:.hg/g; file s/.hg/g g => bad s/f Include { line: 1 } | .hgignore s/f
file .hgignore a\n\xff => bad .hgignore Text { at: 2 } | .hgignore
file .hgignore include:a\ninclude:..; file a b\xff => bad a Text { at: 1 } | .hgignore a
file .hgignore include:a\ninclude:..; file a include:b => bad .hgignore Include { line: 2 } | .hgignore a
fail 0; file .hgignore a => failed |
fail 1; file .hgignore a => failed | .hgignore
fail 2; file .hgignore include:a\ninclude:.. => failed | .hgignore
gone 1 .hgignore; file .hgignore a => | .hgignore
gone 3 a; file .hgignore include:a; file a a => .hgignore .hgignore:1:no:a | .hgignore a
";

const LIMITS: &str = r"
chain 255; gone 0 f255 => 255 1
chain 255; file f255 a => 256 0
chain 255 => bad f255 Include { line: 1 }
chain 256 => bad f255 Include { line: 1 }
large .hgignore 1048576 => 1 0
large .hgignore 1048577 => bad .hgignore TooLarge { size: 1048577 }
file .hgignore include:a; large a 1048577 => bad a TooLarge { size: 1048577 }
";

#[test]
fn files_in_order(rt: HostRuntime) -> Result<(), Fail> {
    agree::<Files>(rt.alloc(), "", ORDER)
}

#[test]
fn files_by_name(rt: HostRuntime) -> Result<(), Fail> {
    agree::<Files>(rt.alloc(), "", NAMES)
}

#[test]
fn files_that_are_refused(rt: HostRuntime) -> Result<(), Fail> {
    agree::<Files>(rt.alloc(), "", REFUSED)
}

#[test]
fn as_many_and_as_large(rt: HostRuntime) -> Result<(), Fail> {
    agree::<Many>(rt.alloc(), "", LIMITS)
}
