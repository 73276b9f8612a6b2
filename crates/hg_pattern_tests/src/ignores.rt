//! What no answer of the program shows of ignore texts: their hashes, and which paths one matches by themselves.
use hg_base::{Blob, PathRef, Time};
use hg_case_tests::{Play, agree, bytes, word};
use hg_ignore::{Builds, Ignore, IgnoreFault};
use hg_tree::{MemTree, Thing};
use std::alloc::Global;
use std::string::String;
use std::test::Fail;

const NOON: Time = Time {
    seconds: 43_200,
    nanos: 0,
};

// A working copy with such an ignore text.
fn with_text(alloc: Global, text: &[u8]) -> Result<MemTree, Fail> {
    let mut tree = MemTree::new(alloc, NOON)?;
    let bytes = Blob::of(alloc, text)?;
    tree.place(
        PathRef::read(".hgignore")?,
        Thing::File { exec: false, bytes },
        NOON,
    )?;
    Ok(tree)
}

// A working copy with a directory, a link or nothing at `.hgignore`.
fn without_text(alloc: Global, kind: &str) -> Result<MemTree, Fail> {
    let mut tree = MemTree::new(alloc, NOON)?;
    match kind {
        "directory" => tree.place(PathRef::read(".hgignore")?, Thing::Dir, NOON)?,
        "link" => {
            let target = Blob::of(alloc, b"a")?;
            tree.place(PathRef::read(".hgignore")?, Thing::Link { target }, NOON)?;
        }
        _ => {}
    }
    Ok(tree)
}

fn read(alloc: Global, tree: &mut MemTree, builds: &mut Builds) -> Result<Ignore, IgnoreFault> {
    Ignore::read(alloc, tree, builds)
}

// What stands at `.hgignore`: a text, behind which paths stand, or no file; the hash, and the paths that match by themselves, and not by a directory above them.
struct Texts;

impl Play for Texts {
    fn play(alloc: Global, steps: &str, answer: &mut String) -> Result<(), Fail> {
        let mut tree = if word(steps, 0) == "text" {
            let bytes = bytes(alloc, word(steps, 1))?;
            with_text(alloc, bytes.as_slice())?
        } else {
            without_text(alloc, word(steps, 0))?
        };
        let ignore = read(alloc, &mut tree, &mut Builds::new())?;
        print_ignore(alloc, &ignore, steps, answer)
    }
}

fn print_ignore(
    alloc: Global,
    ignore: &Ignore,
    steps: &str,
    answer: &mut String,
) -> Result<(), Fail> {
    for byte in ignore.hash() {
        write!(answer, "{byte:02x}")?;
    }
    for path in steps.split(' ').skip(2) {
        put_matched(alloc, ignore, path, answer)?;
    }
    Ok(())
}

fn put_matched(
    alloc: Global,
    ignore: &Ignore,
    path: &str,
    answer: &mut String,
) -> Result<(), Fail> {
    if ignore.matches(alloc, PathRef::read(path)?)? {
        answer.push(' ')?;
        answer.push_str(path)?;
    }
    Ok(())
}

const TEXTS: &str = r"
nothing => da39a3ee5e6b4b0d3255bfef95601890afd80709
directory => da39a3ee5e6b4b0d3255bfef95601890afd80709
link => da39a3ee5e6b4b0d3255bfef95601890afd80709
text syntax:\sglob\n*.o\n\nsyntax:\snone\ssuch\s\nsyntax:\n a => 52a8df95dab3b3fc36ac757ee98ed667ffaff476
text ^d$\nglob:e d d/x e/x x/e => 4305ec2a56d1deb91a8f9e0638c498fd3fbaed25 d x/e
";

#[test]
fn hashes_and_matches(rt: HostRuntime) -> Result<(), Fail> {
    agree::<Texts>(rt.alloc(), "", TEXTS)
}
