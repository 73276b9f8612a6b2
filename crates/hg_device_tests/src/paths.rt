//! Paths, names and words.
use hg_base::{Blob, Path, PathFault, PathRef, Text, Words, child_name, is_below};
use hg_case_tests::{Play, agree, bytes, number, print, text, word};
use std::alloc::Global;
use std::string::String;
use std::test::Fail;

// Why a text is no path, lent or copied.
struct Reads;

impl Play for Reads {
    fn play(alloc: Global, steps: &str, answer: &mut String) -> Result<(), Fail> {
        let text = text(alloc, steps)?;
        faults(alloc, text.as_str(), answer)
    }
}

fn faults(alloc: Global, text: &str, answer: &mut String) -> Result<(), Fail> {
    let lent = PathRef::read(text).err();
    let copied = Path::read(alloc, text).err();
    write!(answer, "{lent:?}")?;
    if copied != lent {
        write!(answer, ", but copied {copied:?}")?;
    }
    Ok(())
}

const READS: &str = r"
\e => Some(Empty)
/ => Some(Component { at: 0 })
/a => Some(Component { at: 0 })
a//b => Some(Component { at: 2 })
a/ => Some(Component { at: 2 })
. => Some(Component { at: 0 })
.. => Some(Component { at: 0 })
a/. => Some(Component { at: 2 })
ab/../c => Some(Component { at: 3 })
ä/b\0c => Some(Component { at: 3 })
.hg => Some(Reserved)
.hg/x => Some(Reserved)
.hg/ => Some(Component { at: 4 })
.hgignore => None
a/.hg => None
... => None
a b/\n => None
";

#[test]
fn refuses_what_is_no_path(rt: HostRuntime) -> Result<(), Fail> {
    agree::<Reads>(rt.alloc(), "", READS)
}

// The same of a word that stands there so often, and a last one.
struct Limits;

impl Play for Limits {
    fn play(alloc: Global, steps: &str, answer: &mut String) -> Result<(), Fail> {
        let mut whole = repeated(alloc, word(steps, 0), number(steps, 1)?)?;
        whole.push_str(word(steps, 2))?;
        faults(alloc, whole.as_str(), answer)
    }
}

fn repeated(alloc: Global, text: &str, times: u64) -> Result<String, Fail> {
    let mut all = String::new(alloc);
    for _ in 0..times {
        all.push_str(text)?;
    }
    Ok(all)
}

const LIMITS: &str = r"
a 65535 => None
a 65536 => Some(TooLong { len: 65536 })
/ 65536 => Some(TooLong { len: 65536 })
a/ 2047 b => None
a/ 2048 b => Some(TooDeep { n: 2049 })
a/ 2048 .. => Some(Component { at: 4096 })
";

#[test]
fn draws_the_limits(rt: HostRuntime) -> Result<(), Fail> {
    agree::<Limits>(rt.alloc(), "", LIMITS)
}

// What is made of paths.
struct Joins;

impl Play for Joins {
    fn play(alloc: Global, steps: &str, answer: &mut String) -> Result<(), Fail> {
        match word(steps, 0) {
            "copy" => copy(alloc, PathRef::read(word(steps, 1))?, answer),
            "join" => join(alloc, dir(word(steps, 1))?, word(steps, 2), answer),
            "part" => part(alloc, PathRef::read(word(steps, 1))?, answer),
            _ => order(alloc, word(steps, 1), word(steps, 2), answer),
        }
    }
}

// The root is a dash.
fn dir(text: &str) -> Result<Option<PathRef<'_>>, PathFault> {
    if text == "-" {
        return Ok(None);
    }
    Ok(Some(PathRef::read(text)?))
}

fn copy(alloc: Global, path: PathRef<'_>, answer: &mut String) -> Result<(), Fail> {
    answer.push_str(Path::of(alloc, path)?.as_str())?;
    Ok(())
}

// The path and its last component.
fn join(
    alloc: Global,
    dir: Option<PathRef<'_>>,
    name: &str,
    answer: &mut String,
) -> Result<(), Fail> {
    match Path::join(alloc, dir, name) {
        Ok(path) => {
            answer.push_str(path.as_str())?;
            answer.push(' ')?;
            answer.push_str(path.as_ref().base())?;
        }
        Err(fault) => write!(answer, "{fault:?}")?,
    }
    Ok(())
}

// The last component, what stands in front of it, and both put together.
fn part(alloc: Global, path: PathRef<'_>, answer: &mut String) -> Result<(), Fail> {
    answer.push_str(path.base())?;
    answer.push(' ')?;
    answer.push_str(parent(path))?;
    answer.push(' ')?;
    answer.push_str(Path::within(alloc, path.parent(), path.base())?.as_str())?;
    Ok(())
}

fn parent(path: PathRef<'_>) -> &str {
    match path.parent() {
        Some(dir) => dir.as_str(),
        None => "-",
    }
}

fn order(alloc: Global, first: &str, second: &str, answer: &mut String) -> Result<(), Fail> {
    let first = Path::read(alloc, first)?;
    let second = Path::read(alloc, second)?;
    let (less, differ) = (first < second, first != second);
    write!(answer, "{less} {differ}")?;
    Ok(())
}

const JOINS: &str = r"
copy src/lib => src/lib
join src/lib a.c => src/lib/a.c a.c
join - a.c => a.c a.c
join src/lib .. => Component { at: 8 }
join src/lib a/b => src/lib/a/b b
part src/lib => lib src src/lib
part src => src - src
order a-b a/b => true true
order a/b a-b => false true
order a/b a/b => false false
";

#[test]
fn copies_and_joins(rt: HostRuntime) -> Result<(), Fail> {
    agree::<Joins>(rt.alloc(), "", JOINS)
}

// Bytes, or how many words there are and each of them.
struct Keeps;

impl Play for Keeps {
    fn play(alloc: Global, steps: &str, answer: &mut String) -> Result<(), Fail> {
        match word(steps, 0) {
            "blob" => {
                let bytes = bytes(alloc, word(steps, 1))?;
                print(answer, Blob::of(alloc, bytes.as_slice())?.as_bytes())
            }
            _ => print_words(&words(alloc, steps)?, answer),
        }
    }
}

fn words(alloc: Global, steps: &str) -> Result<Words, Fail> {
    let mut words = Words::new(alloc);
    for word in steps.split(' ') {
        words.push(Text::of(alloc, word)?)?;
    }
    Ok(words)
}

fn print_words(words: &Words, answer: &mut String) -> Result<(), Fail> {
    let len = words.len();
    write!(answer, "{len}")?;
    for i in 0..len {
        answer.push(' ')?;
        answer.push_str(words.at(i).as_str())?;
    }
    Ok(())
}

const KEEPS: &str = r"
blob \0\xff => \0\xff
status -q => 2 status -q
";

#[test]
fn keeps_bytes_and_words(rt: HostRuntime) -> Result<(), Fail> {
    agree::<Keeps>(rt.alloc(), "", KEEPS)
}

// Whether a path is below a directory, and its name where it is a child.
struct Names;

impl Play for Names {
    fn play(_: Global, steps: &str, answer: &mut String) -> Result<(), Fail> {
        let (dir, path) = (word(steps, 0), word(steps, 1));
        let name = if dir == "-" {
            child_name(None, path)
        } else {
            child_name(Some(dir), path)
        };
        let below = is_below(dir, path);
        write!(answer, "{below} {name:?}")?;
        Ok(())
    }
}

const NAMES: &str = r#"
a a/b => true Some("b")
a a/b/c => true None
a ab => false None
a a => false None
a b/c => false None
a/b a/b/c => true Some("c")
- a => false Some("a")
- a/b => false None
"#;

#[test]
fn tests_names(rt: HostRuntime) -> Result<(), Fail> {
    agree::<Names>(rt.alloc(), "", NAMES)
}
