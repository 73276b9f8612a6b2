//! The greatest numbers of lines that are printed, faults that no command meets, where the greatest files end, and what is recorded of their sizes.
use hg_append::{EncodeFault, end_of};
use hg_base::{Kind, Stamp, Stat, Text, Time};
use hg_case_tests::{Play, agree, number, print, word};
use hg_docket::{Ident, Idents};
use hg_entry::Entry;
use hg_ignore::{Warning, Warnings};
use hg_image::NodeFault;
use hg_ops::OpFault;
use hg_report::{Fault, fault_text, warnings_text};
use std::alloc::Global;
use std::string::String;
use std::test::Fail;

// A fault with the greatest number that it may have.
fn fault(name: &str) -> Result<Fault, Fail> {
    match name {
        "time" => Ok(Fault::Node(NodeFault::Times { node: u32::MAX })),
        "manifest" => Ok(Fault::ManifestOrder { line: u32::MAX }),
        "regexp" => Ok(Fault::BadRegexp { line: u32::MAX }),
        "script" => Ok(Fault::ScriptLine { n: u32::MAX }),
        "size" => Ok(Fault::TooLarge {
            size: 4_294_967_296,
        }),
        "encoded" => Ok(Fault::from(EncodeFault::TooLarge { size: u64::MAX })),
        "memory" => Ok(Fault::OutOfMemory),
        "encoding" => Ok(Fault::from(EncodeFault::OutOfMemory)),
        "stepping" => Ok(Fault::from(OpFault::OutOfMemory)),
        "unbuilt" => Ok(Fault::NotBuilt),
        _ => Err("no such fault".into()),
    }
}

// Several identifiers, of which a command tells one.
fn gone(steps: &str) -> Result<Fault, Fail> {
    let mut ids = Idents::new();
    for text in steps.split(' ').skip(1) {
        let id = Ident::read(text.as_bytes()).ok_or("an identifier")?;
        if ids.len() < 5 {
            ids.push(id);
        }
    }
    Ok(Fault::DataGone { ids })
}

fn print_fault(alloc: Global, fault: &Fault, answer: &mut String) -> Result<(), Fail> {
    print(answer, fault_text(alloc, fault)?.as_slice())
}

fn print_warning(alloc: Global, answer: &mut String) -> Result<(), Fail> {
    let mut warnings = Warnings::new(alloc);
    warnings.push(Warning {
        line: u32::MAX,
        name: Text::of(alloc, "GLOB")?,
    })?;
    print(answer, warnings_text(alloc, &warnings)?.as_slice())
}

// Where so many bytes end behind the used ones, or which size is too great.
fn print_end(steps: &str, answer: &mut String) -> Result<(), Fail> {
    let used = u32::try_from(number(steps, 1)?)?;
    let end = end_of(used, number(steps, 2)?);
    write!(answer, "{end:?}")?;
    Ok(())
}

// A tracked file of the first parent.
const PLAIN: Entry = Entry {
    w: true,
    p1: true,
    p2: false,
    exec: false,
    link: false,
    size: None,
    stamp: None,
    modified: false,
    fallback: 0,
};

const SEEN: Stamp = Stamp {
    seconds: 5,
    nanos: 9,
    ambiguous: false,
};

const TIME: Time = Time {
    seconds: 5,
    nanos: 9,
};

// What is recorded of an executable file of so many bytes.
fn print_recorded(steps: &str, answer: &mut String) -> Result<(), Fail> {
    let stat = Stat {
        kind: Kind::File,
        exec: true,
        size: number(steps, 1)?,
        mtime: TIME,
    };
    let mut entry = PLAIN;
    entry.note_clean(&stat, SEEN);
    let (flags, size) = (entry.write().flags, entry.size);
    write!(answer, "{flags:x} {size:?}")?;
    Ok(())
}

struct Numbers;

impl Play for Numbers {
    fn play(alloc: Global, steps: &str, answer: &mut String) -> Result<(), Fail> {
        match word(steps, 0) {
            "end" => print_end(steps, answer),
            "recorded" => print_recorded(steps, answer),
            "warning" => print_warning(alloc, answer),
            "gone" => print_fault(alloc, &gone(steps)?, answer),
            name => print_fault(alloc, &fault(name)?, answer),
        }
    }
}

const NUMBERS: &str = r"
time => abort: dirstate data: node 4294967295: time\n
manifest => abort: manifest order at line 4294967295\n
regexp => abort: .hgignore line 4294967295: regexp\n
script => abort: script line 4294967295 is too long\n
size => abort: dirstate data would have 4294967296 bytes\n
encoded => abort: dirstate data would have 18446744073709551615 bytes\n
memory => abort: out of memory\n
encoding => abort: out of memory\n
stepping => abort: out of memory\n
unbuilt => abort: not built yet\n
gone a B-_ 3 4 55 => abort: dirstate data gone: a B-_ 3 4 55\n
warning => .hgignore line 4294967295: unknown syntax GLOB\n
end 4294967200 95 => Ok(4294967295)
end 4294967200 96 => Err(4294967296)
end 1 18446744073709551615 => Err(18446744073709551615)
recorded 2147483652 => c0b Some(4)
";

#[test]
fn greatest_numbers(rt: HostRuntime) -> Result<(), Fail> {
    agree::<Numbers>(rt.alloc(), "", NUMBERS)
}
