//! How many files the process has open.
use hg_case_tests::word;
use std::test::Fail;
use std::{fs, io};

/// How many files are open.
pub(crate) fn open_files(rt: &HostRuntime) -> io::Result<usize> {
    Ok(fs::read_dir(rt, "/proc/self/fd")?.count())
}

// How many of them lead to a name.
fn held(rt: &HostRuntime, name: &str) -> io::Result<usize> {
    let mut count: usize = 0;
    for entry in fs::read_dir(rt, "/proc/self/fd")? {
        let entry = entry?;
        if let Ok(target) = fs::read_link(rt, entry.path()) {
            count = count.saturating_add(usize::from(target.as_str().ends_with(name)));
        }
    }
    Ok(count)
}

/// How many more files are open than before, or how many lead to the name of a step.
pub(crate) fn print_open(
    rt: &HostRuntime,
    before: usize,
    step: &str,
    answer: &mut String,
) -> Result<(), Fail> {
    let count = match word(step, 0) {
        "held" => held(rt, word(step, 1))?,
        _ => open_files(rt)?.saturating_sub(before),
    };
    write!(answer, " {count}")?;
    Ok(())
}
