//! A table that is played line by line.
use std::alloc::Global;
use std::string::String;
use std::test::Fail;

/// Does what stands in front of an answer.
pub trait Play {
    /// Does the steps, from nothing, and writes what they answer.
    fn play(alloc: Global, steps: &str, answer: &mut String) -> Result<(), Fail>;
}

/// Plays each line of a table, behind the steps of `before`, and fails by the lines that are answered otherwise, each with what was answered.
pub fn agree<P: Play>(alloc: Global, before: &str, table: &str) -> Result<(), Fail> {
    let mut wrong = String::new(alloc);
    for line in table.split('\n') {
        compare::<P>(alloc, before, line, &mut wrong)?;
    }
    none(wrong.as_str())
}

/// Fails by these lines, where there are any.
pub fn none(wrong: &str) -> Result<(), Fail> {
    if wrong.is_empty() {
        return Ok(());
    }
    Err(Fail::new(wrong))
}

fn compare<P: Play>(
    alloc: Global,
    before: &str,
    line: &str,
    wrong: &mut String,
) -> Result<(), Fail> {
    let mut found = String::new(alloc);
    if let Some((steps, _)) = line.split_once(" =>") {
        let whole = format!(in alloc; "{before}{steps}")?;
        P::play(alloc, whole.as_str(), &mut found)?;
    }
    note(line, found.as_str(), wrong)
}

/// Writes down a line that is answered otherwise, or is no case. An empty line is none.
pub fn note(line: &str, found: &str, wrong: &mut String) -> Result<(), Fail> {
    let answer = match line.split_once(" =>") {
        Some((_, answer)) => answer.trim(),
        None => line,
    };
    if found.trim() != answer {
        writeln!(wrong, "{line} (found: {found})")?;
    }
    Ok(())
}
