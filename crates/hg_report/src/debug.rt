//! The text of a record: what a dirstate says of each path.

ghost use Rattle.std.specs.Prelude.{◌≡◌, ◌++◌, ◌∷◌, [], IfOk, OnOk, codes, option_map};
ghost use Rattle.std.specs.Fmt.{decimal};
ghost use Rattle.std.specs.List.{flat_map};
ghost use Rattle.std.specs.String.{string_bytes};
ghost use Rattle.hg_entry.specs.Entry.{stamp_view, view};
ghost use Rattle.hg_mixed.specs.Held.{table};
ghost use Rattle.hg_report.specs.Debug as text_is;
ghost use Rattle.hg_report.specs.Debug.{IsDebugText, OneDebugText, cache_line, doubt_text, entry_line, mode_sign, parent_lines, row_copy, row_line};

use hg_base::{Id20, OutOfMemory, PathRef, Stamp};
use hg_entry::{Entry, State};
use hg_mixed::{Line, Mixed, gather};
use std::alloc::Global;

fn state_sign(state: State) -> u8
    ensures { result ≡ text_is.state_sign state }
{
    match state {
        State::Added => b'a',
        State::Removed => b'r',
        State::Merged => b'm',
        State::Normal => b'n',
    }
}

fn mode(entry: &Entry) -> u8
    ensures { result ≡ mode_sign (view entry.now) }
{
    if entry.size.is_none() {
        return b'-';
    }
    if entry.link {
        return b'l';
    }
    if entry.exec {
        return b'x';
    }
    b'f'
}

fn size_text(alloc: Global, size: Option<u32>) -> Result<String, OutOfMemory>
    ensures { IfOk result (λ text. string_bytes text ≡ text_is.size_text size) }
{
    match size {
        None => Ok(format!(in alloc; "-")?),
        Some(size) => Ok(format!(in alloc; "{size}")?),
    }
}

fn doubt(ambiguous: bool) -> &'static str
    ensures { result.now ≡ doubt_text ambiguous }
{
    if ambiguous { "~" } else { "" }
}

fn stamp_text(alloc: Global, time: Stamp) -> Result<String, OutOfMemory>
    ensures { IfOk result (λ text. string_bytes text ≡ text_is.stamp_text (stamp_view time)) }
{
    let seconds = time.seconds;
    let nanos = time.nanos;
    let end = doubt(time.ambiguous);
    Ok(format!(in alloc; "{seconds}.{nanos:09}{end}")?)
}

fn time_text(alloc: Global, time: Option<Stamp>) -> Result<String, OutOfMemory>
    ensures { IfOk result (λ text. string_bytes text ≡ text_is.time_text (option_map stamp_view time)) }
{
    match time {
        None => Ok(format!(in alloc; "-")?),
        Some(time) => stamp_text(alloc, time),
    }
}

// Puts a text and what stands behind it: a space, or the line's end.
fn put(text: &mut Vec<u8>, word: &str, end: u8) -> Result<(), OutOfMemory>
    ensures { OnOk result (text.new.items ≡ text.old.items ++ word.now ++ end ∷ []) }
{
    text.extend_from_slice(word.as_bytes())?;
    text.push(end)?;
    Ok(())
}

fn put_entry(
    alloc: Global,
    text: &mut Vec<u8>,
    path: PathRef<'_>,
    entry: &Entry,
) -> Result<(), OutOfMemory>
    ensures { OnOk result (text.new.items ≡ text.old.items ++ entry_line path.entry.text.now (view entry.now)) }
{
    let size = size_text(alloc, entry.size)?;
    let time = time_text(alloc, entry.stamp)?;
    text.extend_from_slice(&[state_sign(entry.state()), b' ', mode(entry), b' '])?;
    put(text, size.as_str(), b' ')?;
    put(text, time.as_str(), b' ')?;
    put(text, path.text, b'\n')
}

fn put_cache(
    alloc: Global,
    text: &mut Vec<u8>,
    path: PathRef<'_>,
    time: Stamp,
) -> Result<(), OutOfMemory>
    ensures { OnOk result (text.new.items ≡ text.old.items ++ cache_line path.entry.text.now (stamp_view time)) }
{
    let time = stamp_text(alloc, time)?;
    text.extend_from_slice(b"d - - ")?;
    put(text, time.as_str(), b' ')?;
    put(text, path.text, b'\n')
}

fn put_record(alloc: Global, text: &mut Vec<u8>, row: &Line<'_>) -> Result<(), OutOfMemory>
    ensures { OnOk result (text.new.items ≡ text.old.items ++ row_line row.now) }
{
    if let Some(entry) = &row.entry {
        return put_entry(alloc, text, row.path, entry);
    }
    match row.cache {
        None => Ok(()),
        Some(time) => put_cache(alloc, text, row.path, time),
    }
}

fn put_copy(text: &mut Vec<u8>, row: &Line<'_>) -> Result<(), OutOfMemory>
    ensures { OnOk result (text.new.items ≡ text.old.items ++ row_copy row.now) }
{
    match row.source {
        None => Ok(()),
        Some(source) => {
            text.extend_from_slice(b"copy: ")?;
            text.extend_from_slice(source.text.as_bytes())?;
            text.extend_from_slice(b" -> ")?;
            put(text, row.path.text, b'\n')
        }
    }
}

fn put_parents(alloc: Global, text: &mut Vec<u8>, p1: Id20, p2: Id20) -> Result<(), OutOfMemory>
    ensures { OnOk result (text.new.items ≡ text.old.items ++ parent_lines p1.0 p2.0) }
{
    let first = hex::encode(alloc, p1.0)?;
    let second = hex::encode(alloc, p2.0)?;
    text.extend_from_slice(b"p1 ")?;
    text.extend_from_slice(first.as_bytes())?;
    text.extend_from_slice(b"\np2 ")?;
    put(text, second.as_str(), b'\n')
}

fn put_records(alloc: Global, text: &mut Vec<u8>, rows: &[Line<'_>]) -> Result<(), OutOfMemory>
    ensures { OnOk result (text.new.items ≡ text.old.items ++ flat_map row_line rows.now) }
{
    for row in rows {
        put_record(alloc, text, row)?;
    }
    Ok(())
}

fn put_copies(text: &mut Vec<u8>, rows: &[Line<'_>]) -> Result<(), OutOfMemory>
    ensures { OnOk result (text.new.items ≡ text.old.items ++ flat_map row_copy rows.now) }
{
    for row in rows {
        put_copy(text, row)?;
    }
    Ok(())
}

/// The text of a record: two lines for the parents, `S MODE SIZE TIME PATH` for each entry and each cached directory, and
/// `copy: SOURCE -> PATH` for each copy source. Sizes are in bytes, times in seconds since 1970-01-01 UTC.
pub fn debug_text(alloc: Global, mixed: &Mixed<'_>) -> Result<Vec<u8>, OutOfMemory>
    ensures text { IfOk result (λ text. IsDebugText (table mixed.now) text.items) }
{
    let (p1, p2) = mixed.parents();
    let rows = gather(alloc, mixed)?;
    let mut text = Vec::new(alloc);
    put_parents(alloc, &mut text, p1, p2)?;
    put_records(alloc, &mut text, rows.as_slice())?;
    put_copies(&mut text, rows.as_slice())?;
    Ok(text)
}

/// There is one text of a table.
pub fn one_debug_text()
    ensures { OneDebugText }
{}
