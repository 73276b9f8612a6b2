//! The line of a fault.

ghost use Rattle.std.specs.Prelude.{◌≡◌, ◌++◌, ◌∷◌, [], IfOk, OnOk, codes};
ghost use Rattle.std.specs.Fmt.{decimal};
ghost use Rattle.std.specs.List.{flat_map};
ghost use Rattle.std.specs.String.{string_bytes};
ghost use Rattle.hg_report.specs.Fault as words_are;
ghost use Rattle.hg_report.specs.Fault.{at_ignore_line, at_node, at_script_line, docket_words, line_of, node_words, with_id, words_of};

use crate::fault::Fault;
use hg_base::{Id20, OutOfMemory};
use hg_docket::{DocketFault, Idents};
use hg_image::NodeFault;
use std::alloc::Global;

fn docket_text(alloc: Global, fault: &DocketFault) -> Result<String, OutOfMemory>
    ensures { IfOk result (λ text. string_bytes text ≡ docket_words fault.now) }
{
    match fault {
        DocketFault::Marker { at } => Ok(format!(in alloc;
            "dirstate: marker differs at byte {at}"
        )?),
        DocketFault::Short { len, needed } => Ok(format!(in alloc;
            "dirstate: {len} bytes where {needed} are needed"
        )?),
        DocketFault::Identifier { at } => Ok(format!(in alloc; "dirstate: identifier byte {at}")?),
        DocketFault::NoIdentifier { used } => Ok(format!(in alloc;
            "dirstate: no identifier for {used} bytes"
        )?),
    }
}

fn at_text(alloc: Global, node: u32, what: &str) -> Result<String, OutOfMemory>
    ensures { IfOk result (λ text. string_bytes text ≡ at_node node what.now) }
{
    Ok(format!(in alloc; "dirstate data: node {node}: {what}")?)
}

fn node_text(alloc: Global, fault: &NodeFault) -> Result<String, OutOfMemory>
    ensures { IfOk result (λ text. string_bytes text ≡ node_words fault.now) }
{
    match fault {
        NodeFault::DataShort { have, used } => Ok(format!(in alloc;
            "dirstate data: {have} bytes where {used} are used"
        )?),
        NodeFault::List { start, count } => Ok(format!(in alloc;
            "dirstate data: list at {start} of {count} nodes"
        )?),
        NodeFault::Text { node } => at_text(alloc, *node, "text"),
        NodeFault::Name { node } => at_text(alloc, *node, "name"),
        NodeFault::Deep { node } => at_text(alloc, *node, "depth"),
        NodeFault::Base { node } => at_text(alloc, *node, "base"),
        NodeFault::Parent { node } => at_text(alloc, *node, "parent"),
        NodeFault::Order { node } => at_text(alloc, *node, "order"),
        NodeFault::Copy { node } => at_text(alloc, *node, "copy"),
        NodeFault::Times { node } => at_text(alloc, *node, "time"),
    }
}

fn put_ids(line: &mut Vec<u8>, ids: &Idents) -> Result<(), OutOfMemory>
    ensures { OnOk result (line.new.items ≡ line.old.items ++ flat_map (λ id. 32 ∷ id) ids.now) }
{
    for i in 0..ids.len() {
        line.push(b' ')?;
        line.extend_from_slice(ids.at(i).as_bytes())?;
    }
    Ok(())
}

fn put_id(alloc: Global, line: &mut Vec<u8>, what: &str, id: Id20) -> Result<(), OutOfMemory>
    ensures { OnOk result (line.new.items ≡ line.old.items ++ with_id what.now id) }
{
    let digits = hex::encode(alloc, id.0)?;
    put(line, what)?;
    put(line, digits.as_str())
}

fn size_text(alloc: Global, size: u64) -> Result<String, OutOfMemory>
    ensures { IfOk result (λ text. string_bytes text ≡ codes "manifest of " ++ (decimal size ++ codes " bytes")) }
{
    Ok(format!(in alloc; "manifest of {size} bytes")?)
}

fn line_text(alloc: Global, what: &str, line: u32) -> Result<String, OutOfMemory>
    ensures { IfOk result (λ text. string_bytes text ≡ what.now ++ decimal line) }
{
    Ok(format!(in alloc; "{what}{line}")?)
}

fn ignore_text(alloc: Global, line: u32, what: &str) -> Result<String, OutOfMemory>
    ensures { IfOk result (λ text. string_bytes text ≡ at_ignore_line line what.now) }
{
    Ok(format!(in alloc; ".hgignore line {line}: {what}")?)
}

fn ignore_size_text(alloc: Global, size: u64) -> Result<String, OutOfMemory>
    ensures { IfOk result (λ text. string_bytes text ≡ codes ".hgignore of " ++ (decimal size ++ codes " bytes")) }
{
    Ok(format!(in alloc; ".hgignore of {size} bytes")?)
}

fn ignore_byte_text(alloc: Global, at: u32) -> Result<String, OutOfMemory>
    ensures { IfOk result (λ text. string_bytes text ≡ codes ".hgignore: byte " ++ (decimal at ++ codes " is not text")) }
{
    Ok(format!(in alloc; ".hgignore: byte {at} is not text")?)
}

fn data_size_text(alloc: Global, size: u64) -> Result<String, OutOfMemory>
    ensures { IfOk result (λ text. string_bytes text ≡ codes "dirstate data would have " ++ (decimal size ++ codes " bytes")) }
{
    Ok(format!(in alloc; "dirstate data would have {size} bytes")?)
}

fn argument_text(alloc: Global, word: u32) -> Result<String, OutOfMemory>
    ensures { IfOk result (λ text. string_bytes text ≡ codes "argument " ++ (decimal word ++ codes " is not a node")) }
{
    Ok(format!(in alloc; "argument {word} is not a node")?)
}

fn script_text(alloc: Global, line: u32, what: &str) -> Result<String, OutOfMemory>
    ensures { IfOk result (λ text. string_bytes text ≡ at_script_line line what.now) }
{
    Ok(format!(in alloc; "script line {line} is {what}")?)
}

fn put_words(alloc: Global, line: &mut Vec<u8>, fault: &Fault) -> Result<(), OutOfMemory>
    ensures { OnOk result (line.new.items ≡ line.old.items ++ words_of fault.now) }
{
    match fault {
        Fault::OutOfMemory => put(line, "out of memory"),
        Fault::NotBuilt => put(line, "not built yet"),
        Fault::NoCommand => put(line, "no command"),
        Fault::UnknownCommand => put(line, "unknown command"),
        Fault::Usage => put(line, "wrong arguments"),
        Fault::BadNode { word } => put(line, argument_text(alloc, *word)?.as_str()),
        Fault::Docket(fault) => put(line, docket_text(alloc, fault)?.as_str()),
        Fault::Node(fault) => put(line, node_text(alloc, fault)?.as_str()),
        Fault::DataGone { ids } => {
            put(line, "dirstate data gone:")?;
            put_ids(line, ids)
        }
        Fault::NoManifest { id } => put_id(alloc, line, "no manifest ", *id),
        Fault::ManifestTooLarge { size } => put(line, size_text(alloc, *size)?.as_str()),
        Fault::ManifestLine { line: at } => {
            put(line, line_text(alloc, "manifest line ", *at)?.as_str())
        }
        Fault::ManifestOrder { line: at } => {
            put(
                line,
                line_text(alloc, "manifest order at line ", *at)?.as_str(),
            )
        }
        Fault::NoContents { id } => put_id(alloc, line, "no contents ", *id),
        Fault::IgnoreTooLarge { size } => put(line, ignore_size_text(alloc, *size)?.as_str()),
        Fault::IgnoreText { at } => put(line, ignore_byte_text(alloc, *at)?.as_str()),
        Fault::BadGlob { line: at } => put(line, ignore_text(alloc, *at, "glob")?.as_str()),
        Fault::BadRegexp { line: at } => put(line, ignore_text(alloc, *at, "regexp")?.as_str()),
        Fault::RegexpTooBig { line: at } => put(line, ignore_text(alloc, *at, "size")?.as_str()),
        Fault::BadInclude { line: at } => put(line, ignore_text(alloc, *at, "include")?.as_str()),
        Fault::Held => put(line, "working copy is locked"),
        Fault::TooLarge { size } => put(line, data_size_text(alloc, *size)?.as_str()),
        Fault::IdsSpent => put(line, "no identifier is left"),
        Fault::TreeFailed => put(line, "working copy failed"),
        Fault::ShelfFailed => put(line, ".hg failed"),
        Fault::InFailed => put(line, "input failed"),
        Fault::OutFailed => put(line, "output failed"),
        Fault::ErrFailed => Ok(()),
        Fault::ScriptLine { n } => put(line, script_text(alloc, *n, "too long")?.as_str()),
        Fault::ScriptText { n } => put(line, script_text(alloc, *n, "not text")?.as_str()),
        Fault::ScriptNested { n } => put(line, script_text(alloc, *n, "a script")?.as_str()),
        Fault::ScriptTooLarge { .. } => put(line, "script of more than 67108864 bytes"),
    }
}

// Puts a text behind what is there.
pub(crate) fn put(line: &mut Vec<u8>, text: &str) -> Result<(), OutOfMemory>
    ensures { OnOk result (line.new.items ≡ line.old.items ++ text.now) }
{
    line.extend_from_slice(text.as_bytes())?;
    Ok(())
}

// Whether a fault has a line.
fn has_line(fault: &Fault) -> bool
    ensures { result ≡ words_are.has_line fault.now }
{
    !matches!(fault, Fault::ErrFailed)
}

/// The line of a fault: `abort: `, its text and LF; of `ErrFailed` there is none. Numbers are decimal.
pub fn fault_text(alloc: Global, fault: &Fault) -> Result<Vec<u8>, OutOfMemory>
    ensures { IfOk result (λ line. line.items ≡ line_of fault.now) }
{
    let mut line = Vec::new(alloc);
    if !has_line(fault) {
        return Ok(line);
    }
    put(&mut line, "abort: ")?;
    put_words(alloc, &mut line, fault)?;
    put(&mut line, "\n")?;
    Ok(line)
}
