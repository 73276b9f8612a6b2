//! The words of a line.

ghost use Rattle.std.specs.Prelude.{◌≡◌, IfOk};
ghost use Rattle.hg_lines.specs.Script as scripts;

use hg_base::{OutOfMemory, Text, Words};
use std::alloc::Global;

/// The words of a line: what stands between its single spaces, so that two spaces have an empty word between them. An empty line has none.
pub fn words_of(alloc: Global, line: &str) -> Result<Words, OutOfMemory>
    ensures { IfOk result (λ words. words ≡ scripts.words_of line.now) }
{
    let mut words = Words::new(alloc);
    if line.is_empty() {
        return Ok(words);
    }
    let mut rest = line;
    while let Some((word, behind)) = rest.split_once(' ') {
        words.push(Text::of(alloc, word)?)?;
        rest = behind;
    }
    words.push(Text::of(alloc, rest)?)?;
    Ok(words)
}
