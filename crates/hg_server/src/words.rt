//! The words of a request.

ghost use Rattle.std.specs.Prelude.{◌≡◌, IfOk};
ghost use Rattle.hg_server.specs.Protocol as protocol;
ghost use Rattle.hg_server.specs.Steps.{AreWords};

use crate::fault::ServeFault;
use hg_base::{OutOfMemory, Text, Words};
use std::alloc::Global;

// The words of a text, which are parted by NUL; an empty text has none.
fn words_of(alloc: Global, text: &str) -> Result<Words, OutOfMemory>
    ensures { IfOk result (λ words. words ≡ protocol.words_of text.now) }
{
    let mut words = Words::new(alloc);
    if text.is_empty() {
        return Ok(words);
    }
    let mut rest = text;
    while let Some((word, behind)) = rest.split_once('\0') {
        words.push(Text::of(alloc, word)?)?;
        rest = behind;
    }
    words.push(Text::of(alloc, rest)?)?;
    Ok(words)
}

/// The words of request number n, by their bytes.
pub(crate) fn words_in(alloc: Global, n: u64, bytes: &[u8]) -> Result<Words, ServeFault>
    ensures { AreWords n bytes.now result }
{
    match str::from_utf8(bytes) {
        Ok(text) => Ok(words_of(alloc, text)?),
        Err(_) => Err(ServeFault::ServerText { n }),
    }
}
