//! Reading requests.

ghost use Rattle.hg_server.specs.Failing.{FailsAs};
ghost use Rattle.hg_server.specs.Requests.{Reads};
ghost use Rattle.hg_server.specs.declared.fault.ServeFault.TheVariants as a_fault;

use crate::fault::ServeFault;
use crate::judging::{HEAD, missing};
use crate::part::Part;
use crate::words::words_in;
use hg_base::Words;
use hg_stream::Source;
use std::alloc::Global;

/// The words of request number n, which is read from its first byte on, and of which no byte behind it is taken; none at the end of the input.
pub(crate) fn next<I: Source>(
    alloc: Global,
    n: u64,
    input: &mut I,
) -> Result<Option<Words>, ServeFault>
    ensures reads { Reads n (I.left input.old) (I.left input.new) result }
    ensures cause { FailsAs (I.faults input.old) (I.faults input.new) result a_fault.InFailed }
{
    let mut part = Part::new(alloc);
    loop {
        let most = missing(n, part.bytes())?;
        if most == 0 {
            let text = part.bytes().split_at(HEAD).1;
            return Ok(Some(words_in(alloc, n, text)?));
        }
        if !part.take(most, input)? {
            if part.bytes().is_empty() {
                return Ok(None);
            }
            return Err(ServeFault::ServerShort { n });
        }
    }
}
