//! What compiles the regexps of an ignore text.

ghost use Rattle.std.specs.Prelude.{◌≡◌, ◌≤◌, ℕ, false, IfOk, IfErr, IfSome};
ghost use Rattle.hg_ignore.specs.Regexp.{IsBuiltFrom, is_regexp};
ghost use Rattle.hg_ignore.specs.Building.{Counts, CountsOne};
ghost use Rattle.hg_ignore.specs.declared.regexps.RegexpFault.TheVariants as a_fault;

use hg_base::risen;
use regex::{Error, Regex, RegexBuilder};
use std::alloc::Global;

/// Why a regexp isn't compiled.
#[derive(Clone, Copy, Debug, PartialEq, Eq)]
pub enum RegexpFault {
    /// No memory.
    OutOfMemory,
    /// The text isn't in the grammar of `regex`, or is nested too deep.
    Syntax,
    /// It was refused for its size.
    TooBig,
}

/// What compiles regexps. It counts those that it refuses for their size.
pub trait Regexps {
    ghost oversize: { Self → ℕ };

    /// The regexp of a text, under the default options of `regex`.
    fn build(&mut self, alloc: Global, text: &str) -> Result<Regex, RegexpFault>
        ensures built { IfOk result (IsBuiltFrom text.now) }
        ensures refused { IfErr result (λ e. e ≡ a_fault.Syntax → is_regexp text.now ≡ false) }
        ensures counts { Counts (oversize self.old) (oversize self.new) result };
}

/// The sizes within which a regexp is tried, in bytes.
const SIZES: [usize; 5] = [2 << 10, 16 << 10, 128 << 10, 1 << 20, 10 << 20];

/// What the sizes of all regexps may come to.
const IN_ALL: usize = 64 << 20;

/// The sizes for ASCII alone that are told apart, in bytes.
const ASCII_SIZES: [usize; 25] = [
    256,
    384,
    512,
    768,
    1 << 10,
    3 << 9,
    2 << 10,
    3 << 10,
    4 << 10,
    6 << 10,
    8 << 10,
    12 << 10,
    16 << 10,
    24 << 10,
    32 << 10,
    48 << 10,
    64 << 10,
    96 << 10,
    128 << 10,
    192 << 10,
    256 << 10,
    384 << 10,
    512 << 10,
    768 << 10,
    1 << 20,
];

/// A larger one weighs four times its size, since more of it is looked at again for each character.
const LIGHT: usize = 512;

/// What all regexps together may weigh.
const HEAVIEST: usize = 4 << 20;

/// Compiles regexps by `regex`, each within a size of 10 MiB, and all within 64 MiB. Each counts as the least of five sizes within which it is
/// compiled: 2, 16 and 128 KiB, 1 and 10 MiB.
///
/// Together they may weigh 4 MiB, which bounds the time of a search. Each weighs the least of the sizes 256, 384, 512 and 768 bytes, 1, 1.5, 2 KiB and so
/// on within which it is compiled for ASCII alone, so that a class weighs the same however many characters it has beyond ASCII; over 512 bytes
/// it weighs four times that size.
#[derive(Debug, Drop)]
pub struct Builds {
    failing: Option<u64>,
    made: u64,
    oversize: u64,
    left: usize,
    bearable: usize,
}

/// The regexp of a text, where it is compiled within that size.
fn within(alloc: Global, text: &str, size: usize) -> Result<Option<Regex>, RegexpFault>
    ensures built { IfOk result (λ regex. IfSome regex (IsBuiltFrom text.now)) }
    ensures refused { IfErr result (λ e. e ≡ a_fault.Syntax → is_regexp text.now ≡ false) }
    ensures sized { IfErr result (λ e. e ≡ a_fault.TooBig → ⊥) }
{
    match RegexBuilder::new(text).size_limit(size).build(alloc) {
        Ok(regex) => Ok(Some(regex)),
        Err(Error::OutOfMemory) => Err(RegexpFault::OutOfMemory),
        Err(Error::Syntax(_)) => Err(RegexpFault::Syntax),
        Err(Error::CompiledTooBig | Error::Internal) => Ok(None),
    }
}

/// Whether a text is compiled within a size for ASCII alone, or as it is where it can't be compiled for ASCII.
fn is_within(alloc: Global, text: &str, size: usize) -> Result<bool, RegexpFault>
    ensures refused { IfErr result (λ e. e ≡ a_fault.Syntax → is_regexp text.now ≡ false) }
    ensures sized { IfErr result (λ e. e ≡ a_fault.TooBig → ⊥) }
{
    match RegexBuilder::new(text)
        .unicode(false)
        .size_limit(size)
        .build_bytes(alloc)
    {
        Ok(_) => Ok(true),
        Err(Error::OutOfMemory) => Err(RegexpFault::OutOfMemory),
        Err(Error::CompiledTooBig | Error::Internal) => Ok(false),
        Err(Error::Syntax(_)) => Ok(within(alloc, text, size)?.is_some()),
    }
}

/// What a text weighs, where that is no more than so much.
fn weight_of(alloc: Global, text: &str, most: usize) -> Result<Option<usize>, RegexpFault>
    ensures within { IfOk result (λ weight. IfSome weight (λ weight. weight ≤ most)) }
    ensures refused { IfErr result (λ e. e ≡ a_fault.Syntax → is_regexp text.now ≡ false) }
    ensures sized { IfErr result (λ e. e ≡ a_fault.TooBig → ⊥) }
{
    for size in ASCII_SIZES {
        let weight = if size > LIGHT { 4 * size } else { size };
        if weight > most {
            return Ok(None);
        }
        if is_within(alloc, text, size)? {
            return Ok(Some(weight));
        }
    }
    Ok(None)
}

impl Builds {
    /// Compiles every regexp; none was too big yet.
    pub fn new() -> Builds
        ensures { result.oversize ≡ 0 }
    {
        Builds {
            failing: None,
            made: 0,
            oversize: 0,
            left: IN_ALL,
            bearable: HEAVIEST,
        }
    }

    /// Makes that call of `build` answer that the regexp is too big, and no call that was named before; calls are counted from 0.
    pub fn fail_at(&mut self, call: u64)
        ensures { self.new.oversize ≡ self.old.oversize }
    {
        self.failing = Some(call);
    }

    /// Counts one regexp more that is too big.
    fn refuse(&mut self) -> RegexpFault
        ensures { CountsOne self.old.oversize self.new.oversize result }
    {
        self.oversize = risen(self.oversize);
        RegexpFault::TooBig
    }

    /// Whether this call is to fail. It counts the call.
    fn is_due(&mut self) -> bool
        ensures { self.new.oversize ≡ self.old.oversize }
    {
        let call = self.made;
        self.made = call.saturating_add(1);
        self.failing == Some(call)
    }
}

impl Regexps for Builds {
    ghost oversize = { λ b. b.oversize };

    fn build(&mut self, alloc: Global, text: &str) -> Result<Regex, RegexpFault> {
        if self.is_due() {
            return Err(self.refuse());
        }
        let Some(weight) = weight_of(alloc, text, self.bearable)? else {
            return Err(self.refuse());
        };
        self.bearable -= weight;
        for size in SIZES {
            if size > self.left {
                return Err(self.refuse());
            }
            if let Some(regex) = within(alloc, text, size)? {
                self.left -= size;
                return Ok(regex);
            }
        }
        Err(self.refuse())
    }
}
