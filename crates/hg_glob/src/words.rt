//! Words with one bit for each end of a path: bit i is the end of i characters.

ghost use Rattle.std.specs.Prelude.{◌≡◌, ◌+◌, ◌<◌, ℕ, ◌==◌, ◌||◌, ◌&&◌, not, true, false, if◌then◌else◌};
ghost use Rattle.hg_glob.specs.Column.{bit, IsUp, IsSmeared};

/// Each end by one character longer.
#[inline(always)]
pub fn up(word: u64) -> u64
    ensures { IsUp word result }
{
    word << 1
}

/// The ends of the word, and those that are longer by marked characters alone. The carry of the sum goes as far as the marks do.
#[inline(always)]
pub fn smear(word: u64, mask: u64) -> u64
    requires { bit mask 0 ≡ false }
    ensures { IsSmeared word mask result }
{
    let seeds = mask & (word << 1);
    let sum = mask.wrapping_add(seeds);
    (word | seeds) | (mask & (mask ^ sum))
}

/// The word, and where `hit` is set the end of one character more than `at`.
#[inline(always)]
pub fn put(word: u64, at: usize, hit: bool) -> u64
    requires { at < 63 }
    ensures { (i : ℕ) → bit result i ≡ (bit word i || (hit && i == at + 1)) }
{
    if hit { word | (1 << (at + 1)) } else { word }
}

/// All ends but that of no character.
#[inline(always)]
pub fn longer() -> u64
    ensures front { bit result 0 ≡ false }
    ensures more { (i : ℕ) → i + 1 < 64 → bit result (i + 1) ≡ true }
{
    u64::MAX - 1
}

/// The other ends, but that of no character.
#[inline(always)]
pub fn others(word: u64) -> u64
    ensures front { bit result 0 ≡ false }
    ensures more { (i : ℕ) → i + 1 < 64 → bit result (i + 1) ≡ not (bit word (i + 1)) }
{
    longer() & (u64::MAX ^ word)
}

/// The ends, or where `negated` is set the others.
#[inline(always)]
pub fn members(negated: bool, word: u64) -> u64
    ensures { (i : ℕ) → i < 64 → bit result i ≡ (if negated then not (bit word i) else bit word i) }
{
    if negated { u64::MAX ^ word } else { word }
}

/// Whether the end of so many characters is there.
#[inline(always)]
pub fn has(word: u64, at: usize) -> bool
    requires { at < 64 }
    ensures { result ≡ bit word at }
{
    (word >> at) & 1 == 1
}
