//! The characters of a short path, from its end, and for each ASCII character the ends of the path that begin with it.

ghost use Rattle.std.specs.Prelude.{◌≡◌, ◌+◌, ◌<◌, ◌≤◌, ◌++◌, [], ◌∷◌, ◌==◌, ◌&&◌, not, List, ℕ, length, nat_le, nat_lt, reverse, chars, IsTrue};
ghost use Rattle.hg_glob.specs.Column.{bit, IsMask, IsWord, IsSums, AreEach};
ghost use Rattle.hg_glob.specs.Kept.{HasEnd};

use crate::words::{others, put};
use std::marker::Model;

fn lies(c: char, low: char, high: char) -> bool
    ensures { result ≡ (nat_le low c && nat_le c high) }
{
    low <= c && c <= high
}

/// From the ends that begin with each ASCII character, those that begin below each.
fn sums(table: &[u64; 128]) -> [u64; 129]
    ensures { (xs : List ℕ) → AreEach xs table.now → IsSums xs result }
{
    let mut sums = [0; 129];
    for x in 0..128 {
        sums[x + 1] = sums[x] | table[x];
    }
    sums
}

/// The ends that begin with an ASCII character from `low` to `high`.
#[inline(always)]
fn span(sums: &[u64; 129], low: char, high: char) -> u64
    ensures { (xs : List ℕ) → IsSums xs sums.now → length xs ≤ 63 → IsWord xs (λ c. nat_lt c 128 && (nat_le low c && nat_le c high)) result }
{
    let first = (low as usize).min(128);
    let last = (high as usize).min(127);
    sums[last + 1] & others(sums[first])
}

/// Whether so many ends are marked that a look at each character takes less time than one at each of these.
fn is_many(word: u64) -> bool {
    word.count_ones() > 8
}

/// At most 63 characters; contracts see them, the last of the path first.
#[derive(Debug, Drop)]
pub struct Short {
    items: [char; 64],
    count: usize,
    table: [u64; 128],
    /// The ends that begin with a character beyond ASCII.
    wide: u64,
    /// For each number up to 128 the ends that begin with a character below it, where `is_ready` is set.
    below: [u64; 129],
    is_ready: bool,
}

impl Model for Short {
    ghost use Rattle.std.specs.Prelude.{List, ℕ, take};
    ghost use Rattle.hg_glob.specs.Column.{IsTable};

    ghost Value = { List ℕ };

    ghost view = { λ s. take s.count s.items };

    ghost invariant = { λ s. IsTable s.items s.count s.table s.wide s.below s.is_ready };
}

impl Short {
    pub fn new() -> Short
        ensures { result ≡ [] }
    {
        Short {
            items: ['\0'; 64],
            count: 0,
            table: [0; 128],
            wide: 0,
            below: [0; 129],
            is_ready: false,
        }
    }

    pub fn len(&self) -> usize
        ensures len { result ≡ length self.now }
        ensures few { result ≤ 63 }
    {
        self.count
    }

    /// One character more in front.
    pub fn push(&mut self, c: char)
        requires { length self.old < 63 }
        ensures { self.new ≡ self.old ++ c ∷ [] }
    {
        let code = c as usize;
        self.items[self.count] = c;
        if code < 128 {
            self.table[code] = put(self.table[code], self.count, true);
        } else {
            self.wide = put(self.wide, self.count, true);
        }
        self.count += 1;
        self.is_ready = false;
    }

    /// Makes ready for many ranges; where many characters are beyond ASCII, a look at each character does as well.
    pub fn prepare(&mut self)
        ensures { self.new ≡ self.old }
    {
        if is_many(self.wide) {
            return;
        }
        self.below = sums(&self.table);
        self.is_ready = true;
    }

    /// The ends that begin with a character from `low` to `high`, by a look at each.
    #[inline(never)]
    fn spread(&self, low: char, high: char) -> u64
        ensures { IsMask self.now (λ c. nat_le low c && nat_le c high) result }
    {
        let mut word = 0;
        for j in 0..self.count {
            let c = self.items[j];
            word = put(word, j, lies(c, low, high));
        }
        word
    }

    /// Those of them whose character is beyond ASCII, by a look at each of these.
    #[inline(never)]
    fn far(&self, low: char, high: char) -> u64
        ensures { IsWord self.now (λ c. nat_le 128 c && (nat_le low c && nat_le c high)) result }
    {
        let mut word = 0;
        let mut left = self.wide;
        'wide: while left != 0 {
            let at = left.trailing_zeros() as usize;
            word = put(word, at - 1, lies(self.items[at - 1], low, high));
            left &= !(1 << at);
        }
        word
    }

    /// The ends that begin with the character.
    #[inline(always)]
    pub fn literal(&self, x: char) -> u64
        ensures { IsWord self.now (λ c. c == x) result }
    {
        let code = x as usize;
        if code < 128 {
            return self.table[code];
        }
        if self.wide == 0 {
            return 0;
        }
        if is_many(self.wide) {
            return self.spread(x, x);
        }
        self.far(x, x)
    }

    /// The ends that begin with a character from `low` to `high`.
    #[inline(always)]
    pub fn between(&self, low: char, high: char) -> u64
        ensures { IsWord self.now (λ c. nat_le low c && nat_le c high) result }
    {
        if low == high {
            return self.literal(low);
        }
        if !self.is_ready {
            return self.spread(low, high);
        }
        let near = span(&self.below, low, high);
        if self.wide == 0 {
            return near;
        }
        near | self.far(low, high)
    }

    /// The ends that begin with a slash.
    #[inline(always)]
    pub fn slash(&self) -> u64
        ensures { IsWord self.now (λ c. c == 47) result }
    {
        self.table[47]
    }

    /// The ends that begin with another character.
    #[inline(always)]
    pub fn inside(&self) -> u64
        ensures { IsWord self.now (λ c. not (c == 47)) result }
    {
        others(self.table[47])
    }

    /// Takes up the characters of a path, where they are so few, and else the last ones.
    pub fn read(&mut self, path: &str) -> bool
        requires { self.old ≡ [] }
        ensures all { IsTrue result → chars path.now ≡ reverse self.new }
        ensures last { HasEnd (chars path.now) (reverse self.new) }
    {
        for c in path.chars().rev() {
            if self.len() >= 63 {
                return false;
            }
            self.push(c);
        }
        true
    }
}
