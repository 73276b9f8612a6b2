//! The marks of a match: which parts accept a text from there on, and what a pass over them carries along.

ghost use Rattle.std.specs.Prelude.{◌≡◌, ◌<◌, [], ◌∷◌, length, nat_lt, not, MatchOption};

use std::marker::Model;

/// Of one part: whether the text is accepted from it on, and, of `**/`, whether it is with a slash taken first.
#[derive(Clone, Copy, Debug)]
pub struct Mark {
    pub here: bool,
    pub behind: bool,
}

/// Of one pair of braces: whether the text is accepted behind it, and whether it is from a choice on that was passed.
#[derive(Clone, Copy, Debug)]
pub struct Brace {
    pub after: bool,
    pub found: bool,
}

/// The pairs of braces around a part, the innermost first.
#[derive(Debug, Drop)]
pub struct Braces {
    items: [Brace; 4095],
    count: usize,
}

impl Model for Braces {
    ghost use Rattle.std.specs.Prelude.{List, ℕ, ◌≡◌, ◌≤◌, take, reverse, length};
    ghost use Rattle.hg_glob.specs.declared.mark.Brace.{Brace};

    ghost Value = { List Brace };

    ghost view = { λ b. reverse (take b.count b.items) };

    ghost invariant = { λ b. (b.count ≤ 4095) × (length b.items ≡ 4095) };
}

impl Braces {
    pub fn new() -> Braces
        ensures { result ≡ [] }
    {
        let none = Brace {
            after: false,
            found: false,
        };
        Braces {
            items: [none; 4095],
            count: 0,
        }
    }

    pub fn clear(&mut self)
        ensures { self.new ≡ [] }
    {
        self.count = 0;
    }

    pub fn is_empty(&self) -> bool
        ensures { result ≡ not (nat_lt 0 (length self.now)) }
    {
        self.count == 0
    }

    pub fn push(&mut self, brace: Brace)
        requires { length self.old < 4095 }
        ensures { self.new ≡ brace ∷ self.old }
    {
        self.items[self.count] = brace;
        self.count += 1;
    }

    pub fn pop(&mut self) -> Option<Brace>
        ensures { MatchOption result ((self.old ≡ []) × (self.new ≡ [])) (λ brace. self.old ≡ brace ∷ self.new) }
    {
        if self.count == 0 {
            return None;
        }
        self.count -= 1;
        Some(self.items[self.count])
    }
}

/// What a pass carries along: whether a member of the class holds the character, and the braces.
#[derive(Debug, Drop)]
pub struct Going {
    pub hit: bool,
    pub braces: Braces,
}

impl Going {
    pub fn new() -> Going
        ensures { result.braces ≡ [] }
    {
        Going {
            hit: false,
            braces: Braces::new(),
        }
    }
}
