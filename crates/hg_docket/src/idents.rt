//! A short list of identifiers.

ghost use Rattle.std.specs.Prelude.{◌≡◌, ◌<◌, ◌++◌, ◌∷◌, [], Some, length};
ghost use Rattle.std.specs.List.{slice_get};

use crate::ident::Ident;
use std::marker::Model;

/// At most five identifiers, as many as a load meets before it gives up. Contracts see the list.
#[derive(Debug, Drop)]
pub struct Idents {
    items: [Ident; 5],
    len: usize,
}

impl Model for Idents {
    ghost use Rattle.std.specs.Prelude.{List, ℕ, ◌≡◌, ◌≤◌, take, length};

    ghost Value = { List (List ℕ) };

    ghost view = { λ i. take i.len i.items };

    ghost invariant = { λ i. (length i.items ≡ 5) × (i.len ≤ 5) };
}

impl Idents {
    /// No identifiers.
    pub fn new() -> Idents
        ensures { result ≡ [] }
    {
        Idents {
            items: [
                Ident::none(),
                Ident::none(),
                Ident::none(),
                Ident::none(),
                Ident::none(),
            ],
            len: 0,
        }
    }

    /// Puts the identifier last.
    pub fn push(&mut self, item: Ident)
        requires { length self.old < 5 }
        ensures { self.new ≡ self.old ++ item ∷ [] }
    {
        self.items[self.len] = item;
        self.len += 1;
    }

    pub fn len(&self) -> usize
        ensures { result ≡ length self.now }
    {
        self.len
    }

    /// The identifier at a place below the length.
    pub fn at(&self, i: usize) -> &Ident
        requires { i < length self.now }
        ensures { slice_get self.now i ≡ Some result.now }
    {
        let items = self.items.split_at(self.len).0;
        &items[i]
    }
}
