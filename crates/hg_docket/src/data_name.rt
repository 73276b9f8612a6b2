//! The name of a data file below `.hg`.

ghost use Rattle.std.specs.Prelude.{◌≡◌, ◌++◌, codes};

use crate::ident::Ident;
use hg_base::put;
use std::marker::Model;

/// The bytes before the identifier.
const FRONT: [u8; 9] = *b"dirstate.";

/// The name `dirstate.ID` of a data file; contracts see its bytes.
#[derive(Debug, Drop)]
pub struct DataName {
    bytes: [u8; 264],
    len: usize,
}

impl Model for DataName {
    ghost use Rattle.std.specs.Prelude.{List, ℕ, take, length, IsTrue, ◌≤◌};
    ghost use Rattle.std.specs.List.{list_all};
    ghost use Rattle.hg_docket.specs.Name.{is_ascii};

    ghost Value = { List ℕ };

    ghost view = { λ n. take n.len n.bytes };

    ghost invariant = { λ n. (n.len ≤ 264) × IsTrue (list_all is_ascii (take n.len n.bytes)) };
}

impl DataName {
    /// The name of the data file with this identifier.
    pub fn of(id: &Ident) -> DataName
        ensures { result ≡ codes "dirstate." ++ id.now }
    {
        let id = id.as_bytes();
        let mut bytes = [0; 264];
        let at = put(&mut bytes, 0, &FRONT);
        let len = put(&mut bytes, at, id);
        DataName { bytes, len }
    }

    /// The name as text.
    pub fn as_str(&self) -> &str
        ensures { result.now ≡ self.now }
    {
        match str::from_utf8(self.bytes.split_at(self.len).0) {
            Ok(text) => text,
            Err(_) => "",
        }
    }
}
