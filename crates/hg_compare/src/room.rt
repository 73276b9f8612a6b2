//! Room for the bytes that are compared.

ghost use Rattle.std.specs.Prelude.{◌≡◌, length};

use hg_base::OutOfMemory;
use std::alloc::Global;
use std::marker::Model;

/// How many bytes are compared at once.
pub(crate) const PIECE: usize = 65_536;

/// Two buffers of 65,536 bytes each, for one comparison after another.
#[derive(Debug, Drop)]
pub struct Room {
    pub(crate) mine: Vec<u8>,
    pub(crate) theirs: Vec<u8>,
}

impl Model for Room {
    ghost use Rattle.std.specs.Prelude.{◌≡◌, length};

    ghost Value = { Unit {0} };

    ghost view = { λ _. tt };

    ghost invariant = { λ room. (length room.mine.items ≡ 65536) × (length room.theirs.items ≡ 65536) };
}

impl Room {
    /// Room for any number of comparisons.
    pub fn new(alloc: Global) -> Result<Room, OutOfMemory> {
        let mine = vec![in alloc; 0u8; PIECE]?;
        let theirs = vec![in alloc; 0u8; PIECE]?;
        Ok(Room { mine, theirs })
    }

    /// One of the two buffers, for a caller that reads or compares other bytes.
    pub fn buffer(&mut self) -> &mut [u8]
        ensures { length result.now ≡ 65536 }
    {
        self.mine.as_mut_slice()
    }
}
