//! A record as it was loaded.

ghost use Rattle.std.specs.Prelude.{◌≡◌, take, IfOk};
ghost use Rattle.std.specs.Result.{result_map_both};
ghost use Rattle.hg_docket.specs.Docket.{docket_of, view};
ghost use Rattle.hg_image.specs.Reading.{data_reading, table_in};
ghost use Rattle.hg_save.specs.Whole.{IsWhole};

use hg_docket::Docket;
use hg_image::{Image, NodeFault};

/// A record as it was loaded: what was read as its docket, the docket that this shows, which is sound, and the used bytes of its data file,
/// fewer where the file is shorter.
#[derive(Drop)]
pub struct Loaded {
    pub docket: Vec<u8>,
    pub shown: Vec<u8>,
    pub nodes: Vec<u8>,
    pub ghost whole: { IsWhole docket.items shown.items nodes.items },
}

impl Loaded {
    /// Reads the nodes, and answers their first fault. It takes no memory.
    pub fn open(&self) -> Result<Image<'_>, NodeFault>
        ensures docket { IfOk result (λ i. view i.docket ≡ docket_of self.now.shown.items) }
        // It looks at the used bytes alone.
        ensures bytes { IfOk result (λ i. i.bytes.now ≡ take (docket_of self.now.shown.items).used self.now.nodes.items) }
        // It is the reading of the data file: the first fault, or the table of all that is recorded.
        ensures read { result_map_both table_in (λ fault. fault) result ≡ data_reading (docket_of self.now.shown.items) self.now.nodes.items }
    {
        match Docket::read(self.shown.as_slice()) {
            Err(_) => unreachable!(),
            Ok(docket) => Image::open(&docket, self.nodes.as_slice()),
        }
    }
}
