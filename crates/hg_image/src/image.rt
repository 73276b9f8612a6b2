//! Opening a data file.

ghost use Rattle.std.specs.Prelude.{◌≡◌, IfOk, None, take};
ghost use Rattle.std.specs.Result.{result_err, result_map_both};
ghost use Rattle.hg_docket.specs.Docket.{view};
ghost use Rattle.hg_image.specs.Counts as scratch;
ghost use Rattle.hg_image.specs.Reading.{data_reading, table_in};
ghost use Rattle.hg_image.specs.Rows.{rows_of, AreDistinct};
ghost use Rattle.hg_image.specs.View.{rows, rows_in};
ghost use Rattle.hg_image.specs.Walk as walk;
ghost use Rattle.hg_image.specs.Walk.{NeedsNoMore, image_fault};

use crate::counts::are_right;
use crate::fault::NodeFault;
use crate::list_check::check_list;
use crate::opened::{Image, List};
use hg_docket::Docket;

impl<'a> Image<'a> {
    /// Walks the used bytes of a data file once, and answers its first fault. It takes no memory.
    #[tactic(auto, using(crate::proofs::Levels::levels_enough))]
    pub fn open(docket: &Docket<'a>, bytes: &'a [u8]) -> Result<Image<'a>, NodeFault>
        ensures fault { result_err result ≡ image_fault (view docket.now) bytes.entry.now }
        ensures levels { NeedsNoMore (view docket.now) bytes.entry.now }
        ensures docket { IfOk result (λ i. i.docket ≡ docket.now) }
        ensures bytes { IfOk result (λ i. i.bytes.now ≡ take docket.now.used bytes.entry.now) }
        ensures rows { IfOk result (λ i. rows i ≡ rows_of (view docket.now) bytes.entry.now) }
        // It is the reading of the data file: the first fault, or the table of all that is recorded.
        ensures read { result_map_both table_in (λ fault. fault) result ≡ data_reading (view docket.now) bytes.entry.now }
    {
        let have = bytes.len() as u64;
        if have < docket.used as u64 {
            return Err(NodeFault::DataShort {
                have,
                used: docket.used,
            });
        }
        let bytes = bytes.split_at(docket.used as usize).0;
        let tally = check_list(bytes, None, docket.root_start, docket.root_count, levels())?;
        let is_right = are_right(docket, tally);
        Ok(Image {
            docket: *docket,
            bytes,
            is_right,
        })
    }

    /// Whether all counts that the docket and the nodes record are those from scratch, and the used bytes have room for all nodes.
    pub fn counted(&self) -> bool
        ensures { result ≡ scratch.is_counted (view self.now.docket) (rows self.now) }
    {
        self.is_right
    }

    /// The docket that the image was opened with.
    pub fn docket(self) -> Docket<'a>
        ensures { result ≡ self.entry.docket }
    {
        self.docket
    }

    /// The nodes of the root.
    #[tactic(auto, using(crate::proofs::Apart::list_dist))]
    pub fn root(&self) -> List<'a>
        ensures rows { rows_in result ≡ rows self.now }
        ensures dir { result.dir ≡ None }
        // It is the list that the docket names, with no node too.
        ensures start { result.start ≡ self.now.docket.root_start }
        ensures count { result.count ≡ self.now.docket.root_count }
        ensures bytes { result.bytes.now ≡ self.now.bytes.now }
        ensures levels { result.depth ≡ walk.levels }
        // No two nodes of an image are of one path.
        ensures distinct { AreDistinct (rows self.now) }
    {
        List {
            bytes: self.bytes,
            dir: None,
            start: self.docket.root_start,
            count: self.docket.root_count,
            depth: levels(),
        }
    }
}

// How many levels of lists a walk looks at.
#[tactic(auto, unfolding(crate::specs::Walk::levels))]
fn levels() -> u32
    ensures { result ≡ walk.levels }
{
    2049
}
