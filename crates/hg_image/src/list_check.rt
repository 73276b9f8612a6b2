//! The check of a list of nodes and of all that is below it, and their tally.

ghost use Rattle.std.specs.Prelude.{◌≡◌, ◌+◌, ◌/◌, ◌<◌, ◌≤◌, ◌^◌, IfOk, length, option_map};
ghost use Rattle.std.specs.Result.{result_err};
ghost use Rattle.hg_image.specs.Rows.{list_rows};
ghost use Rattle.hg_image.specs.Tally.{tally_within};
ghost use Rattle.hg_image.specs.Walk.{depth_of, levels, list_fault};

use crate::counts::{Tally, no_nodes, with_node};
use crate::fault::NodeFault;
use crate::node_check::check_node;
use crate::parts::{RECORD_LEN, read_record};
use hg_base::PathRef;
use hg_node::within;

/// The first fault of a list in a directory, none for the root: each node is tried before its children, and they before the next node.
///
/// Where there is none, the tally of all nodes, if each records its counts and the bytes have room for them.
pub fn check_list(
    bytes: &[u8],
    dir: Option<PathRef<'_>>,
    start: u32,
    count: u32,
    depth: u32,
) -> Result<Option<Tally>, NodeFault>
    requires used { length bytes.now < 2 ^ 32 }
    requires levels { depth_of (option_map (λ d. d.text.now) dir) + depth ≤ levels }
    ensures fault { result_err result ≡ list_fault depth bytes.now (option_map (λ d. d.text.now) dir.entry) start count }
    ensures tally { IfOk result (λ t. t ≡ tally_within (length bytes.now / 44) (list_rows depth bytes.now start count)) }
{
    if count == 0 {
        return Ok(no_nodes());
    }
    if depth == 0 {
        return Err(NodeFault::List { start, count });
    }
    if !within(start, 44 * count as u64, bytes.len() as u32) {
        return Err(NodeFault::List { start, count });
    }
    let most = most_nodes(bytes);
    let mut sum = no_nodes();
    let mut before = None;
    let mut at = start;
    for i in 0..count {
        let rec = read_record(bytes, at);
        let found = check_node(bytes, dir, depth, before, rec)?;
        before = Some(found.name);
        at += 44;
        // (most nodes are files, which cost no call)
        if rec.kids_count == 0 {
            sum = with_node(sum, rec, no_nodes(), most);
            continue;
        }
        let under = check_list(
            bytes,
            Some(found.path),
            rec.kids_start,
            rec.kids_count,
            depth - 1,
        )?;
        sum = with_node(sum, rec, under, most);
    }
    Ok(sum)
}

// How many nodes the bytes have room for.
fn most_nodes(bytes: &[u8]) -> u32
    requires { length bytes.now < 2 ^ 32 }
    ensures { result ≡ length bytes.now / 44 }
{
    bytes.len() as u32 / 44
}
