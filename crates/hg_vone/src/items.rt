//! The entries of the file, in their order.

ghost use Rattle.std.specs.Prelude.{◌≡◌, ◌≤◌, ◌||◌, ℕ, List, map, length, drop, not, IfOk, IfErr, OnOk, Ok};
ghost use Rattle.std.specs.BTreeSet.{contains_text};
ghost use Rattle.std.specs.Str.{bytes_eq};
ghost use Rattle.hg_vone.specs.Agreeing.{AreThePaths};
ghost use Rattle.hg_vone.specs.Items.{items_in};
ghost use Rattle.hg_vone.specs.Refusing.{Refuses};
ghost use Rattle.hg_vone.specs.View.{item};

use crate::fault::VoneFault;
use crate::item::{Item, read_item};
use hg_base::OutOfMemory;
use std::alloc::Global;
use std::collections::BTreeSet;

/// Where the entries begin: behind the two parents.
const START: usize = 40;

/// The entries in their order, and their paths.
#[derive(Drop)]
pub(crate) struct Items<'a> {
    pub items: Vec<Item<'a>>,
    pub paths: BTreeSet<String>,
}

// Puts the path to the others, and answers whether it is new there.
fn put(alloc: Global, paths: &mut BTreeSet<String>, path: &str) -> Result<bool, OutOfMemory>
    ensures new { IfOk result (λ is_new. is_new ≡ not (contains_text paths.old path.now)) }
    ensures more { OnOk result ((q : List ℕ) → contains_text paths.new q ≡ (bytes_eq path.now q || contains_text paths.old q)) }
{
    Ok(paths.insert(String::from_str(alloc, path)?)?)
}

/// The entries, or the first fault.
pub(crate) fn read_items(alloc: Global, bytes: &[u8]) -> Result<Items<'_>, VoneFault>
    requires parents { 40 ≤ length bytes.now }
    requires most { length bytes.now ≤ 67108864 }
    ensures fault { IfErr result (Refuses (items_in bytes.now)) }
    ensures items { IfOk result (λ i. items_in bytes.now ≡ Ok (map item i.items.items)) }
    ensures few { IfOk result (λ i. length i.items.items ≤ length bytes.now) }
    ensures paths { IfOk result (λ i. AreThePaths (contains_text i.paths) (map item i.items.items)) }
{
    let mut items = Vec::new(alloc);
    let mut paths = BTreeSet::new(alloc);
    let mut at = START;
    while at < bytes.len() {
        let item = read_item(bytes.split_at(at).1, at as u32)?;
        if !put(alloc, &mut paths, item.path.text)? {
            return Err(VoneFault::V1Twice { at: at as u32 });
        }
        items.push(item)?;
        at += item.size as usize;
    }
    Ok(Items { items, paths })
}
