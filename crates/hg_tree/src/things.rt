//! What stands now, as a map from the texts of paths to things.

ghost use Rattle.std.specs.Prelude.{◌≡◌, ℕ, List, Some, not, ◌&&◌, OnOk, OnErr, IfOk, option_map, IsSome};
ghost use Rattle.std.specs.BTreeMap.{get_by_text};
ghost use Rattle.std.specs.Map.{update};
ghost use Rattle.std.specs.Str.{bytes_eq};
ghost use Rattle.hg_tree.specs.Change.{after_place, after_take, with_parents, without_below};
ghost use Rattle.hg_tree.specs.Moment.{IsRooted, is_dir_thing};
ghost use Rattle.hg_tree.specs.Moment as moment;
ghost use Rattle.hg_tree.specs.Parents.{AreRootedAbove, IsMissing};

use crate::thing::{Placed, Thing};
use hg_base::{OutOfMemory, PathRef, is_below};
use std::alloc::Global;
use std::collections::BTreeMap;

/// Whether a directory stands at the path.
pub fn is_dir(things: &BTreeMap<String, Placed>, path: &str) -> bool
    ensures { result ≡ moment.is_dir (get_by_text things.now path.now) }
{
    match things.get(path) {
        Some(placed) => placed.thing.is_dir(),
        None => false,
    }
}

/// Puts a thing at the path, and answers what stood there.
pub fn put(
    alloc: Global,
    things: &mut BTreeMap<String, Placed>,
    path: &str,
    placed: Placed,
) -> Result<Option<Placed>, OutOfMemory>
    ensures was { IfOk result (λ was. was ≡ get_by_text things.old path.now) }
    ensures put { OnOk
        result
        ((at : List ℕ) → get_by_text things.new at ≡ update bytes_eq (get_by_text things.old) path.now (Some placed) at) }
    ensures err { OnErr result ((at : List ℕ) → get_by_text things.new at ≡ get_by_text things.old at) }
{
    let key = String::from_str(alloc, path)?;
    Ok(things.insert(key, placed)?)
}

/// Sets what stands at the path to something else, as to what stood there before.
pub fn restore(things: &mut BTreeMap<String, Placed>, path: &str, was: Option<Placed>)
    requires { IsSome (get_by_text things.old path.now) }
    ensures { (at : List ℕ) → get_by_text things.new at ≡ update bytes_eq (get_by_text things.old) path.now was at }
{
    match was {
        Some(placed) => {
            if let Some(slot) = things.get_mut(path) {
                *slot = placed;
            }
        }
        None => {
            things.remove(path);
        }
    }
}

// The directory of the path, where none stands there.
fn missing_parent<'a>(things: &BTreeMap<String, Placed>, path: PathRef<'a>) -> Option<PathRef<'a>>
    requires { AreRootedAbove path.text.now (get_by_text things.now) }
    ensures { IsMissing path.entry.text.now (get_by_text things.now) (option_map (λ d. d.text.now) result) }
{
    match path.parent() {
        Some(dir) => if is_dir(things, dir.text) {
            None
        } else {
            Some(dir)
        },
        None => None,
    }
}

// Puts a thing at the path and directories of its time at those ancestors where none stands, or leaves all as it was.
fn plant(
    alloc: Global,
    things: &mut BTreeMap<String, Placed>,
    path: PathRef<'_>,
    placed: Placed,
) -> Result<(), OutOfMemory>
    requires { AreRootedAbove path.text.now (get_by_text things.old) }
    ensures ok { OnOk
        result
        ((at : List ℕ) → get_by_text things.new at ≡ with_parents path.entry.text.now placed (get_by_text things.old) at) }
    ensures err { OnErr result ((at : List ℕ) → get_by_text things.new at ≡ get_by_text things.old at) }
{
    let mtime = placed.mtime;
    let missing = missing_parent(things, path);
    let was = put(alloc, things, path.text, placed)?;
    let Some(dir) = missing else {
        return Ok(());
    };
    let parent = Placed {
        thing: Thing::Dir,
        mtime,
    };
    match plant(alloc, things, dir, parent) {
        Ok(()) => Ok(()),
        Err(fault) => {
            restore(things, path.text, was);
            Err(fault)
        }
    }
}

// Takes away what stands below the path.
fn clear_below(things: &mut BTreeMap<String, Placed>, dir: &str)
    ensures { (at : List ℕ) → get_by_text things.new at ≡ without_below dir.now (get_by_text things.old) at }
{
    things.retain(|key, _| !is_below(dir, key.as_str()));
}

// Whether the thing takes away what stands below the path: no directory comes over a directory.
fn covers(things: &BTreeMap<String, Placed>, path: &str, thing: &Thing) -> bool
    ensures { result ≡ (moment.is_dir (get_by_text things.now path.now) && not (is_dir_thing thing.now)) }
{
    is_dir(things, path) && !thing.is_dir()
}

/// Places a thing, or leaves all as it was.
pub fn settle(
    alloc: Global,
    things: &mut BTreeMap<String, Placed>,
    path: PathRef<'_>,
    placed: Placed,
) -> Result<(), OutOfMemory>
    requires { IsRooted (get_by_text things.old) }
    ensures ok { OnOk
        result
        ((at : List ℕ)
        → get_by_text things.new at ≡ after_place path.entry.text.now placed.thing placed.mtime (get_by_text things.old) at) }
    ensures err { OnErr result ((at : List ℕ) → get_by_text things.new at ≡ get_by_text things.old at) }
{
    let covers = covers(things, path.text, &placed.thing);
    plant(alloc, things, path, placed)?;
    if covers {
        clear_below(things, path.text);
        return Ok(());
    }
    Ok(())
}

/// Takes away what stands at the path and below it.
pub fn remove(things: &mut BTreeMap<String, Placed>, path: &str)
    requires { IsRooted (get_by_text things.old) }
    ensures { (at : List ℕ) → get_by_text things.new at ≡ after_take path.now (get_by_text things.old) at }
{
    let was_dir = is_dir(things, path);
    let _ = things.remove(path);
    if was_dir {
        clear_below(things, path);
        return;
    }
}
