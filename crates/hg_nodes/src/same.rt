//! Whether two records say the same.

ghost use Rattle.std.specs.Prelude.{◌≡◌, None, option_map, IfOk, MatchBool};
ghost use Rattle.std.specs.Option.{option_and_then};
ghost use Rattle.hg_entry.specs.Entry.{cache_view, stamp_view, view};
ghost use Rattle.hg_nodes.specs.Node.{node_at, source_in};

use crate::node::Source;
use crate::nodes::Nodes;
use hg_base::{Id20, OutOfMemory, Path, PathRef, Stamp};
use hg_entry::Entry;
use std::alloc::Global;

pub fn same_time(a: Option<Stamp>, b: Option<Stamp>) -> bool
    ensures { MatchBool result (option_map stamp_view a ≡ option_map stamp_view b) (option_map stamp_view a ≡ option_map stamp_view b → ⊥) }
{
    match (a, b) {
        (None, None) => true,
        (Some(a), Some(b)) => same_stamp(a, b),
        _ => false,
    }
}

/// The same of the caches that have these times.
pub fn same_cache(a: Option<Stamp>, b: Option<Stamp>) -> bool
    ensures { MatchBool result (option_map cache_view a ≡ option_map cache_view b) (option_map cache_view a ≡ option_map cache_view b → ⊥) }
{
    same_time(a, b)
}

fn same_stamp(a: Stamp, b: Stamp) -> bool
    ensures { MatchBool result (stamp_view a ≡ stamp_view b) (stamp_view a ≡ stamp_view b → ⊥) }
{
    if a.seconds != b.seconds {
        return false;
    }
    if a.nanos != b.nanos {
        return false;
    }
    a.ambiguous == b.ambiguous
}

pub fn same_entry(a: &Entry, b: &Entry) -> bool
    ensures { MatchBool result (view a.now ≡ view b.now) (view a.now ≡ view b.now → ⊥) }
{
    if a.w != b.w {
        return false;
    }
    if a.p1 != b.p1 {
        return false;
    }
    if a.p2 != b.p2 {
        return false;
    }
    if a.exec != b.exec {
        return false;
    }
    if a.link != b.link {
        return false;
    }
    if a.size != b.size {
        return false;
    }
    if a.modified != b.modified {
        return false;
    }
    if a.fallback != b.fallback {
        return false;
    }
    same_time(a.stamp, b.stamp)
}

/// Whether two sources are one path, or both are none.
pub fn same_source(a: Option<PathRef<'_>>, b: Option<PathRef<'_>>) -> bool
    ensures { MatchBool
        result
        (option_map (λ p. p.text.now) a.entry ≡ option_map (λ p. p.text.now) b.entry)
        (option_map (λ p. p.text.now) a.entry ≡ option_map (λ p. p.text.now) b.entry → ⊥) }
{
    match a {
        None => b.is_none(),
        Some(a) => match b {
            None => false,
            Some(b) => a.text == b.text,
        },
    }
}

/// Whether the node at a path has this copy source, or neither is there.
pub fn has_source(nodes: &Nodes, path: PathRef<'_>, source: Option<PathRef<'_>>) -> bool
    ensures { MatchBool
        result
        (source_in (node_at nodes.now path.entry.text.now) ≡ option_map (λ p. p.text.now) source.entry)
        (source_in (node_at nodes.now path.entry.text.now) ≡ option_map (λ p. p.text.now) source.entry → ⊥) }
{
    match nodes.get(path) {
        None => source.is_none(),
        Some(node) => same_source(node.source(), source),
    }
}

/// A copy of a path as a source, with the place of its text.
pub fn boxed(alloc: Global, path: PathRef<'_>, at: Option<u32>) -> Result<Box<Source>, OutOfMemory>
    ensures path { IfOk result (λ copy. copy.value.path ≡ path.entry.text.now) }
    ensures at { IfOk result (λ copy. copy.value.at ≡ at) }
{
    let path = Path::of(alloc, path)?;
    Ok(Box::new(alloc, Source { path, at })?)
}

/// A copy of a path as a source, where there is one, of which the text isn't lent.
pub fn copy_of(alloc: Global, path: Option<PathRef<'_>>) -> Result<Option<Box<Source>>, OutOfMemory>
    ensures path { IfOk result (λ copy. option_map (λ s. s.value.path) copy ≡ option_map (λ p. p.text.now) path.entry) }
    ensures unlent { IfOk result (λ copy. option_and_then (λ s. s.value.at) copy ≡ None) }
{
    match path {
        None => Ok(None),
        Some(path) => Ok(Some(boxed(alloc, path, None)?)),
    }
}

pub fn same_hash(a: [u8; 20], b: [u8; 20]) -> bool
    ensures { MatchBool result (a ≡ b) (a ≡ b → ⊥) }
{
    a == b
}

/// Whether two pairs of identifiers are the same.
pub fn same_ids(a: Id20, b: Id20, c: Id20, d: Id20) -> bool
    ensures { MatchBool result ((a.0 ≡ b.0) × (c.0 ≡ d.0)) ((a.0 ≡ b.0) × (c.0 ≡ d.0) → ⊥) }
{
    if !same_hash(a.0, b.0) {
        return false;
    }
    same_hash(c.0, d.0)
}
