//! Tests of the lower crates by their public calls: paths, a working copy and files below `.hg` in memory, streams, readers and writers of a dirstate in
//! several processes, dirstates of the first version, and what is stored in the plain store.
//!
//! This crate has tests alone: each of those crates is proved once where its tests stand here. What is tested is what no clause says: that memory is
//! found, and that the clauses say what was meant, on cases that were worked by hand.
#![tactic(auto)]

#[cfg(test)]
mod crashes;
#[cfg(test)]
mod dirstates;
#[cfg(test)]
mod paths;
#[cfg(test)]
mod puts;
#[cfg(test)]
mod races;
#[cfg(test)]
mod servers;
#[cfg(test)]
mod shelves;
#[cfg(test)]
mod stores;
#[cfg(test)]
mod streams;
#[cfg(test)]
mod trees;
