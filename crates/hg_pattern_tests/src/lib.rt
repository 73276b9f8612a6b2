//! Tests of globs, of ignore texts and of files that name others by their public calls, as far as no answer of the program shows it: texts that are no paths, where in a text its fault
//! is, hashes, and what matches by itself.
//!
//! This crate has tests alone: each of those crates is proved once where its tests stand here. What is tested is what no clause says: that memory is found,
//! and that globs mean what the help page says, the answers by hand.
#![tactic(auto)]

#[cfg(test)]
mod globs;
#[cfg(test)]
mod ignores;
#[cfg(test)]
mod includes;
