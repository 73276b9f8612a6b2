//! Tests of the records of a dirstate and of what is printed, by public calls, as far as no answer of the program shows it: edits of a table, and the greatest
//! numbers.
//!
//! This crate has tests alone: each of those crates is proved once where its tests stand here. What is tested is what no clause says: that memory is
//! found, and that the clauses say what was meant, on cases that were worked by hand.
#![tactic(auto)]

#[cfg(test)]
mod numbers;
#[cfg(test)]
mod tables;
