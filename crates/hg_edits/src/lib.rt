//! Tests of edits that no command makes: what they leave of a table, and what it is encoded as.
//!
//! This crate has tests alone. Worked cases, and 2,000 lists of edits at random, are done to a table in memory and to a plain one beside it;
//! each is encoded and opened again. And records are changed and saved again and again, by the better way each time.
#![tactic(auto)]

#[cfg(test)]
mod appends;
#[cfg(test)]
mod edits;
#[cfg(test)]
mod encodings;
