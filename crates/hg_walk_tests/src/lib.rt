//! A test of the walk over a record beside the plain status, which reads everything.
//!
//! This crate has tests alone. In working copies that are made and changed at random, both list the same behind each step, over one record, whose times are
//! those that walks before it noted: so none of these hides a change.
#![tactic(auto)]

#[cfg(test)]
mod changes;
#[cfg(test)]
mod draws;
#[cfg(test)]
mod edits;
#[cfg(test)]
mod parents;
#[cfg(test)]
mod places;
#[cfg(test)]
mod statuses;
#[cfg(test)]
mod things;
