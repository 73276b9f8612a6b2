//! Tests of the adapters over real files, which no clause says more of than when they fail.
//!
//! This crate has tests alone: the crate of the adapters is proved once where its tests stand here. Each test makes a folder of its own in the
//! current one, and takes it away again.
#![tactic(auto)]

#[cfg(test)]
mod acting;
#[cfg(test)]
mod clocks;
#[cfg(test)]
mod devices;
#[cfg(test)]
mod open;
#[cfg(test)]
mod puts;
#[cfg(test)]
mod steps;
