//! Tests of batches of works that scan, which the gate runs. There is no code here, only tests.
//!
//! `steps` has their routine: its numbers say what it does, step by step. `engines` makes a database of pairs, and runs batches of calls of
//! that routine and of procedures. `examples` has batches worked out by hand, `bounds` runs and lists as long as they may be, and `drawn`
//! batches held against `plain`, the rules in their plainest form.
#![tactic(auto)]

#[cfg(test)]
mod bounds;
#[cfg(test)]
mod drawn;
#[cfg(test)]
mod engines;
#[cfg(test)]
mod examples;
#[cfg(test)]
mod plain;
#[cfg(test)]
mod steps;
