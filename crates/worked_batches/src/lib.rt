//! Worked batches, which the gate runs. There is no code here, only tests.
//!
//! `examples` has a table of batches on the catalogue `bank`, each with what it prints, worked out by hand,
//! and runs them on several numbers of workers and of replicas. `crowds` fills a batch to the last place,
//! and `meetings` shows that workers are at work at once, and how often they are told of a step. `drawn`
//! runs drawn batches beside the rules in their plainest form (`test_banks`), and beside a copy of the engine
//! that has one worker. `banks` makes a database of accounts, and runs batches of calls.
//!
//! The commit phase as a machine over events: `machines` makes one of calls and rows, and `events` runs lists of
//! events on it, each worked out by hand.
#![tactic(auto)]

#[cfg(test)]
mod banks;
#[cfg(test)]
mod crowds;
#[cfg(test)]
mod drawn;
#[cfg(test)]
mod events;
#[cfg(test)]
mod examples;
#[cfg(test)]
mod machines;
#[cfg(test)]
mod meetings;
