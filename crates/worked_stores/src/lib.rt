//! Disks in memory that stop or fail, and what lies on them, which the gate runs. There is no code here, only tests.
//! Stores that are damaged or in order, and their bytes, are cases of `worked_cases`.
//!
//! Stores: `stops` and `creations` attach after a stop at each call of the disk; in `faults` each of these calls fails
//! in turn. `words` asserts, and makes the disks of the tests; `bases` creates, adds and rotates.
//!
//! What they stand on: `disks` has the tests of `disk_model`, `logs` of `input_log` and `checkpoints` of `checkpoint`.
//! Of texts and slots of checkpoints `bodies` has texts that no head allows, `long_bodies` builds texts of many rows
//! and of a long catalogue by their form, and `rounds` lays, shows and loads. `slots` makes the disks of these.
#![tactic(auto)]

#[cfg(test)]
mod bases;
#[cfg(test)]
mod bodies;
#[cfg(test)]
mod checkpoints;
#[cfg(test)]
mod creations;
#[cfg(test)]
mod disks;
#[cfg(test)]
mod faults;
#[cfg(test)]
mod logs;
#[cfg(test)]
mod long_bodies;
#[cfg(test)]
mod rounds;
#[cfg(test)]
mod slots;
#[cfg(test)]
mod stops;
#[cfg(test)]
mod words;
