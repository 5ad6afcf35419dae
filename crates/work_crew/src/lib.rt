//! Work on the places of a list, by several workers.
//!
//! Each worker draws the next place from one word, so that none waits for another, and runs it. Every
//! place is run exactly once, whatever the schedule. A [`Work`] has a hand for each worker, which keeps
//! what the worker made; a [`Task`] gives an output for each place, and [`gather`] brings the outputs
//! to their places. [`workers_for`] tells how many workers a work is worth.
//!
//! ```text
//!                  +-> hand 0: draw, run, draw, run, ..  -+
//! hand --split-->  +-> hand 1: draw, run, ..             -+--join--> hand: each place was run once
//!                  +-> ..                                -+
//!                        |
//!                     Claims: 0, 1, 2, ..
//! ```
#![tactic(auto)]

mod crews;
mod outputs;
mod sizes;
mod tasks;
mod works;

pub use crews::carry_out;
pub use outputs::{Done, all_of, empty_slots, in_order};
pub use sizes::workers_for;
pub use tasks::{Task, gather};
pub use works::Work;
