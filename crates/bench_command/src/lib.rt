//! The command `bench`: a workload run in memory, and what its batches came to, in numbers.
//!
//! The batches are those of the command `gen`, but that a batch has no more new requests than there is
//! room for beside those that wait. What is printed is a function of the settings: workers, replicas and
//! batons have no say in it.
//!
//! ```text
//! settings ─> Generator (workloads) ─┬─> head ──> Live (serving)
//!                                    └─> batch, batch by batch ──> Live ──> answer ──> Tally ─> summary
//! ```
//!
//! In `specs/`: `Tallies` says what is counted of answers and rows, `Benches` which answers and which state
//! the settings come to, and `Summaries` what is printed of them. `Laws` says that each request is counted once.
#![tactic(auto)]

mod commands;
mod courses;
mod laws;
mod starts;
mod summaries;
mod sums;
mod tallies;
mod turns;

pub use commands::measure;
pub use laws::each_request_once;
pub use summaries::{Counts, append_counts};
pub use tallies::{BLANK, Tally};
