//! The command `gen`: a workload as a script, which `once` and `check` read.
//!
//! The script is a function of the settings alone. It is given to the sink as it is made, rows by
//! [`ROWS_AT_ONCE`] and then batch by batch, so that no more of it than one such piece is ever in memory.
//!
//! ```text
//! settings ─> Generator (workloads) ─┬─> head ──> the catalogue's line, rows ─┐
//!                                    └─> batch, batch by batch ──> calls, end ─┴─> Sink
//! ```
//!
//! In `specs/`: `Scripts` says what the script is, and `Pieces` what a sink was given of it.
#![tactic(auto)]

mod commands;
mod cuts;
mod scripts;

pub use commands::generate;
pub use scripts::ROWS_AT_ONCE;
