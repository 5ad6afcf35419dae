//! The command `mix`: all five requests of order entry, run in memory, and what their batches came to, in numbers.
//!
//! Each batch has new requests of all five kinds, as many as are asked for, or as many as there is room for beside
//! those that wait; nothing is drained in the end. What is printed is a function of the settings: workers have no say
//! in it. The last line says that the audit holds, and nothing is looked at for it: every [`Mix`] has sound rows.
//!
//! ```text
//! settings ──> head ──> Mix (tpcc_more) ──┬──> more_batch ──> run_batch ──> answer ──> Tally ──> summary
//!                                         └────────── batch by batch ────────┘
//! ```
//!
//! In `specs/`: `Courses` says what the settings come to, batch by batch, and `Summaries` what is printed of it.
//!
//! [`Mix`]: tpcc_more::Mix
#![tactic(auto)]

mod commands;
mod summaries;
mod turns;

pub use commands::measure;
