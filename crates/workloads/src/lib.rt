//! The workloads that a command line can ask for, as one type: the database before the first request,
//! and batches of requests.
//!
//! A [`Generator`] is made of the settings of a line. All that it gives is a function of these settings
//! and of the words of its number, so that whoever has the settings has the same workload.
//!
//! ```text
//! settings (command_words) ─> Generator ─┬─> head ─> catalogue, rows
//!                                        └─> draws ─> batch ─> calls, and the words behind them
//! ```
//!
//! In `specs/`: `Generators` says what each part of a workload is.
#![tactic(auto)]

mod generators;
mod laws;

pub use generators::{Generator, orders_of};
pub use laws::words_are_within;
