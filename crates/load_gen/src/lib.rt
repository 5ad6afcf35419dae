//! The workload of the cloud benchmark YCSB: the database before it, and batches of its requests.
//!
//! Both are functions of the settings and of a list of words that a number and a stream choose, so that
//! whoever has these has the same workload. [`random`] and [`percent`] are how each workload draws.
//!
//! ```text
//! settings ─> head ─> catalogue, rows
//! settings, words ─> batch ─> calls, and the words behind them
//! ```
#![tactic(auto)]

mod chances;
mod heads;
mod requests;
mod settings;

pub use chances::{percent, random};
pub use heads::head;
pub use requests::batch;
pub use settings::Ycsb;
