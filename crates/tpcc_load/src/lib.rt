//! The workload of order entry, after TPC-C: the database before it, and batches of its requests.
//!
//! Both are functions of the settings and of lists of words that the settings' number chooses, so that
//! whoever has the settings has the same workload. The head is drawn from stream 1 of the number, and
//! the requests from stream 2.
//!
//! ```text
//! settings ─> head ─> catalogue, rows
//! settings, words ─> batch ─> calls, and the words behind them
//! ```
#![tactic(auto)]

mod chances;
mod customers;
mod districts;
mod heads;
mod names;
mod orders;
mod payments;
mod requests;
mod rows;
mod settings;
mod shuffles;
mod stocks;
pub mod tables;

pub use districts::DISTRICTS_EACH;
pub use heads::head;
pub use payments::{payer, payment};
pub use requests::{batch, new_order};
pub use settings::Tpcc;
