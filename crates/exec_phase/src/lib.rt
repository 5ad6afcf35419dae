//! The requests of a batch on the rows that it begins with.
//!
//! A request runs on a snapshot, which it does not change: what it writes goes into an overlay of its
//! own. Its outcome is what the rules of a batch go by: the keys that it reads, the rows that it
//! writes, and its end.
//!
//! ```text
//! request -> interpreter -> Overlay -> Snapshot
//!               |              |
//!              end        reads, writes    ->    Outcome
//! ```
//!
//! All requests of a batch run on one snapshot, by several workers: outcome i is that of request i,
//! whatever the schedule.
#![tactic(auto)]

mod batches;
mod executions;

pub use batches::execute_all;
pub use executions::{execute, execute_within};
