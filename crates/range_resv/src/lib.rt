//! Batches of works that scan, from their calls to their answer.
//!
//! A [`ScanEngine`] is a database between two batches, whose works are calls of the catalogue's procedures and of routines. A routine may
//! ask for all rows under a prefix of a key, and nobody writes into a range that it saw: every answer is serialised by the order that it
//! prints. [`ScanEngine::run_batch`] runs the next batch by any number of workers, and answers what the rules of a batch say, whatever the
//! schedule. There is no late fold: who waits is in the next batch's list.
//!
//! ```text
//! carried works, new works
//!      │ number
//!      v
//!    list ──run_all──> what each came to ──judge──> verdicts
//!                             │                        │
//!                             └── install, follow ─────┤
//!                                                      v
//!                                 Answer, carried works, rows, and their index
//! ```
//!
//! Whoever writes a routine implements [`Routine`], and promises with each batch that it suits the catalogue.
#![tactic(auto)]

mod answers;
mod commits;
mod engines;
mod lists;
mod settlements;

pub use engines::ScanEngine;
pub use range_rules::{
    Action, Front, MOST_ACTIONS, MOST_WORKS, NumberedWork, Nums, Pairs, Prefix, Routine,
    RoutineCall, Seen, Work,
};
