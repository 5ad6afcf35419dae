//! A batch of requests from its calls to its answer.
//!
//! An [`Engine`] is a database between two batches: its rows, the requests that wait, and how many
//! batches were run and requests numbered. [`Engine::run_batch`] runs the next batch by any number of
//! workers, and answers what the rules of a batch say, whatever the schedule.
//!
//! ```text
//! carried requests, new calls
//!      │ number
//!      v
//!    list ──execute_all──> keys read and written, rows, ends
//!                │ number_touches, reserve
//!                v
//!           Marked ──decide──> verdicts ──install──> rows
//!                                 │ who waits          │
//!                                 └───run_late─────────┤
//!                                                      v
//!                                       Answer, carried requests, rows
//! ```
#![tactic(auto)]

mod answers;
mod engines;
mod judgements;
mod lates;
mod lists;
mod markings;
mod marks;
mod settlements;
mod verdicts;

pub use engines::Engine;
pub use marks::Marked;
