//! The commit phase of a batch as a machine over events.
//!
//! [`Core::begin`] stands before the first event of a batch, [`run`] takes events one after the other, and
//! each of them must be due when it comes: a request's run, a mark in one reservation word, a decision, the
//! installation of one row, or the turn from one phase to the next. In which order the events of a phase
//! come is free. Whatever that order was, once the machine has settled its verdicts and rows are those of
//! the batch: the proof speaks of the set of events that have come, and not of their order.
//!
//! ```text
//! Execute ..  Turn  MarkRead, MarkWrite ..  Turn  Decide ..  Turn  Install ..  Turn   settled
//!    |                      |                        |                |
//! outcomes  ────keys────>  words  ──least TIDs──>  verdicts       ──> tables
//! ```
//!
//! In `specs/`: `Events` says which events are due, `Machines` what each does, and `Cores` that the machine
//! in code has what that definition holds. The contracts of `laws` say that every batch has a legal list of
//! events that settles, and that all such lists give the same verdicts and rows.
#![tactic(auto)]

mod cores;
mod decisions;
mod event_runs;
pub mod events;
mod found;
mod kinds;
pub mod laws;
mod phases;
mod refusals;
mod steps;
mod words;

pub use cores::Core;
pub use event_runs::run;
pub use events::Event;
pub use refusals::CoreRefused;
