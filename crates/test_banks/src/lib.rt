//! Banks for tests: calls on accounts, named and drawn, and the rules of a batch in their plainest form.
//!
//! [`run_plainly`] runs a batch by lists alone, on one worker, with neither numbers of keys nor words. What
//! the engine and the program answer is held against it. Only tests use this crate, and no contract speaks
//! of an answer of it. So it has no must-fail edits: there is no clause that could refuse one.
//!
//! ```text
//! Draws ──> Ask ──calls──> Call ──> run_plainly ──> Answer, rows, what waits
//! ```
#![tactic(auto)]

mod asks;
mod plain;

pub use asks::{
    ADD, Account, Ask, COPY, DROP, HOP, SET, SUM, calls, drawn, drawn_ask, drawn_rule, row_of,
};
pub use plain::{Plain, run_plainly};
