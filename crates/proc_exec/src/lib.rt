//! The interpreter of procedures: it runs a request of a catalogue through any window on a database.
//!
//! The end of a run is that of the request's tree of accesses on the window's map, and what the window
//! notes is what that tree touches. One interpreter serves both a run without limits and a run again
//! within declared keys, which stops before its first access outside them.
//!
//! ```text
//! interpretations     a request of a catalogue
//!        |
//!   statements        a procedure's blocks and statements, over a frame (frames) in a scope (scopes)
//!      |   \
//! accesses  evaluations ─ operands         what expressions name, read where it stands
//!      |             \─── operators        what is made of it: numbers, texts
//!   limits            what the run may touch
//!   readings          how it takes a row from the window
//!      |
//!   Access            the window
//! ```
//!
//! `early_ends` says why a run goes no further, and `outcomes` what whole runs come to.
//!
//! In `specs/`: `Endings` says what a run through a window comes to, `Outcomes` what one on a snapshot
//! does, and `Lates` what the late fold of a batch is over the types here.
#![tactic(auto)]

mod accesses;
mod arithmetic;
mod early_ends;
mod evaluations;
mod frames;
mod interpretations;
mod limits;
mod operands;
mod operators;
mod outcomes;
mod readings;
mod scopes;
mod statements;
mod texts;

pub use interpretations::{interpret, interpret_lent, interpret_lent_within, interpret_within};
pub use outcomes::{Declared, Late, Outcome, Ran, Waiting, Within};
