//! A database that is read from a script of rows alone: a catalogue and rows, and no batch. `init` makes a store
//! of one, and `audit` looks whether one agrees.
//!
//! [`read_rows`] reads one to its end. A [`Draft`] is the database between two lines: a line puts a row, belongs to
//! the catalogue, or is refused. Nothing is printed but the line of a refusal, by [`refuse_line`], which other
//! readers of scripts use as well. What is done at the end of the input is the command's own affair.
//!
//! ```text
//! Source ──> read_through (script_course) ──line──> ScriptPlace (script_places) ──> Deed ──> Draft
//!                                                                 └──> refusal ──> refuse_line ──> Sink
//! ```
//!
//! In `specs/`: `Drafts` says what each line does, what is true between two lines, and what a text comes to;
//! `Moves` how a line moves a state that prints nothing.
#![tactic(auto)]

mod drafts;
mod readings;
mod refusals;

pub use drafts::Draft;
pub use readings::read_rows;
pub use refusals::refuse_line;
