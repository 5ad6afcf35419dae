//! The course of a command that reads its input: line by line, each answered as soon as it is whole.
//!
//! A command is a state with one step for a line, [`Reads`]. A line can only go on or be refused. What the
//! lines of a text print is a fold over them, told for a text as far as it goes, and for a whole text with
//! the line at its end that no line feed completes. [`read_through`] does this with any source, any sink and
//! any such state.
//!
//! ```text
//! Source ──> pieces ──> Lines (script_text) ──> Reads::line ──> Sink
//!                            │
//!                       a refused line ──> print_refusal (answer_text) ──> Sink
//! ```
//!
//! In `specs/`: `Courses` says what is printed, `Served` when a sink was given what a course prints, `Causes`
//! who was at fault. Commands that have a loop of their own, as those of `run_commands`, speak in these words
//! too. So a fault of a disk has its place in them, which no [`Reads`] has.
#![tactic(auto)]

mod courses;
mod gives;
mod laws;
mod readings;
mod statuses;
mod stops;

pub use courses::Reads;
pub use gives::{end_with, give, refuse};
pub use laws::ends_of;
pub use readings::{MOST_BYTES, PIECE, read_through};
pub use statuses::{
    DISK_FAULT, DONE, FAILS, NO_MEMORY, READ_FAULT, REFUSED, STORE_REFUSED, USAGE, WRITE_FAULT,
};
pub use stops::Stop;
