//! The command `check`: a script, the line `report`, and behind it what `once` printed for the script. It prints
//! whether that is a report on the script, and which line is the first that cannot stand.
//!
//! ```text
//! Source ──> read_through (script_course) ──line──> ScriptPlace (script_places) ──> Deed ──> Work
//!                                                                                       │
//!                                  Sink <── text <── Finding <── check (serial_check) <─┘
//! ```
//!
//! In `specs/`: `Checks` says what each line adds and what the end prints, `Outs` the output of a whole input.
#![tactic(auto)]

mod commands;
mod ends;
mod laws;
mod readings;
mod texts;
mod works;

pub use commands::{LONGEST_CHECKED, check_report};
pub use laws::crowded_is_ended;
