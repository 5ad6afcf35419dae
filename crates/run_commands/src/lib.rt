//! Commands that run the batches of a script: `once` in memory, `run` over a store.
//!
//! A script is run while it is read: each line asks for something at its place, and the answer of a batch is
//! given as soon as its end is read. At the end of the input what waits may be drained, and the rows are
//! listed.
//!
//! ```text
//! Disk ──> open (store_openings) ──> Live ──> Script
//! Source ──> loops ──line──> ScriptPlace (script_places) ──> Deed ──> Script ──> serve_batch (serving) ──> Sink, Disk
//! ```
//!
//! In `specs/`: `Onces` says what each line prints and which state follows, and what the end prints; `Outs` the
//! output of `once`, and `Resumes` that of `run` and what it leaves of the disk. `Passes` says which states a
//! store holds in turn while a script runs, `Keeps` what its disk holds then, and `Turns` what lines do to it.
#![tactic(auto)]

mod bases;
mod drains;
mod ends;
mod laws;
mod loops;
mod once_command;
mod refusals;
mod resumes;
mod scripts;
mod texts;
mod works;

pub use laws::{each_is_serial, each_replay_is_serial, each_run_is_serial, one_output};
pub use once_command::{is_each, once};
pub use refusals::refuse_store;
pub use resumes::run;
