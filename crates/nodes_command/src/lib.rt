//! The command `nodes`: a script in memory, whose database is split between nodes that run its batches by messages alone.
//!
//! It prints what `once` prints where the late fold never runs, whatever the number of nodes, with two refusals more: a line of
//! settings never stands, and neither does the call behind the 10,000th of the whole script.
//!
//! ```text
//! Source ──> read_through (script_course) ──line──> ScriptPlace (script_places) ──> Deed ──> NodesScript
//!                                                                                               │
//!         Sink <── text <── answer, tables <── settle <── step <── Nodes (part_nodes) <── batch ┘
//! ```
//!
//! In `specs/`: `Asks` says what a line asks for, `Scripts` what it prints and which state follows, and what the end prints,
//! `Outs` the output of a whole script, and `Laws` that it is that of one database.
#![tactic(auto)]

mod asks;
mod bases;
mod batches;
mod commands;
mod drains;
mod ends;
mod laws;
mod scripts;
mod works;

pub use commands::nodes;
pub use laws::{any_number, prints_as_one};
