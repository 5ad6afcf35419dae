//! The command `audit`: whether a database of order entry, given as a script's head, agrees.
//!
//! It reads the catalogue `tpcc` and rows, and no batch. At the end of the input it prints that the audit
//! holds, or the first place where it does not.
//!
//! ```text
//! Source ──> read_rows (script_rows) ──rows──> tpcc_audit ──> Sink
//! ```
//!
//! In `specs/`: `Findings` says how a finding is printed, `Audits` what the end prints, and with that the output
//! of a whole input.
#![tactic(auto)]

mod audits;
mod commands;
mod findings;

pub use commands::audit;
pub use findings::{print_finding, status_of};
