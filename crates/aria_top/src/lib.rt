//! The top call of the database: from arguments and input bytes to output bytes and a status.
//!
//! [`aria`] is what the program runs. What it writes and answers is a stated function of its arguments and
//! its input, and of what the disk reads as for a command on a store; each batch that it answers is
//! serialisable by the order that it prints. It fails only where the source, the sink or the disk did, or
//! where there was no memory. A stop at any moment leaves every batch that was answered.
//!
//! ```text
//! arguments ─> tasks (command_words) ─> top_call (aria) ┬> commands ─┬> run_commands (once)
//!                                                       │            ├> gen_command (gen)
//!                                                       │            ├> audit_command (audit)
//!                                                       │            ├> check_command (check)
//!                                                       │            ├> mix_command (mix)
//!                                                       │            ├> nodes_command (nodes)
//!                                                       │            └> summaries ──> bench_command (bench)
//!                                                       └> stores ───┬> store_commands (init, replay)
//!                                                                    └> run_commands (run)
//! ```
//!
//! In `specs/`: `Tasks` says what arguments ask for, `Out` what they print on an input, `Disks` what a
//! command sees of the disk and leaves of it, `Statuses` what a status says.
#![tactic(auto)]

mod commands;
mod endings;
mod laws;
mod stores;
mod summaries;
mod tasks;
mod top_call;

pub use script_course::{
    DISK_FAULT, DONE, FAILS, NO_MEMORY, READ_FAULT, REFUSED, STORE_REFUSED, USAGE, WRITE_FAULT,
};
pub use top_call::aria;
