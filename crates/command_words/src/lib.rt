//! The arguments of a command line, as the settings of the command that they ask for.
//!
//! A *line* is a command's name, then its options in any order, each at most once, as `--name value`,
//! `--name=value` or a flag alone. [`read_settings`] gives the settings of a line whose values are in range,
//! the usual ones where it gives none, and nothing for all other arguments; it fails only where there is no
//! memory. The arguments are read by `clap`, which takes more than lines: so the form is tested first.
//!
//! ```text
//! arguments ──> lines (the form) ──> findings (clap's matches) ──> readers ──> settings (Command)
//!                 │                      │                           │
//!           rows, tables ─────────> shapes (clap's command)     options, values
//! ```
//!
//! In `specs/`: `Lines` says what a line is, `Tables` which commands there are, `Options` the range of
//! each option and what is usual, `Values` what a text stands for, `Settings` the settings of a line,
//! `Shapes` and `Builds` what `clap` is given, and `Rows` what its matches say of a line.
#![tactic(auto)]

mod findings;
mod lines;
mod options;
mod readers;
mod rows;
mod settings;
mod shapes;
mod tables;
mod values;

pub use lines::{GivenRow, LineRow, line};
pub use readers::read_settings;
pub use rows::{CommandRow, OptionRow};
pub use settings::{
    Accesses, Amount, Bench, Command, Init, Listing, Load, Mix, Nodes, Once, Replay, Run, Stock,
    Workload,
};
pub use tables::commands;
