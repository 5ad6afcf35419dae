//! A finished report, checked by whoever has the script that it answers.
//!
//! A report is what `once` prints for a script: for each batch its answer or that it is kept, listings, and
//! answers to what was carried. The check asks no engine. It runs the requests that an order line names, one
//! after the other from the batch's start, and looks whether each ends as its line says, whether the others of
//! the list have lines that say that they wait, and whether a listing is the rows that were left. Which requests
//! an engine puts into an order, and in which order, is its own affair.
//!
//! ```text
//! checks      batch by batch, then what was carried, then the end
//!    |
//! answers     the lines of an answer, the rows and the requests that it leaves
//!    |    \
//! orders   serial_runs     whom an order line names; how they end one after the other
//!    |
//! listings, reports        lines that have to stand at a place
//!    |
//!  lines                   how such a line is written
//! ```
//!
//! In `specs/`: `Reports` says what has to stand where and which line is the first that cannot, `Orders` what an
//! order line names, `Runs` how its requests end, `Lines` the lines, `Serial` what a report tells that holds, and `Crowds` which
//! batches are run.
#![tactic(auto)]

mod answers;
mod checks;
mod findings;
mod halts;
mod laws;
mod lines;
mod listings;
mod orders;
mod reports;
mod serial_runs;
mod standings;

pub use checks::check;
pub use findings::Finding;
pub use laws::{crowded_is_run, held};
