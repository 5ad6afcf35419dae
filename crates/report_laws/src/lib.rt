//! Laws of reports: what the batches of a script print holds as a report of it.
//! They speak of what is printed, of batches and of the check at once, which know nothing of one another.
#![tactic(auto)]

mod laws;

pub use laws::{answer_stands, open_report, own_report, printed_lines};
