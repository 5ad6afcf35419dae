//! The answer of a batch that all nodes completed: that of one database.
//!
//! ```text
//!     Merges      what became of a batch's requests at all nodes, in the order of its list
//!     Answers     its answer
//!     Runs        nodes and a run of batches: the same states and answers
//! ```
#![tactic(auto)]

mod answers;
pub mod laws;
mod merges;

pub use answers::answer_of;
pub use merges::merged;
