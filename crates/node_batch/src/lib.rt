//! A node at its current batch: what it keeps of the messages that are given to it, and what it sends.
//!
//! ```text
//!     Letters     messages in code, and what is fixed for all nodes
//!     OwnRuns     a request with the rows that it was told
//!     Firsts      the least earlier holders, in one pass over the parts of a batch
//!     Holds       the least holders that nodes told of a request
//!     Endings     the rows and the waiting requests that a batch leaves
//!     Entries     what becomes of a node's own requests
//!     NodeBatches     all of it, and the desk of the definitions that it shows
//! ```
#![tactic(auto)]

mod blanks;
mod endings;
mod entries;
mod firsts;
mod holds;
pub mod laws;
mod letters;
mod mails;
mod node_batches;
mod own_runs;

pub use entries::{Entry, Outcome};
pub use letters::{Letter, Said};
pub use mails::{Site, node_of};
pub use node_batches::NodeBatch;
