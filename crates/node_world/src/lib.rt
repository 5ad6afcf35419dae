//! Nodes with all messages that were ever sent, event by event.
//!
//! ```text
//!     Worlds      the delivery of a message, and a node that goes on from batch to batch
//!     Starts      nodes before the first event, and a batch that starts
//!     Views       what is asked of all nodes
//! ```
#![tactic(auto)]

mod starts;
mod views;
mod worlds;

pub use worlds::{MOST_NODES, World};
