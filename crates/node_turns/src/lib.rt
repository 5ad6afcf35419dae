//! A node's turn within an event, step by step: what code keeps true on the way from one event to the next.
//!
//! ```text
//!     Goings      a node whose turn leads to the event's end, and nodes that have not had their turns yet
//! ```
#![tactic(auto)]

pub mod laws;
