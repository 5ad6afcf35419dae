//! The four files of a store: two slots for checkpoints, and a log for each.
//!
//! The open slot of the greater generation is taken, with its log. A record is added behind a closed
//! gate, and a checkpoint is written into the slot that is not taken and shown once its log is empty: so
//! a stop at any moment leaves what was there before the call or what is there after it. What a body
//! and a payload say is left to the crate above.
//!
//! ```text
//!     file 0   slot of even generations      file 2   its log
//!     file 1   slot of odd generations       file 3   its log
//!
//!     attachments   which slot is taken      creations   syncs, and the first checkpoint
//!     rotations     the next checkpoint      files       what an open store knows of its files
//! ```
#![tactic(auto)]

mod attachments;
mod creations;
mod files;
mod refusals;
mod rotations;

pub use attachments::{is_taken, take_slot};
pub use files::Files;
pub use refusals::StoreRefused;
