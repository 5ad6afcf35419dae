//! A database as the requests of one batch see it.
//!
//! A [`Snapshot`] lends the tables for reading: while it lives they stay as they are. Over it a run
//! has an [`Overlay`] of its own: a window on the snapshot that buffers the run's writes, answers from
//! them first, and keeps what the run read and wrote. [`put_changes`] makes what it wrote stand in the tables.
//!
//! ```text
//! run -> Overlay { reads, writes }     one a run
//!              |
//!           Snapshot                   a shared reference
//!              |
//!            Tables
//! ```
#![tactic(auto)]

mod bits;
mod changes;
mod overlays;
mod places;
mod reads;
mod searches;
mod snapshots;
mod writes;

pub use changes::{put_change, put_changes};
pub use overlays::Overlay;
pub use snapshots::Snapshot;
