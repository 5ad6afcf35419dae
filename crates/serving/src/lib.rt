//! A database that is served: its replicas with their settings, and the next batch with the text that it
//! prints.
//!
//! A [`Live`] may have a store: [`serve_batch`] then adds each batch to the log before it gives a byte
//! of its answer, and lays a checkpoint behind it where one is due. Before the first batch
//! [`renew_where_stale`] makes a store that was opened one that takes batches.
//!
//! ```text
//!                             ┌──> Store (aria_store): append, behind the answer rotate where due
//! calls ──> serve_batch ──────┤
//!                             └──> Live::next ──> Replicas (replica_run) ──> answer ──> text ──> Sink
//! ```
//!
//! In `specs/`: `Lives` says what a batch prints and leaves, `Deliveries` what a sink was given of it,
//! `Stored` what a disk holds of the database, and `Drains` what the requests that wait come to.
#![tactic(auto)]

mod batches;
mod lives;
mod logs;
mod rotations;

pub use batches::{Delivery, serve_batch};
pub use input_log::MOST_LOG;
pub use lives::Live;
pub use rotations::renew_where_stale;
