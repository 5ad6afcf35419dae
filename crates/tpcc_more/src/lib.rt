//! Order entry with all five of its requests: a database between two batches, and the next batch.
//!
//! New orders and payments are procedures of the catalogue `tpcc`; the three requests that scan are the routines of
//! [`More`]. A [`Mix`] holds rows of that catalogue, and takes works of both kinds.
//!
//! ```text
//! settings ──head──> Mix <──take── tables
//!                     │
//!            more_batch, run_batch ──> Answer, and the next Mix
//! ```
//!
//! In `specs/`: `Mixes` says what is true of every [`Mix`], and what its next batch is.
#![tactic(auto)]

mod mixes;
mod taken;

pub use mixes::Mix;
pub use taken::Taken;
pub use tpcc_routines::{
    DELIVERY, More, ORDER_STATUS, STOCK_LEVEL, Soundness, first_failure, more_batch,
};
