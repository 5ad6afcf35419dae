//! The rest of order entry: three requests that scan, beside new orders and payments.
//!
//! Order-Status tells a customer's last order, Delivery delivers the oldest open order of each district of a
//! warehouse, and Stock-Level counts the items of a district's last orders that are nearly out of stock. Each
//! is a routine: a pure function from the answers that it has seen to what it asks for next.
//!
//! ```text
//!     Routines     each of the three as a walk: what it reads, writes and scans, and what follows on the answers
//!     Answers      what tables of the catalogue may answer; by any other answer a routine traps
//!     Turns        what a part of a routine comes to
//!     Mixes        batches of all five requests, as functions of the settings and of the words of a generator
//!     Sound        which rows are sound, and the first failure of those that are not
//! ```
//!
//! The definitions stand in specs/.
#![tactic(auto)]

mod answers;
mod calls;
mod columns;
mod deliveries;
mod ends;
mod findings;
pub mod laws;
mod levels;
mod mixes;
mod routines;
mod rows;
mod statuses;
mod turns;

pub use calls::{DELIVERY, Delivery, ORDER_STATUS, STOCK_LEVEL};
pub use findings::{Soundness, first_failure};
pub use mixes::more_batch;
pub use routines::More;
