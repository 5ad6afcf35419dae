//! Nodes by themselves: each with what it has of all batches.
//!
//! ```text
//!     Seats       a node that is given messages, and completes batch after batch
//!     AllSeats    all nodes as they begin, and as a batch starts
//!     RowsAt      the rows of a database at one node
//!     Numbers     which messages a node keeps, for clauses alone
//! ```
#![tactic(auto)]

mod all_seats;
mod numbers;
mod rows_at;
mod seats;

pub use all_seats::{first_seats, lengthen_all};
pub use numbers::Numbers;
pub use rows_at::put_rows_at;
pub use seats::Seat;
