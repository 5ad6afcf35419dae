//! The marks of a whole batch on reservation words, by several workers.
//!
//! Each worker draws the next request and marks the keys that it reads and writes, so that none waits
//! for another. In every schedule the closed words are those of exactly the batch's marks.
//!
//! ```text
//!                         +-> worker 0: draw, mark, mark, draw, ..  -+
//! Words::over --split-->  +-> worker 1: draw, mark, ..              -+--join--> close: Closed
//!                         +-> ..                                    -+
//! Numbered: of each request the numbers of the keys that it reads and writes
//! ```
#![tactic(auto)]

mod markings;
mod marks;
mod reservations;

pub use reservations::reserve;
