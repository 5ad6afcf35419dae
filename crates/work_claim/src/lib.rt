//! Numbers from 0 on that many threads draw, each of them once.
//!
//! A draw is one atomic step, so no thread waits for another, and in every schedule each number
//! below the count of draws was drawn by exactly one seat. A draw at or above the bound answers
//! None, after which the seat draws no more.
//!
//! ```text
//!     make -> Claims + ClaimSeat --split--> more seats, one a thread
//!                draw through & and a seat of one's own, until None
//!     close <- Claims + ClaimSeat <--join-- all of them: how many draws there were
//! ```
#![tactic(auto)]

mod claims;
mod rules;

pub use claims::{ClaimSeat, Claims};
