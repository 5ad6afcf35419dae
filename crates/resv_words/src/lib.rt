//! The reservation words of a batch, which many threads mark at once.
//!
//! Each mark is one atomic step that lowers one word to the number of its TID, so no mark waits for
//! another, and in every schedule the words end as the least TIDs of all marks that were made.
//! Whoever holds a `Closed` holds such words: only `close` makes one, and only where every seat's
//! marks are accounted for.
//!
//! ```text
//!     over -> Words + WordSeat --split--> more seats, one a thread
//!                mark_read, mark_write through & and a seat of one's own
//!     close <- Words + WordSeat <--join-- all of them
//!     Closed: two words a key, the least TID that writes it, the least that reads it
//! ```
#![tactic(auto)]

mod rules;
mod words;

pub use words::{Closed, WordSeat, Words};
