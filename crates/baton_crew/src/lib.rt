//! Items of a list run once each by several workers, which hand on what the items share.
//!
//! Each item touches some slots, and each slot has a queue of the items that touch it, in their order. An item has a
//! count of its slots on which an earlier item has its turn. Where the count is 0, the item is ready: a worker takes its
//! slots, runs it on the rows that are there, puts the new rows in, and hands each slot on to the next item of its
//! queue, whose count falls by one. Who brings a count to 0 has that item to run. So no worker waits for a row, and
//! what comes of it is what one item after the other would give, whatever the schedule.
//!
//! ```text
//! Course --queues, counts--> board: words and slots     relay
//!                              |        ^                 |
//!                       take, exchange  pass, end      spread: workers that share what is ready
//!                              v        |                 |
//!                             run_item -'              taken_down: the last row of each slot
//! ```
//!
//! The counts and slots are those of `atomic_table`. `rules` has the rule that they keep: a slot at home holds what the
//! item before it in the queue left, and each item that was taken or is ready stands in one worker's view. An item that
//! was never taken would be the first of its queues, so it would be ready in the view of a worker; but these end with
//! nothing ready. A run of an item is the work's own ([`Course`]), and this crate knows no database.
#![tactic(auto)]

mod courses;
mod crews;
mod hands;
mod items;
mod lists;
mod plans;
mod relays;
mod rules;
mod spans;
mod steps;

pub use courses::Course;
pub use lists::Lists;
pub use relays::relay;
pub use rules::View;
