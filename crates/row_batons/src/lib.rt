//! What waits, run again by rows that are handed from request to request.
//!
//! A request that runs again may touch no more than the keys that it declared, those of its first run. Each key that
//! one of the requests may write has a slot with its row, and a queue of the requests that declare it, in the order
//! of the list. A request runs as soon as all that come before it in its queues have handed their rows on; it changes
//! the rows in its slots and hands them on itself. So nothing waits, and what comes of it is what one request after
//! the other would give. A key that is only read has no slot: its row is that of the tables.
//!
//! ```text
//! waiting --numbers--> slots --touches--> relay --install--> tables
//!                      keys   of each       |
//!                                    run_on: a window on the handed rows
//! ```
//!
//! The keys go by numbers: by those that the batch has given them ([`rerun_batons_numbered`]), or by some that are
//! given here ([`rerun_batons`]). The time that is taken beside the runs grows with the count of the declared keys.
#![tactic(auto)]

mod installs;
mod keyed;
mod layouts;
mod numbers;
mod reruns;
mod slots;
mod windows;

pub use reruns::{rerun_batons, rerun_batons_numbered};
