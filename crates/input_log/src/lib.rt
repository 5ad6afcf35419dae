//! The log of batches: records behind gates, each on the disk before its gate is opened.
//!
//! A gate is one byte, open where it is 1. Behind an open gate stand the payload's length in four
//! bytes, the payload, and the next gate. `append` leaves in every image the payloads from before
//! the call, with the new one or without, and with it once it has answered Ok. `scan` reads the
//! payloads up to the first closed gate and changes nothing.
//!
//! ```text
//!     record              record              end
//!     1 | len | payload | 1 | len | payload | 0 | anything
//! ```
#![tactic(auto)]

mod limits;
mod logs;

pub use disk_model::LogRefused;
pub use limits::{MOST_BEFORE, MOST_LOG, MOST_PAYLOAD};
pub use logs::{LogEnd, Payload, append, fresh, scan};
