//! Checkpoints of a database in two slots, each a file of a disk.
//!
//! A slot is written behind a closed gate and shown by opening it, so that a stop at any moment leaves
//! the slot shut or shows a whole checkpoint. What is laid and shown is what is read, and what is
//! damaged is told by the first offset at which it is.
//!
//! ```text
//!     0   gate: open where it is 1       8   generation, of the slot's parity
//!     1   'ARIA'                        16   batches run
//!     5   format, 1 or 2                24   requests numbered
//!     6   rule, 0 or 1                  32   the body's length
//!     7   fallback, 0 to 101            40   the body; what stands behind it counts for nothing
//! ```
#![tactic(auto)]

mod heads;
pub mod laws;
mod readings;
mod slots;

pub use heads::{FIRST_FORMAT, FRONT, Head};
pub use readings::{head_of, read_slot};
pub use slots::{blank, lay, show, shut};
