//! The serial order that a batch prints: in which order its requests count as run.
//!
//! [`place`] gives the TIDs of the requests that finish in the commit phase: those that read what an
//! earlier request writes come first, the greatest TID before all, and the others behind them, the
//! least one first. [`order`] gives the whole printed order, with those that a late run finished at
//! its end, and is the order of which the laws of a batch speak.
//!
//! ```text
//! TID   1        2        3      4        5      6
//!       finish   finish   wait   finish   wait   finish
//!                raw                      late   raw
//!
//! place  ─>  6 2 | 1 4            `raw`: it ran before the writers that it read past
//! order  ─>  6 2 | 1 4 | 5        `late`: it waited, and was run again at the batch's end
//! ```
#![tactic(auto)]

pub mod laws;
pub mod placements;

pub use placements::{order, place};
