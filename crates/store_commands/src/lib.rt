//! Commands on a store that run no batch of a script: `init`, which makes one, and `replay`, which runs again
//! what stands in one.
//!
//! `init` reads the head of a script to its end, the catalogue and the rows. Then it makes the store of them,
//! unless there is one that it may not write over. `replay` runs the batches behind the checkpoint, each by
//! its own settings, and prints their answers; it writes nothing.
//!
//! ```text
//! Source ──> read_rows (script_rows) ──> Draft ──> Store (aria_store)
//!                                          └─────> line ──> Sink
//! Store ──> checkpoint ──> begin (store_openings) ──> Live (serving) ──> answers ──> Sink
//!   └─────> batches ────────────────────────────────────┘
//! ```
//!
//! In `specs/`: `Drafts` says what a head says, `Inits` what `init` prints, and what it leaves of the disk, and
//! `Replays` what `replay` prints of what four files read as.
#![tactic(auto)]

mod inits;
mod replays;
mod steps;

pub use inits::init;
pub use replays::replay;
