//! Replicas of one database, which run the same batches and agree on every answer.
//!
//! Each replica is an engine of its own, with its own rows, key numbers and words, and takes nothing
//! from another: they agree because the rules leave no choice.
//!
//! ```text
//! calls ──copied──> engine 0 ─> answer ─┐
//!       ──copied──> engine 1 ─> answer  ├─ one and the same
//!       ──────────> engine n ─> answer ─┘
//! ```
#![tactic(auto)]

mod at_once;
mod jobs;
mod replicas;

pub use replicas::{Engines, Replicas};
