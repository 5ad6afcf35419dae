//! Paces for the tests of phases that several workers run: [`Gate`] holds two workers back until both are
//! there, and [`Steps`] counts the steps.
//!
//! Only tests use this crate, and no contract speaks of a pace. So it has no must-fail edits: there is no
//! clause that could refuse one.
//!
//! ```text
//! a phase ──at(who, place)──> Gate:   waits at one place for the other worker, counts what passes
//!                             Steps:  counts all places
//! ```
#![tactic(auto)]

mod gates;
mod steps;

pub use gates::Gate;
pub use steps::Steps;
