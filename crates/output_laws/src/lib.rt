//! Laws of what `once` prints: whether it passes `check`. They speak of both commands at once, which know nothing of one another.
//!
//! `specs/Outputs` has the statement. In `proofs/`: `Texts` to `Lines` say that printed lines have printed bytes alone;
//! `Asks` to `Deeds` that `check` reads a script as `once` does; `Drains` to `Whole` what comes behind its last line.
#![tactic(auto)]

mod laws;

pub use laws::{fails_check, passes_check};
