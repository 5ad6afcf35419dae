//! Verdicts of works that scan, read off reservation words.
//!
//! A scanned prefix has a number and words as a key has. A scan marks it as read; a write marks it as written, for each scanned prefix that
//! its key is under. So a verdict costs what its own work touched, and nothing goes over the prefixes of others. Such words count between a
//! scan and a write, and never between two writes.
//!
//! ```text
//! what each work came to ──> Index: all prefixes ──workers──> keys and prefixes of each
//!                                                                  │ numbers, reserve
//!                                                                  v
//!                               verdicts <── closed words, a count of its own keys for each
//! ```
#![tactic(auto)]

mod decisions;
mod judgements;
mod marks;
mod numbers;
mod touches;

pub use judgements::judge;
