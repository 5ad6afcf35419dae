//! The decision of the commit phase for one request: it finishes, or it waits for earlier ones.
//!
//! The verdict follows from what the requests of the batch read and wrote, and from nothing else.
//! [`decide_listed`] finds it by comparing the keys of all earlier requests; [`decide`] reads it off
//! the reservation words of the request's own keys, by their numbers. Both are proved to be the verdict
//! of the definition, and neither takes memory; a law ties numbers to keys.
//!
//! ```text
//! Sets of all requests, a TID, a rule  ──decide_listed──>  Finish { raw } | Wait(cause)
//!      │ numbers of keys                                         ^
//!      v                                                         │
//! Numbered ──marks──> words, a tag  ─────────decide──────────────┘
//! ```
#![tactic(auto)]

pub mod configs;
pub mod decisions;
pub mod laws;
pub mod numberings;
pub mod sets;

pub use batch_rules::verdicts::{Cause, Rule, Verdict};
pub use configs::Config;
pub use decisions::{decide, decide_listed, decided, lesser_of, stands_before};
pub use numberings::{Numbered, Stretch};
pub use sets::Sets;
