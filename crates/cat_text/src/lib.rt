//! The catalogue of a text, as scripts refuse it.
//!
//! [`catalog_of`] gives the catalogue that a text says, or the one refusal of a script that tells why it
//! says none. Unlike the reader below, its contract is a function of the text alone.
#![tactic(auto)]

mod texts;

pub use texts::catalog_of;
