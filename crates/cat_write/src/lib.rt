//! Catalogues written as JSON.
//!
//! [`write_catalog`] gives the compact text of a catalogue, byte for byte that of the definition in
//! `cat_forms`. That text reads as the catalogue that was written, by the definition of what a text says;
//! only out of memory leaves both open.
//!
//! ```text
//! writers (write_catalog)
//!    |             |
//!    |         step_writers (statements)
//!    |             |
//! term_writers (texts, expressions)
//! ```
//!
//! In `specs/`: `Held` has what the types of the language hold. In `proofs/`: `TermsAgain`, `StepsAgain`
//! and `PlansAgain` say that what is written reads as what was there, from expressions to catalogues,
//! and `Soundness` that the JSON of what is well typed nests little.
#![tactic(auto)]

mod step_writers;
mod term_writers;
mod writers;

pub use writers::write_catalog;
