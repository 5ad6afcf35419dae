//! Catalogues read from JSON.
//!
//! [`read_catalog`] gives the catalogue that a text says, exactly where the text is JSON of the stated form
//! and each procedure is well typed. Else it names what is wrong: no JSON, the first place in the walk that
//! does not have the form, or the first procedure that typing refuses; only out of memory leaves that open.
//!
//! ```text
//! readers (read_catalog) --- refusals
//!    |
//! plans (tables, procedures)
//!    |             |
//! objects      walks (bodies)
//!    |             |
//!    |         statements --- terms (expressions)
//!    |             |            |
//!    +---------- places (where a fault is) --- faults
//! ```
//!
//! What a text says is a definition of `cat_forms`, apart from the reader. In `specs/`: `Texts` says what
//! a refusal says of a text, and which procedure is the first that is not well typed; `Places` has the
//! paths of places, `Faults` what a reader answers beside the walk, `Refusals` which refusal follows on
//! which finding, and `Sealings` what the sealing of procedures finds.
#![tactic(auto)]

mod faults;
mod objects;
mod places;
mod plans;
mod readers;
mod refusals;
mod statements;
mod terms;
mod walks;

pub use readers::read_catalog;
pub use refusals::CatRefused;
