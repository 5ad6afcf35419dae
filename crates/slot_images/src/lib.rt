//! Checkpoints as values: what the file of a slot says of a whole database.
//!
//! [`load`] answers what a slot's file reads as, by the definition of `specs/Images`: nothing behind a
//! closed gate; an image, exactly where the head is in order and the body is the text of some values
//! that fit; else the first offset at which the file is damaged. [`body_for`] writes the body of an
//! image. What is laid and shown of an image is what is loaded.
#![tactic(auto)]

mod images;
pub mod laws;
mod loads;

pub use images::{Image, body_for};
pub use loads::load;
