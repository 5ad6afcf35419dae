//! What a line of a script asks for at its place.
//!
//! A [`ScriptPlace`] knows where the reading of a script stands: of which command it is, which catalogue it has,
//! whether rows may still come, how many calls are open. [`ScriptPlace::ask`] takes the next line and answers
//! what it asks for, or the one refusal that the order of refusals names. [`ScriptPlace::close`] is asked at the
//! end of the input.
//!
//! ```text
//! line ──> read_line (script_text) ──> Item ──> may it stand here? ──> place_row, place_call, fit_settings ──> Deed
//!                                                 │
//!           pieces of a catalogue's text are read (cat_text) when the first other line comes
//! ```
//!
//! In `specs/`: `Places` says all of this, for any command that reads, and `Follows` what is known behind a
//! line that is not refused.
#![tactic(auto)]

mod asks;
mod deeds;
mod heads;
mod laws;
mod limits;
mod places;

pub use deeds::Deed;
pub use heads::{ScriptCatalog, catalog_copy, catalog_in, no_catalog};
pub use laws::{closes, follows};
pub use limits::MOST_CATALOG;
pub use places::{Counts, Mode, ScriptPlace};
