//! The lines of scripts, both ways: read from pieces of any size, and written in their one spelling.
//!
//! [`Lines`] gives the lines of a text however it was cut, and [`read_line`] what one of them says;
//! both name the first line that is refused, and why, exactly where the grammar refuses one. What
//! [`write_row`] and [`write_call`] write reads as the same row and the same call.
//!
//! ```text
//! pieces ──> Lines ──> read_line ──> Item ──> fit_row, fit_tx, fit_settings ──> rows, calls, settings
//!                        tokens               (names and kinds, by a catalogue)         │
//!                                                                                       │
//!            lines of text <── write_row, write_call <──────────────────────────────────┘
//! ```
//!
//! In `specs/`: `Lines` says how a text is cut into lines, `Cuts` how a line is cut into tokens,
//! `Numbers` and `Tokens` what a token is and how it is printed, `Forms` the kinds of line, `Fits` what a
//! catalogue makes of a line, `Written` the spelling of rows and calls, `Answers` what a refusal tells,
//! and `Laws` what holds of texts as a whole.
#![tactic(auto)]

mod cuts;
mod digits;
mod fits;
mod forms;
mod items;
mod laws;
mod lines;
mod readers;
mod refusals;
mod writers;
mod written;

pub use cuts::cut_at;
pub use digits::read_number;
pub use fits::{fit_row, fit_settings, fit_tx, place_call, place_row};
pub use forms::{read_line, refused};
pub use items::Item;
pub use laws::{lines_of_texts, rows_fit};
pub use lines::Lines;
pub use refusals::{CatFault, LinesRefused, Refusal, RefusalKind};
pub use writers::{Token, append_key, append_number, append_row, append_tokens};
pub use written::{append_call, append_proc_name, write_call, write_row};
