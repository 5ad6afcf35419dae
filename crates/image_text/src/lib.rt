//! The texts that a store's files hold: the body of a checkpoint, and the payload of a log record.
//!
//! A text is read exactly where it is the one spelling of some values that fit: [`read_body`] and
//! [`read_payload`] give those values, or tell that there are none. What [`body_of`] and
//! [`payload_of`] write is the text of what was handed in; of bodies a law says that no two sets of
//! values have one text.
//!
//! ```text
//!  bodies (body_of, read_body)          payloads (payload_of, read_payload, read_calls)
//!      |            |                       |
//!   fronts       entries                    |      a catalogue in pieces; rows and held requests
//!      |          |     \                   |
//!      |          |    helds                |      `held Q PROC a1 ..`
//!      |          |       \                 |
//!      |          +------- exactly ---------+      a line is read, written again and compared
//!      |                      |
//!      +------------------- lines                  a text is taken line by line
//! ```
//!
//! In `specs/`: `Bodies` and `Payloads` say what the texts are, `Fronts`, `Entries`, `Helds` and
//! `Exactly` what their parts are and how they are read, and `Lines` has the automaton of lines that all
//! of them share.
#![tactic(auto)]

mod bodies;
mod entries;
mod exactly;
mod fronts;
mod helds;
pub mod laws;
mod lines;
mod payloads;

pub use bodies::{body_of, read_body};
pub use payloads::{Logged, payload_of, read_calls, read_payload};
