//! Whether a procedure is well typed under the tables of a database, and the seal on one that is.
//!
//! [`verify`] seals a procedure exactly where it is well typed, and else names the first statement that
//! fails and the first cause for which it does. Only out of memory leaves the question open.
#![tactic(auto)]

mod accesses;
mod assignments;
mod causes;
mod expressions;
mod procedures;
mod progress;
mod refusals;
mod registers;
mod scopes;
mod statements;

pub use proc_lang::Wrong;
pub use procedures::verify;
pub use refusals::VerifyRefused;
