//! The audit of a database of order entry: whether the amounts and the numbers in its rows agree, as the
//! benchmark TPC-C asks of every database, before a run and after it.
//!
//! ```text
//! tables ─> rows in key order ─> facts ─> books (one pass) ─> four conditions ─> finding
//! ```
//!
//! In `specs/`: `Facts` says what a row tells, `Books` what the rows of a district or of a warehouse come
//! to, and `Conditions` what has to agree and which failure is the first one.
#![tactic(auto)]

mod audits;
mod books;
mod conditions;
mod facts;
mod findings;
mod laws;
mod tallies;

pub use audits::audit;
pub use conditions::Condition;
pub use facts::{District, DistrictRow, Fact, WarehouseRow, column_at, part_at};
pub use findings::Audit;
pub use laws::heads_hold;
pub use tallies::Tally;
