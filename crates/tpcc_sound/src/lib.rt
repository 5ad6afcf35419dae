//! That the rows of order entry stay sound: what is proved of the five requests.
//!
//! Rows are *sound* where the audit's four conditions hold and no order line belongs to an order that its
//! district has still to number (`Sound` of `tpcc_routines`). Each of the five requests leaves sound rows where
//! it runs on sound rows; so whatever runs them in any serial order does.
//!
//! ```text
//! Entries, Rising         rows in order; numbers that rise
//! Audits, Closing         what an audit finds where the oldest open order is open no longer
//! Counting, Points        what one row does to what is counted; the audit row by row
//! Ending, Keeping         the three routines, along their walks
//! Leading                 procedures, statement by statement
//! Ordering, Selling       new orders: what they do to the rows, and that their statements do it
//! Paying, Buying          payments, likewise
//! Exact                   the search for the first failure finds one exactly where the rows are not sound
//! ```
//!
//! The crate has laws alone.
#![tactic(auto)]

pub mod laws;
