// Where the reading of a report stands.
use aria_base::{Items, Request};
use tbl_rows::Tables;

/// What stands between two answers.
#[derive(Drop)]
pub(crate) struct Standing {
    /// The rows.
    pub(crate) tables: Tables,
    /// The requests that are carried.
    pub(crate) carried: Items<Request>,
    /// How many batches were run.
    pub(crate) batches: u64,
    /// How many requests were numbered.
    pub(crate) requests: u64,
}

/// A report between two of its answers, listings and kept batches.
#[derive(Drop)]
pub(crate) struct Reading {
    /// The place of the next line, from 0.
    pub(crate) at: usize,
    /// What the answers so far leave.
    pub(crate) standing: Standing,
    /// Whether what was read last is the listing of an answer.
    pub(crate) listed: bool,
}
