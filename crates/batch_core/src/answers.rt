// What a batch answers.
use aria_base::{Items, Key};
use proc_lang::End;

/// Why a request waits, by the numbers of the requests that it waits for.
#[derive(Debug, Drop, PartialEq, Eq)]
pub enum Wait {
    /// The least earlier request that writes a key that this one writes.
    Waw(u64),
    /// The least earlier request that writes a key that this one reads.
    Raw(u64),
    /// The least earlier request that writes a key that this one reads, and the least one that reads
    /// a key that this one writes.
    Both(u64, u64),
    /// It was run again, and stopped before an access outside the keys of its first run.
    Moved(Key),
}

/// What becomes of a request in a batch.
#[derive(Debug, Drop, PartialEq, Eq)]
pub enum Reply {
    /// It has its final end.
    Ended(End),
    /// It is carried over to the next batch.
    Waits(Wait),
}

/// A request's line in an answer.
#[derive(Debug, Drop, PartialEq, Eq)]
pub struct Line {
    /// The request's number.
    pub q: u64,
    /// What becomes of it.
    pub reply: Reply,
}

/// The lines of an answer, in the order of the batch's list.
pub type Replies = Items<Line>;

/// Request numbers in the order in which the requests count as run.
pub type Order = Items<u64>;

/// The answer of a batch: its number, a line a request, and the serial order that gives the same
/// ends and the same rows.
#[derive(Debug, Drop, PartialEq, Eq)]
pub struct Answer {
    /// The batch's number, from 1.
    pub number: u64,
    /// A line for each request of its list.
    pub lines: Replies,
    /// The requests that finished, as they count as run.
    pub order: Order,
}
