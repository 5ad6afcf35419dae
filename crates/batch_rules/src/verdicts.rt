// What the commit phase decides of a request.

/// The rule by which requests finish. A request *depends* on an earlier one of the batch where both write a key (WAW), where it reads
/// what the earlier one writes (RAW), or where it writes what the earlier one reads (WAR).
#[derive(Clone, Copy, Debug, PartialEq, Eq)]
pub enum Rule {
    /// A request finishes without WAW and without RAW.
    Plain,
    /// A request finishes without WAW, and without RAW or without WAR: it may run before the writers that it read past.
    Reorder,
}

/// Why a request waits. A number is a place in the batch's list, from 1, and the least one on which there is the dependency.
#[derive(Clone, Copy, Debug, PartialEq, Eq)]
pub enum Cause {
    /// Both write a key.
    Waw(u32),
    /// By the rule plain: it read what that one writes.
    Raw(u32),
    /// By the rule reorder: it read what the first one writes, and writes what the second one read.
    Both(u32, u32),
}

/// What is decided of a request.
#[derive(Clone, Copy, Debug, PartialEq, Eq)]
pub enum Verdict {
    /// It finishes with the end that it had on the batch's start; `raw` tells whether it read what an earlier request writes.
    Finish { raw: bool },
    /// It does not finish in the commit phase.
    Wait(Cause),
}
