// The settings by which batches run.
use batch_rules::verdicts::Rule;

/// How batches run.
#[derive(Clone, Copy, Debug, PartialEq, Eq)]
pub struct Config {
    /// By which rule requests finish.
    pub rule: Rule,
    /// Of how many requests of a hundred at least have to wait for them to be run again at the batch's
    /// end. 0 to 101, and 101 means never.
    pub fallback: u32,
    /// How many workers run a batch's phases, 1 to 64. No answer depends on it.
    pub workers: u32,
    /// How what waits is run again: by rows that are handed from request to request where this is true,
    /// else wave after wave. No answer depends on it.
    pub batons: bool,
}
