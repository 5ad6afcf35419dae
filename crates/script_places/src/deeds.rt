// What a line asks for.
use aria_base::{Call, Key, Row};
use batch_rules::verdicts::Rule;

/// What a line asks for.
#[derive(Debug, Drop, PartialEq, Eq)]
pub enum Deed {
    /// Nothing: it is skipped, or it has its effect on the place alone.
    Nothing,
    /// The row stands at the key from now on.
    Put(Key, Row),
    /// The call is one more of the open batch.
    Call(Call),
    /// The rule, and the percentage of the late run, hold from the next batch on.
    Set { rule: Rule, percent: u32 },
    /// The batch with this number was run before; its calls are dropped.
    Keep(u64),
    /// The batch of the open calls is run.
    Run,
    /// The line is one of the report.
    Tell,
}
