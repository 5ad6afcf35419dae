// The lines and the order of an answer.
ghost use Rattle.std.specs.Prelude.{◌≡◌, ◌++◌, IfOk};
ghost use Rattle.batch_core.specs.Steps.{number_in, reply_by};
ghost use Rattle.range_resv.specs.Answers.{fate_by, lines_in};

use aria_base::Memory;
use batch_core::{Line, Reply, wait_in};
use batch_rules::verdicts::Verdict;
use proc_lang::End;
use std::alloc::Global;

/// The line of each work, in the order of the list.
pub(crate) fn lines_of(
    alloc: Global,
    numbers: &[u64],
    ends: Vec<End>,
    verdicts: &[Verdict],
) -> Result<Vec<Line>, Memory>
    ensures { IfOk result (λ lines. lines.items ≡ lines_in (number_in numbers.now) ends.items numbers.now verdicts.now) }
{
    let mut lines = Vec::with_capacity(alloc, ends.len())?;
    let mut left = numbers;
    let mut rest = verdicts;
    for end in ends {
        let Some((&q, later)) = left.split_first() else {
            return Ok(lines);
        };
        let Some((verdict, more)) = rest.split_first() else {
            return Ok(lines);
        };
        left = later;
        rest = more;
        lines.push(Line {
            q,
            reply: reply(numbers, end, *verdict),
        })?;
    }
    Ok(lines)
}

/// A work's reply.
fn reply(numbers: &[u64], end: End, verdict: Verdict) -> Reply
    ensures { result ≡ reply_by (number_in numbers.now) (fate_by end verdict) }
{
    match verdict {
        Verdict::Finish { raw: _ } => Reply::Ended(end),
        Verdict::Wait(cause) => Reply::Waits(wait_in(numbers, cause)),
    }
}
