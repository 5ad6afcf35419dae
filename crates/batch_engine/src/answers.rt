// The lines and the order of an answer.
ghost use Rattle.std.specs.Prelude.{◌≡◌, ◌≤◌, ◌<◌, ◌^◌, ◌++◌, length, map, take, IfOk, None, Some, drop};
ghost use Rattle.std.specs.Vec.Iter.{into_iter_items};
ghost use Rattle.aria_base.specs.declared.limits.TheConstants.{MOST_REQUESTS};
ghost use Rattle.batch_core.specs.Steps.{number_in, reply_by};
ghost use Rattle.batch_rules.specs.Batches.{fate_after, lates_behind};
ghost use Rattle.proc_exec.specs.Lates.{fate_of};
ghost use Rattle.reorder.specs.Orders.{ordered_tids};
ghost use Rattle.batch_engine.specs.Answers.{by_end, lines_in, is_final};

use aria_base::Memory;
use batch_core::{Line, Reply, Wait, number_in, numbers_in, wait_in};
use batch_rules::verdicts::Verdict;
use proc_exec::Late;
use proc_lang::End;
use reorder::order;
use std::alloc::Global;
use std::vec::IntoIter;

/// The line of each request, in the order of the list. `lates` are the results of a late run in the
/// order of those that wait, and none where there was no late run.
pub(crate) fn lines_of(
    alloc: Global,
    numbers: &[u64],
    ends: Vec<End>,
    verdicts: &[Verdict],
    lates: Vec<Late>,
) -> Result<Vec<Line>, Memory>
    requires { length ends.items < 2 ^ 32 }
    ensures { IfOk result (λ lines. lines.items ≡ lines_in numbers.now ends.items verdicts.now (map fate_of lates.items)) }
{
    let mut lines = Vec::with_capacity(alloc, ends.len())?;
    let mut lates = lates.into_iter();
    let mut rest = verdicts;
    let mut tid = 0;
    for end in ends {
        let Some((verdict, later)) = rest.split_first() else {
            return Ok(lines);
        };
        rest = later;
        tid += 1;
        lines.push(Line {
            q: number_in(numbers, tid),
            reply: reply(numbers, end, *verdict, &mut lates),
        })?;
    }
    Ok(lines)
}

/// A request's reply. One that waits takes the next result of the late run, if there is one.
fn reply(numbers: &[u64], end: End, verdict: Verdict, lates: &mut IntoIter<Late>) -> Reply
    ensures reply { result ≡ reply_by (number_in numbers.now) (fate_after by_end end verdict (map fate_of (into_iter_items lates.old))) }
    ensures lates { map fate_of (into_iter_items lates.new) ≡ lates_behind verdict (map fate_of (into_iter_items lates.old)) }
{
    match verdict {
        Verdict::Finish { raw: _ } => Reply::Ended(end),
        Verdict::Wait(cause) => match lates.next() {
            Some(Late::Finished(end)) => Reply::Ended(end),
            Some(Late::Moved(key)) => Reply::Waits(Wait::Moved(key)),
            None => Reply::Waits(wait_in(numbers, cause)),
        },
    }
}

/// The printed order, by request numbers.
pub(crate) fn order_of(
    alloc: Global,
    numbers: &[u64],
    verdicts: &[Verdict],
    lines: &[Line],
) -> Result<Vec<u64>, Memory>
    requires few { length verdicts.now ≤ MOST_REQUESTS }
    requires each { length lines.now ≡ length verdicts.now }
    ensures { IfOk result (λ order. order.items ≡ map (number_in numbers.now) (ordered_tids verdicts.now (map (λ line. is_final line.reply) lines.now))) }
{
    let finals = finals_of(alloc, lines)?;
    let tids = order(alloc, verdicts, &finals)?;
    numbers_in(alloc, numbers, &tids)
}

/// Which replies are final.
fn finals_of(alloc: Global, lines: &[Line]) -> Result<Vec<bool>, Memory>
    ensures { IfOk result (λ finals. finals.items ≡ map (λ line. is_final line.reply) lines.now) }
{
    let mut finals = Vec::with_capacity(alloc, lines.len())?;
    for line in lines {
        finals.push(is_final(&line.reply))?;
    }
    Ok(finals)
}

fn is_final(reply: &Reply) -> bool
    ensures { result ≡ is_final reply.now }
{
    match reply {
        Reply::Ended(_) => true,
        Reply::Waits(_) => false,
    }
}
