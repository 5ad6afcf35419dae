// The answer of a batch, by what became of its requests.
ghost use Rattle.std.specs.Prelude.{◌≡◌, ◌≤◌, length, map, IfOk};
ghost use Rattle.aria_base.specs.declared.limits.TheConstants.{MOST_REQUESTS};
ghost use Rattle.batch_core.specs.Steps.{number_at, wait_of, reply_of, line_of};
ghost use Rattle.node_batch.specs.Entries.{entry_of, fate_of, verdict_of};
ghost use Rattle.reorder.specs.Orders.{placed_tids};
ghost use Rattle.node_answers.specs.Merges.{settled_in, list_in, answer_in};

use aria_base::{Duplicate, Items, Memory};
use batch_core::{Answer, Line, Reply, Wait};
use batch_rules::verdicts::{Cause, Verdict};
use node_batch::{Entry, Outcome};
use reorder::place;
use std::alloc::Global;

/// The answer of the batch with this number.
pub fn answer_of(alloc: Global, number: u64, entries: &[&Entry]) -> Result<Answer, Memory>
    requires { length entries.now ≤ MOST_REQUESTS }
    ensures { IfOk result (λ answer. answer ≡ answer_in number entries.now) }
{
    let lines = lines_of(alloc, entries)?;
    let order = order_of(alloc, entries)?;
    Ok(Answer {
        number,
        lines: Items::from_vec(lines),
        order: Items::from_vec(order),
    })
}

/// The line of each request.
fn lines_of(alloc: Global, entries: &[&Entry]) -> Result<Vec<Line>, Memory>
    ensures { IfOk result (λ lines. lines.items ≡ map (line_of (λ r. r) (list_in entries.now)) (settled_in entries.now)) }
{
    let mut lines = Vec::with_capacity(alloc, entries.len())?;
    for entry in entries {
        lines.push(line_of(alloc, entries, entry)?)?;
    }
    Ok(lines)
}

fn line_of(alloc: Global, entries: &[&Entry], entry: &Entry) -> Result<Line, Memory>
    ensures { IfOk result (λ line. line ≡ line_of (λ r. r) (list_in entries.now) (entry_of entry.now)) }
{
    let q = entry.request.q;
    let reply = reply_of(alloc, entries, &entry.outcome)?;
    Ok(Line { q, reply })
}

/// What becomes of a request.
fn reply_of(alloc: Global, entries: &[&Entry], outcome: &Outcome) -> Result<Reply, Memory>
    ensures { IfOk result (λ reply. reply ≡ reply_of (list_in entries.now) (fate_of outcome.now)) }
{
    match outcome {
        Outcome::Ended(_, end) => {
            let end = end.duplicate(alloc)?;
            return Ok(Reply::Ended(end));
        }
        Outcome::Waits(cause) => return Ok(Reply::Waits(wait_of(entries, *cause))),
    }
}

/// A cause by request numbers.
fn wait_of(entries: &[&Entry], cause: Cause) -> Wait
    ensures { result ≡ wait_of (list_in entries.now) cause }
{
    match cause {
        Cause::Waw(waw) => Wait::Waw(number_at(entries, waw)),
        Cause::Raw(raw) => Wait::Raw(number_at(entries, raw)),
        Cause::Both(raw, war) => Wait::Both(number_at(entries, raw), number_at(entries, war)),
    }
}

/// The number of the request with this TID.
fn number_at(entries: &[&Entry], tid: u32) -> u64
    ensures { result ≡ number_at (list_in entries.now) tid }
{
    match entries.get((tid as usize).saturating_sub(1)) {
        Some(entry) => entry.request.q,
        None => 0,
    }
}

/// The printed order. Nothing finishes late.
fn order_of(alloc: Global, entries: &[&Entry]) -> Result<Vec<u64>, Memory>
    requires { length entries.now ≤ MOST_REQUESTS }
    ensures { IfOk result (λ order. order.items
        ≡ map (number_at (list_in entries.now)) (placed_tids (map (λ e. e.judged.verdict) (settled_in entries.now)))) }
{
    let verdicts = verdicts_of(alloc, entries)?;
    let tids = place(alloc, &verdicts)?;
    numbers_at(alloc, entries, &tids)
}

/// The verdict of each request.
fn verdicts_of(alloc: Global, entries: &[&Entry]) -> Result<Vec<Verdict>, Memory>
    ensures { IfOk result (λ verdicts. verdicts.items ≡ map (λ e. e.judged.verdict) (settled_in entries.now)) }
{
    let mut verdicts = Vec::with_capacity(alloc, entries.len())?;
    for entry in entries {
        verdicts.push(verdict_of(&entry.outcome))?;
    }
    Ok(verdicts)
}

fn verdict_of(outcome: &Outcome) -> Verdict
    ensures { result ≡ verdict_of outcome.now }
{
    match outcome {
        Outcome::Ended(raw, _) => Verdict::Finish { raw: *raw },
        Outcome::Waits(cause) => Verdict::Wait(*cause),
    }
}

/// The numbers of the requests with these TIDs.
fn numbers_at(alloc: Global, entries: &[&Entry], tids: &[u32]) -> Result<Vec<u64>, Memory>
    ensures { IfOk result (λ order. order.items ≡ map (number_at (list_in entries.now)) tids.now) }
{
    let mut order = Vec::with_capacity(alloc, tids.len())?;
    for tid in tids {
        order.push(number_at(entries, *tid))?;
    }
    Ok(order)
}
