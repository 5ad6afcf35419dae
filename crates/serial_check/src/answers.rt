// The answers of a report, each against its batch run one request after the other.
ghost use Rattle.std.specs.Prelude.{◌≡◌, ◌+◌, ◌≤◌, ◌<◌, ◌^◌, length, not, is_some, IfOk, option_copied, false};
ghost use Rattle.std.specs.BTreeMap as tree;
ghost use Rattle.std.specs.List.{filter};
ghost use Rattle.std.specs.Ordering.{nat_cmp};
ghost use Rattle.serial_check.specs.Halts.{Decides, DecidesBy};
ghost use Rattle.serial_check.specs.Reports.{IsWithin, answer, answer_lines, ran_at, replies, reply, told_at};

use crate::halts::Halt;
use crate::lines::{batch_line, end_line, ended_line};
use crate::orders::expect_order;
use crate::reports::{expect, expect_wait};
use crate::serial_runs::{Ends, run_in_order};
use crate::standings::{Reading, Standing};
use aria_base::{Bytes, Call, Items, Memory, Request};
use batch_core::number_calls;
use proc_lang::{Catalog, End};
use std::alloc::Global;
use tbl_rows::Tables;

/// What is read behind the answer to a list, which has to begin at the place. The list is what is carried
/// and these calls.
pub(crate) fn expect_answer(
    alloc: Global,
    catalog: &Catalog,
    report: &[Bytes],
    standing: Standing,
    calls: Vec<Call>,
    at: usize,
) -> Result<Reading, Halt>
    requires { IsWithin report.now (record { at = at; standing = standing; listed = false }) }
    ensures says { Decides result (answer catalog.now report.now standing calls.items at) }
    ensures within { IfOk result (λ reading. IsWithin report.now reading) }
{
    let Standing {
        tables,
        carried,
        batches,
        requests,
    } = standing;
    let mut tables = tables;
    let numbered = requests + calls.len() as u64;
    let list = number_calls(carried.into_vec(), calls, requests)?;
    let at = expect(alloc, report, batch_line(alloc, batches + 1)?, at)?;
    let (at, ends) = expect_told(alloc, catalog, report, &mut tables, batches + 1, &list, at)?;
    Ok(Reading {
        at,
        standing: Standing {
            tables,
            carried: not_ended(alloc, &ends, list)?,
            batches: batches + 1,
            requests: numbered,
        },
        listed: false,
    })
}

/// The place behind an answer to this list whose next line stands at the place, and how the requests of its
/// order end, run one after the other. Its order line is looked at before the lines of requests.
fn expect_told(
    alloc: Global,
    catalog: &Catalog,
    report: &[Bytes],
    tables: &mut Tables,
    number: u64,
    list: &[Request],
    at: usize,
) -> Result<(usize, Ends), Halt>
    requires place { at ≤ length report.now }
    requires room { at + length list.now + 1 < 2 ^ 64 }
    ensures says { DecidesBy (λ told. (told.0, (tree.get nat_cmp told.1, tables.new))) result (told_at catalog.now report.now tables.old number list.now at) }
    ensures next { IfOk result (λ told. told.0 ≡ at + length list.now + 2) }
    ensures within { IfOk result (λ told. told.0 ≤ length report.now) }
{
    let ends = expect_run(alloc, catalog, report, tables, list, at + list.len())?;
    let at = expect_lines(alloc, report, number, &ends, list, at)?;
    Ok((at, ends))
}

/// How the requests end that the order line at the place names, run in its order.
fn expect_run(
    alloc: Global,
    catalog: &Catalog,
    report: &[Bytes],
    tables: &mut Tables,
    list: &[Request],
    at: usize,
) -> Result<Ends, Halt>
    requires { at + 1 < 2 ^ 64 }
    ensures { DecidesBy (λ ends. (tree.get nat_cmp ends, tables.new)) result (ran_at catalog.now report.now tables.old list.now at) }
{
    let order = expect_order(alloc, report, list, at)?;
    let ends = run_in_order(alloc, catalog, tables, &order)?;
    Ok(ends)
}

/// The place behind the lines of an answer that stand behind its first one. Its order line is passed over.
fn expect_lines(
    alloc: Global,
    report: &[Bytes],
    number: u64,
    ends: &Ends,
    list: &[Request],
    at: usize,
) -> Result<usize, Halt>
    requires { at ≤ length report.now }
    ensures says { Decides result (answer_lines report.now number (tree.get nat_cmp ends.now) list.now at) }
    ensures next { IfOk result (λ next. next ≡ at + length list.now + 2) }
    ensures within { IfOk result (λ next. next ≤ length report.now) }
{
    let at = expect_replies(alloc, report, ends, list, at)?;
    expect(alloc, report, end_line(alloc, number)?, at + 1)
}

/// The place behind the lines of these requests.
fn expect_replies(
    alloc: Global,
    report: &[Bytes],
    ends: &Ends,
    list: &[Request],
    at: usize,
) -> Result<usize, Halt>
    requires { at ≤ length report.now }
    ensures says { Decides result (replies report.now (tree.get nat_cmp ends.now) list.now at) }
    ensures next { IfOk result (λ next. next ≡ at + length list.now) }
    ensures within { IfOk result (λ next. next ≤ length report.now) }
{
    let mut at = at;
    for request in list {
        at = expect_reply(alloc, report, request.q, ends.get(&request.q), at)?;
    }
    Ok(at)
}

/// The place behind the line of the request with this number, which has ended so or else waits.
fn expect_reply(
    alloc: Global,
    report: &[Bytes],
    q: u64,
    end: Option<&End>,
    at: usize,
) -> Result<usize, Halt>
    requires { at ≤ length report.now }
    ensures says { Decides result (reply report.now q (option_copied end.entry) at) }
    ensures next { IfOk result (λ next. next ≡ at + 1) }
    ensures within { IfOk result (λ next. next ≤ length report.now) }
{
    match end {
        Some(end) => expect(alloc, report, ended_line(alloc, q, end)?, at),
        None => expect_wait(alloc, report, q, at),
    }
}

/// The requests of the list that have not ended, which are carried.
fn not_ended(alloc: Global, ends: &Ends, list: Vec<Request>) -> Result<Items<Request>, Memory>
    ensures { IfOk result (λ carried. carried ≡ filter (λ request. not (is_some (tree.get nat_cmp ends.now request.q))) list.items) }
{
    let mut carried = Vec::new(alloc);
    for request in list {
        if !ends.contains_key(&request.q) {
            carried.push(request)?;
        }
    }
    Ok(Items::from_vec(carried))
}
