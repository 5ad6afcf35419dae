// The check of a report on batches that no script has, since a line past the ten thousandth call ends its reading:
// calls of the library.
use crate::outcomes::{MEMORY, is_count};
use aria_base::{Arg, Args, Bytes, Call, Memory};
use cat_builtin::builtin;
use serial_check::{Finding, check};
use std::alloc::Global;
use tbl_rows::Tables;

/// How many calls the batches have, one after the other, the report, and the number of the batch that is too large.
type Case = (&'static [usize], &'static [&'static str], u64);

const CASES: [Case; 2] = [
    (&[10_001], &[], 1),
    // what has ended is not carried
    (
        &[1, 10_001],
        &["batch 1", "1 back 1", "order 1", "end 1"],
        2,
    ),
];

/// So many calls of this procedure with two numbers.
fn calls(alloc: Global, proc: u16, count: usize) -> Result<Vec<Call>, Memory> {
    let mut calls = Vec::new(alloc);
    for _ in 0..count {
        let args = Args::from_vec(vec![in alloc; Arg::Int(1), Arg::Int(1)]?);
        calls.push(Call { proc, args })?;
    }
    Ok(calls)
}

/// Batches of so many calls each.
fn script(alloc: Global, proc: u16, counts: &[usize]) -> Result<Vec<(u64, Vec<Call>)>, Memory> {
    let mut script = Vec::new(alloc);
    let mut number = 0_u64;
    for count in counts {
        number = number.saturating_add(1);
        script.push((number, calls(alloc, proc, *count)?))?;
    }
    Ok(script)
}

/// These lines.
fn report(alloc: Global, lines: &[&str]) -> Result<Vec<Bytes>, Memory> {
    let mut report = Vec::new(alloc);
    for line in lines {
        report.push(Bytes::from_vec(Vec::from_slice(alloc, line.as_bytes())?))?;
    }
    Ok(report)
}

/// The number of the batch that is found too large; 0 where something else is found.
fn crowded(alloc: Global, counts: &[usize], lines: &[&str]) -> Result<u64, Memory> {
    let Some(bank) = builtin(alloc, b"bank")? else {
        return Ok(0);
    };
    let Some(add) = bank.proc(b"add") else {
        return Ok(0);
    };
    let script = script(alloc, add, counts)?;
    let report = report(alloc, lines)?;
    match check(alloc, bank, Tables::new(alloc)?, script, &report)? {
        Finding::Crowded { number } => Ok(number),
        Finding::Holds | Finding::Fails { .. } => Ok(0),
    }
}

#[test]
fn a_batch_that_is_too_large_is_named(rt: HostRuntime) {
    for (counts, lines, number) in CASES {
        let found = crowded(rt.alloc(), counts, lines).expect(&rt, MEMORY);
        is_count(&rt, "the batch", found, number);
    }
}
