// What no clause shows: the rows after a batch worked out by hand. `meetings` has two workers write at the
// same time, and counts the steps that they tell of.
ghost use Rattle.std.specs.Prelude.{◌≤◌};
ghost use Rattle.aria_base.specs.declared.limits.TheConstants.{MOST_WORKERS};

use crate::checks::holds;
use aria_base::{Changes, Free, Key, Keys, Memory, Part, Parts, Row, Value};
use batch_rules::verdicts::{Cause, Verdict};
use install_phase::{install, install_changes};
use proc_exec::Outcome;
use proc_lang::{End, Gives};
use std::alloc::Global;
use std::test::Fail;
use std::thread::Threads;
use tbl_rows::Tables;

/// How many accounts there are, and requests, each of which writes one.
const COUNT: i64 = 400;

/// How many requests there are in a crowd, in which five write each account.
const CROWD: i64 = 2_000;

fn key(alloc: Global, number: i64) -> Result<Key, Memory> {
    let parts = Parts::from_vec(vec![in alloc; Part::Int(number)]?);
    Ok(Key { table: 0, parts })
}

fn row(alloc: Global, number: i64) -> Result<Row, Memory> {
    Ok(Row::from_vec(vec![in alloc; Value::Int(number)]?))
}

/// The accounts, each with ten times its number.
fn accounts(alloc: Global) -> Result<Tables, Fail> {
    let mut tables = Tables::new(alloc)?;
    for number in 0..COUNT {
        tables.put(key(alloc, number)?, row(alloc, number.saturating_mul(10))?)?;
    }
    Ok(tables)
}

/// It sets its account to a thousand; each fourth one removes it.
fn outcome(alloc: Global, number: i64) -> Result<Outcome, Memory> {
    let after = if number % 4 == 3 {
        None
    } else {
        Some(row(alloc, 1_000)?)
    };
    let writes = vec![in alloc; (key(alloc, number)?, after)]?;
    Ok(Outcome {
        reads: Keys::from_vec(Vec::new(alloc)),
        writes: Changes::from_vec(writes),
        end: End::Done(Gives::from_vec(Vec::new(alloc))),
    })
}

/// Each third one waits.
fn verdict(number: i64) -> Verdict {
    if number % 3 == 2 {
        Verdict::Wait(Cause::Waw(1))
    } else {
        Verdict::Finish {
            raw: number % 2 == 0,
        }
    }
}

/// The accounts after the batch.
fn installed<R: Threads + Sync>(rt: &R, alloc: Global, workers: u32) -> Result<Tables, Fail>
    requires { (1 ≤ workers) × (workers ≤ MOST_WORKERS) }
{
    let mut outcomes = Vec::new(alloc);
    let mut verdicts = Vec::new(alloc);
    for number in 0..COUNT {
        outcomes.push(outcome(alloc, number)?)?;
        verdicts.push(verdict(number))?;
    }
    let tables = accounts(alloc)?;
    Ok(install(rt, alloc, tables, outcomes, &verdicts, workers, &Free)?)
}

/// Their numbers and what stands there.
fn listed(alloc: Global, tables: &Tables) -> Result<Vec<(i64, i64)>, Memory> {
    let mut pairs = Vec::new(alloc);
    for (key, row) in tables.rows()? {
        if let ([Part::Int(key)], [Value::Int(row)]) = (key.parts.as_slice(), row.as_slice()) {
            pairs.push((*key, *row))?;
        }
    }
    Ok(pairs)
}

/// What stands there after the batch, worked out: where the request waits the row is the old one.
fn expected(alloc: Global) -> Result<Vec<(i64, i64)>, Memory> {
    let mut pairs = Vec::new(alloc);
    for number in 0..COUNT {
        if number % 3 == 2 {
            pairs.push((number, number.saturating_mul(10)))?;
        } else if number % 4 != 3 {
            pairs.push((number, 1_000))?;
        }
    }
    Ok(pairs)
}

#[test]
fn any_number_of_workers_gives_the_same_rows(rt: HostRuntime) -> Result<(), Fail> {
    let alloc = rt.alloc();
    let wanted = expected(alloc)?;
    for workers in [1, 2, 7, 64_u32] {
        let after = listed(alloc, &installed(&rt, alloc, workers)?)?;
        holds(&rt, "the rows", workers, after == wanted);
    }
    Ok(())
}

/// The writes of a request of the crowd: it sets its account to a thousand and its number; each fourth
/// one removes it.
fn change(alloc: Global, number: i64) -> Result<Changes, Memory> {
    let after = if number % 4 == 3 {
        None
    } else {
        Some(row(alloc, number.saturating_add(1_000))?)
    };
    let write = (key(alloc, number % COUNT)?, after);
    Ok(Changes::from_vec(vec![in alloc; write]?))
}

/// The accounts after the crowd.
fn crowded<R: Threads + Sync>(rt: &R, alloc: Global, workers: u32) -> Result<Tables, Fail>
    requires { (1 ≤ workers) × (workers ≤ MOST_WORKERS) }
{
    let mut list = Vec::new(alloc);
    let mut verdicts = Vec::new(alloc);
    for number in 0..CROWD {
        list.push(change(alloc, number)?)?;
        verdicts.push(verdict(number))?;
    }
    let tables = accounts(alloc)?;
    Ok(install_changes(rt, alloc, tables, list, &verdicts, workers, &Free)?)
}

/// What stands there then, worked out: the last request of an account is 1,600 behind its first, and
/// waits where the account's number is one more than a multiple of three. Then the one before it counts,
/// 400 earlier.
fn expected_of_crowd(alloc: Global) -> Result<Vec<(i64, i64)>, Memory> {
    let mut pairs = Vec::new(alloc);
    for account in 0..COUNT {
        let last: i64 = if account % 3 == 1 { 2_200 } else { 2_600 };
        if account % 4 != 3 {
            pairs.push((account, last.saturating_add(account)))?;
        }
    }
    Ok(pairs)
}

#[test]
fn the_last_request_of_a_crowd_counts_whoever_deals_it(rt: HostRuntime) -> Result<(), Fail> {
    let alloc = rt.alloc();
    let wanted = expected_of_crowd(alloc)?;
    for workers in [1, 2, 7, 64_u32] {
        let after = listed(alloc, &crowded(&rt, alloc, workers)?)?;
        holds(&rt, "the rows", workers, after == wanted);
    }
    Ok(())
}
