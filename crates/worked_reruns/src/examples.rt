// Examples that were worked out by hand.
ghost use Rattle.std.specs.Prelude.{◌≤◌, length};
ghost use Rattle.aria_base.specs.declared.limits.TheConstants.{MOST_REQUESTS, MOST_WORKERS};

use crate::makings::{ADD, Again, COPY, HOP, SET, catalog, tables, waiting};
use crate::words::{lates_words, numbers_words, rows_words, same};
use aria_base::{Free, Memory};
use fallback_locks::{rerun, waves};
use proc_exec::{Late, Waiting};
use proc_lang::Catalog;
use row_batons::rerun_batons;
use std::alloc::Global;
use std::process::Abort;
use std::test::Fail;
use std::thread::Threads;
use tbl_rows::Tables;

/// The accounts before, the requests that wait, and in words their waves, what becomes of each, and
/// the accounts after.
type Example = (
    &'static [(i64, i64)],
    &'static [Again],
    &'static str,
    &'static str,
    &'static str,
);

const EXAMPLES: [Example; 10] = [
    (&[(1, 10)], &[], "", "", "1 = 10; "),
    // one of two that add to an account finished, and the other is run again
    (
        &[(1, 15), (2, 20), (3, 30)],
        &[(ADD, [1, 7], &[1], &[1])],
        "1 ",
        "done 22; ",
        "1 = 22; 2 = 20; 3 = 30; ",
    ),
    // the first run went by another row, and declared the write of account 10
    (
        &[(1, 3), (2, 20), (3, 30)],
        &[(HOP, [1, 99], &[1], &[10])],
        "1 ",
        "moved 3; ",
        "1 = 3; 2 = 20; 3 = 30; ",
    ),
    // the first run found no account 9, failed and wrote nothing
    (
        &[(1, 10), (9, 4)],
        &[(ADD, [9, 1], &[9], &[])],
        "1 ",
        "moved 9; ",
        "1 = 10; 9 = 4; ",
    ),
    // the second reads what the first writes
    (
        &[(1, 10), (2, 10), (3, 30)],
        &[(COPY, [2, 3], &[2], &[3]), (COPY, [3, 1], &[3], &[1])],
        "1 2 ",
        "done 10; done 10; ",
        "1 = 10; 2 = 10; 3 = 10; ",
    ),
    // the third writes what the first writes
    (
        &[(1, 10), (2, 20)],
        &[
            (ADD, [1, 1], &[1], &[1]),
            (ADD, [2, 5], &[2], &[2]),
            (ADD, [1, 2], &[1], &[1]),
        ],
        "1 1 2 ",
        "done 11; done 25; done 13; ",
        "1 = 13; 2 = 25; ",
    ),
    // the second writes what the first reads, and may not run before it
    (
        &[(1, 10), (2, 20)],
        &[(COPY, [1, 2], &[1], &[2]), (SET, [1, 5], &[], &[1])],
        "1 2 ",
        "done 10; done 5; ",
        "1 = 5; 2 = 10; ",
    ),
    // readers of one account share a wave; a later reader may have a lesser wave than the last one
    (
        &[(1, 10), (2, 20), (3, 30)],
        &[
            (ADD, [3, 1], &[3], &[3]),
            (COPY, [3, 2], &[3, 1], &[2]),
            (COPY, [1, 4], &[1], &[4]),
            (SET, [1, 7], &[], &[1]),
        ],
        "1 2 1 3 ",
        "done 31; done 31; done 10; done 7; ",
        "1 = 7; 2 = 31; 3 = 31; 4 = 10; ",
    ),
    // the first moves and leaves nothing, but the one behind waits for what it declared
    (
        &[(1, 2), (2, 20), (3, 30)],
        &[
            (HOP, [1, 99], &[1], &[3]),
            (ADD, [3, 4], &[3], &[3]),
            (ADD, [2, 1], &[2], &[2]),
        ],
        "1 2 1 ",
        "moved 2; done 34; done 21; ",
        "1 = 2; 2 = 21; 3 = 34; ",
    ),
    // one that fails within what it declared finishes, and leaves nothing
    (
        &[(1, 10)],
        &[(ADD, [8, 1], &[8], &[8]), (SET, [8, 6], &[], &[8])],
        "1 2 ",
        "back 1; done 6; ",
        "1 = 10; 8 = 6; ",
    ),
];

/// The waves of these requests, in words.
fn waves_found(alloc: Global, waiting: &[Waiting]) -> Result<String, Memory>
    requires { length waiting.now ≤ MOST_REQUESTS }
{
    let waves = waves(alloc, waiting)?;
    Ok(numbers_words(alloc, &waves)?)
}

/// What becomes of these requests in waves, or by rows that are handed on.
fn run_again<R: Threads + Sync>(
    rt: &R,
    alloc: Global,
    catalog: &Catalog,
    tables: Tables,
    waiting: &[Waiting],
    workers: u32,
    batons: bool,
) -> Result<(Tables, Vec<Late>), Memory>
    requires waiting { length waiting.now ≤ MOST_REQUESTS }
    requires workers { (1 ≤ workers) × (workers ≤ MOST_WORKERS) }
{
    if batons {
        return rerun_batons(rt, alloc, catalog, tables, waiting, workers, &Free);
    }
    rerun(rt, alloc, catalog, tables, waiting, workers, &Free)
}

/// What becomes of these requests on so many workers, and the accounts after, in words.
fn rerun_found<R: Threads + Sync>(
    rt: &R,
    alloc: Global,
    catalog: &Catalog,
    tables: Tables,
    waiting: &[Waiting],
    workers: u32,
    batons: bool,
) -> Result<String, Memory>
    requires waiting { length waiting.now ≤ MOST_REQUESTS }
    requires workers { (1 ≤ workers) × (workers ≤ MOST_WORKERS) }
{
    let (tables, lates) = run_again(rt, alloc, catalog, tables, waiting, workers, batons)?;
    let lates = lates_words(alloc, &lates)?;
    let left = rows_words(alloc, &tables.rows()?)?;
    Ok(format!(in alloc; "{lates}/ {left}")?)
}

/// What the example comes to on so many workers, in words.
fn found<R: Threads + Sync>(
    rt: &R,
    alloc: Global,
    catalog: &Catalog,
    example: &Example,
    workers: u32,
    batons: bool,
) -> Result<String, Fail>
    requires { (1 ≤ workers) × (workers ≤ MOST_WORKERS) }
{
    let (rows, list, _, _, _) = *example;
    let waiting = waiting(alloc, list)?;
    if waiting.len() > 10_000 {
        return Err(Fail::new("a list has at most 10,000 requests"));
    }
    let waves = waves_found(alloc, &waiting)?;
    let rerun = rerun_found(
        rt,
        alloc,
        catalog,
        tables(alloc, rows)?,
        &waiting,
        workers,
        batons,
    )?;
    Ok(format!(in alloc; "{waves}/ {rerun}")?)
}

/// Asserts that the example comes to what was worked out, on any number of workers and in both ways.
fn comes_to<R: Abort + Threads + Sync>(
    rt: &R,
    alloc: Global,
    catalog: &Catalog,
    example: &Example,
) -> Result<(), Fail> {
    let (_, _, waves, lates, left) = *example;
    let wanted = format!(in alloc; "{waves}/ {lates}/ {left}")?;
    for workers in [1, 2, 7, 64_u32] {
        for batons in [false, true] {
            let found = found(rt, alloc, catalog, example, workers, batons)?;
            same(rt, workers, batons, &found, &wanted);
        }
    }
    Ok(())
}

#[test]
fn examples_come_to_what_was_worked_out(rt: HostRuntime) -> Result<(), Fail> {
    let alloc = rt.alloc();
    let catalog = catalog(alloc)?;
    for example in &EXAMPLES {
        comes_to(&rt, alloc, &catalog, example)?;
    }
    Ok(())
}
