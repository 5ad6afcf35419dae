// Accounts, requests that wait, and what one after the other comes to.
ghost use Rattle.std.specs.Prelude.{◌≤◌, length};
ghost use Rattle.aria_base.specs.declared.limits.TheConstants.{MOST_REQUESTS, MOST_WORKERS};

use aria_base::{Changes, Duplicate, Key, Keys, MOST_REQUESTS, Memory, Pace, Request, Row};
use cat_builtin::builtin;
use exec_phase::{execute, execute_within};
use proc_exec::{Declared, Late, Outcome, Waiting, Within};
use proc_lang::Catalog;
use row_batons::rerun_batons;
use std::alloc::Global;
use std::process::Abort;
use std::thread::Threads;
use tbl_rows::Tables;
use tbl_snapshot::Snapshot;
use test_banks::{Account, Ask, row_of};

/// What a test says that finds no memory.
pub const MEMORY: &str = "memory";

/// The catalogue of accounts.
pub fn bank(rt: &impl Abort, alloc: Global) -> Catalog {
    let found = builtin(alloc, b"bank").expect(rt, MEMORY);
    found.expect(rt, "a built-in catalogue")
}

/// The tables of these accounts.
pub fn tables(rt: &impl Abort, alloc: Global, accounts: &[Account]) -> Tables {
    let mut tables = Tables::new(alloc).expect(rt, MEMORY);
    for &account in accounts {
        let (key, row) = row_of(alloc, account).expect(rt, MEMORY);
        tables.put(key, row).expect(rt, MEMORY);
    }
    tables
}

/// The keys of these changes.
fn keys_of(alloc: Global, changes: &Changes) -> Result<Keys, Memory> {
    let mut keys = Vec::new(alloc);
    for change in changes.as_slice() {
        keys.push(change.0.duplicate(alloc)?)?;
    }
    Ok(Keys::from_vec(keys))
}

/// What a first run declares.
fn declared(alloc: Global, outcome: Outcome) -> Result<Declared, Memory> {
    Ok(Declared {
        writes: keys_of(alloc, &outcome.writes)?,
        reads: outcome.reads,
    })
}

/// The calls as requests that wait, each with the keys of its run on the first tables.
fn waiting_for(
    alloc: Global,
    catalog: &Catalog,
    first: &Tables,
    asks: &[Ask],
) -> Result<Vec<Waiting>, Memory> {
    let mut waiting = Vec::new(alloc);
    let mut q = 0_u64;
    for call in test_banks::calls(alloc, asks)? {
        q = q.wrapping_add(1);
        let request = Request { q, call };
        let outcome = execute(alloc, catalog, &request, Snapshot::of(first))?;
        let declared = declared(alloc, outcome)?;
        waiting.push(Waiting { request, declared })?;
    }
    Ok(waiting)
}

/// The calls, of which a batch may have so many, as requests that wait, by their runs on the first tables.
pub fn waiting(
    rt: &impl Abort,
    alloc: Global,
    catalog: &Catalog,
    first: &Tables,
    asks: &[Ask],
) -> Vec<Waiting>
    ensures { length result.items ≤ MOST_REQUESTS }
{
    let waiting = waiting_for(alloc, catalog, first, asks).expect(rt, MEMORY);
    assert!(rt;
        waiting.len() <= MOST_REQUESTS,
        "more requests than a batch has"
    );
    waiting
}

/// Sets what stands at a key.
fn place(tables: &mut Tables, key: Key, row: Option<Row>) -> Result<(), Memory> {
    match row {
        Some(row) => {
            tables.put(key, row)?;
        }
        None => {
            tables.delete(&key);
        }
    }
    Ok(())
}

/// Sets what a request leaves.
fn install(tables: &mut Tables, changes: Changes) -> Result<(), Memory> {
    for (key, row) in changes.into_vec() {
        place(tables, key, row)?;
    }
    Ok(())
}

/// What becomes of one request on the tables, which then have its rows.
fn run_one(
    alloc: Global,
    catalog: &Catalog,
    tables: &mut Tables,
    one: &Waiting,
) -> Result<Late, Memory> {
    let snapshot = Snapshot::of(tables);
    match execute_within(alloc, catalog, &one.request, snapshot, &one.declared)? {
        Within::Ended(outcome) => {
            install(tables, outcome.writes)?;
            Ok(Late::Finished(outcome.end))
        }
        Within::Moved(key) => Ok(Late::Moved(key)),
    }
}

/// One request after the other, each on what the ones before it left.
pub fn run_in_turn(
    rt: &impl Abort,
    alloc: Global,
    catalog: &Catalog,
    tables: Tables,
    waiting: &[Waiting],
) -> (Tables, Vec<Late>) {
    let mut tables = tables;
    let mut lates = Vec::new(alloc);
    for one in waiting {
        let late = run_one(alloc, catalog, &mut tables, one).expect(rt, MEMORY);
        lates.push(late).expect(rt, MEMORY);
    }
    (tables, lates)
}

/// All of them by handed rows.
pub fn run_by_batons<P: Pace + Sync, R: Abort + Threads + Sync>(
    rt: &R,
    alloc: Global,
    catalog: &Catalog,
    tables: Tables,
    waiting: &[Waiting],
    workers: u32,
    pace: &P,
) -> (Tables, Vec<Late>)
    requires waiting { length waiting.now ≤ MOST_REQUESTS }
    requires workers { (1 ≤ workers) × (workers ≤ MOST_WORKERS) }
{
    rerun_batons(rt, alloc, catalog, tables, waiting, workers, pace).expect(rt, MEMORY)
}

/// Whether both have the same rows.
pub fn are_alike(rt: &impl Abort, one: &Tables, other: &Tables) -> bool {
    let rows = one.rows().expect(rt, MEMORY);
    let others = other.rows().expect(rt, MEMORY);
    rows.as_slice() == others.as_slice()
}
