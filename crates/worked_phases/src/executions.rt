// A batch that several workers run.
ghost use Rattle.std.specs.Prelude.{◌≤◌, length};
ghost use Rattle.aria_base.specs.declared.limits.TheConstants.{MOST_REQUESTS, MOST_WORKERS};

use crate::accounts::{accounts, bank, change, copies, holds, source, tables};
use aria_base::{Free, Memory, Request, Value};
use exec_phase::execute_all;
use proc_exec::Outcome;
use proc_lang::{Catalog, End, Gives};
use std::alloc::Global;
use std::process::Abort;
use std::test::Fail;
use std::thread::Threads;
use tbl_rows::Tables;
use tbl_snapshot::Snapshot;

/// What the call at this place comes to: it reads the account that it copies, with ten times its number,
/// writes that to its own account, and gives it.
fn copied(alloc: Global, place: u32) -> Result<Outcome, Memory> {
    let from = source(place);
    let gives = vec![in alloc; Value::Int(i64::from(10 * from))]?;
    Ok(Outcome {
        reads: accounts(alloc, &[from])?,
        writes: change(alloc, place.saturating_add(10), 10 * from)?,
        end: End::Done(Gives::from_vec(gives)),
    })
}

/// Asserts that so many workers give the outcomes in the order of the calls.
fn executed_by<R: Abort + Threads + Sync>(
    rt: &R,
    alloc: Global,
    catalog: &Catalog,
    tables: &Tables,
    list: &[Request],
    workers: u32,
) -> Result<(), Fail>
    requires list { length list.now ≤ MOST_REQUESTS }
    requires workers { (1 ≤ workers) × (workers ≤ MOST_WORKERS) }
{
    let snapshot = Snapshot::of(tables);
    let outcomes = execute_all(rt, alloc, catalog, snapshot, list, workers, &Free)?;
    holds(rt, "two hundred outcomes", workers, outcomes.len() == 200);
    let mut place = 0_u32;
    for outcome in &outcomes {
        let wanted = copied(alloc, place)?;
        holds(rt, "the outcome", place, *outcome == wanted);
        place = place.saturating_add(1);
    }
    Ok(())
}

#[test]
fn any_number_of_workers_gives_the_same_outcomes(rt: HostRuntime) -> Result<(), Fail> {
    let alloc = rt.alloc();
    let catalog = bank(alloc)?;
    let tables = tables(alloc, 4)?;
    let list = copies(alloc, &catalog, 200)?;
    for workers in [1, 2, 7, 64_u32] {
        executed_by(&rt, alloc, &catalog, &tables, &list, workers)?;
    }
    Ok(())
}
