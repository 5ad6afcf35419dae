// One call: what it comes to, on the catalogue and on a copy, and copies of that.
use crate::windows::run_through;
use crate::words::Words;
use crate::wrongs::Wrong;
use aria_base::{Duplicate, Free, MOST_WORKERS, Memory, Request};
use exec_phase::{execute, execute_all, execute_within};
use proc_exec::{Declared, Late, Outcome, Ran, Waiting, Within};
use proc_lang::Catalog;
use std::alloc::Global;
use std::thread::Threads;
use tbl_rows::Tables;
use tbl_snapshot::Snapshot;

/// How many workers run the requests of a procedure at once.
const CREWS: [u32; 4] = [1, 2, 7, 64];

/// Asks that a copy passes for the first by `==`.
fn ask_copy<T: Duplicate + PartialEq>(alloc: Global, first: &T) -> Result<(), Wrong> {
    if first.duplicate(alloc)? == *first {
        return Ok(());
    }
    Err(Wrong::Form("a copy of what it comes to is another"))
}

/// What a request comes to on these rows. A copy of the catalogue has to come to the same.
pub fn run(
    alloc: Global,
    catalog: &Catalog,
    tables: &Tables,
    request: &Request,
) -> Result<Outcome, Wrong> {
    let outcome = execute(alloc, catalog, request, Snapshot::of(tables))?;
    ask_copy(alloc, &outcome)?;
    if is_same_on_copy(alloc, catalog, tables, request, &outcome)? {
        return Ok(outcome);
    }
    Err(Wrong::Form("a copy of the catalogue comes to something else"))
}

fn is_same_on_copy(
    alloc: Global,
    catalog: &Catalog,
    tables: &Tables,
    request: &Request,
    outcome: &Outcome,
) -> Result<bool, Memory> {
    let copy = catalog.copy(alloc)?;
    Ok(execute(alloc, &copy, request, Snapshot::of(tables))? == *outcome)
}

/// What a request comes to on these rows within declared keys.
pub fn run_within(
    alloc: Global,
    catalog: &Catalog,
    tables: &Tables,
    request: &Request,
    declared: &Declared,
) -> Result<Within, Wrong> {
    let within = execute_within(alloc, catalog, request, Snapshot::of(tables), declared)?;
    ask_copy(alloc, &within)?;
    ask_copy(alloc, declared)?;
    ask_copy(alloc, &waiting(alloc, request, declared)?)?;
    Ok(within)
}

/// The request, which waits with these keys declared.
fn waiting(alloc: Global, request: &Request, declared: &Declared) -> Result<Waiting, Memory> {
    Ok(Waiting {
        request: request.duplicate(alloc)?,
        declared: declared.duplicate(alloc)?,
    })
}

/// Adds what a request comes to through a window, within declared keys if there are any.
pub fn add_run_through(
    alloc: Global,
    catalog: &Catalog,
    request: &Request,
    declared: Option<&Declared>,
    out: &mut String,
) -> Result<(), Wrong> {
    let ran = run_through(alloc, catalog, request, declared, out)?;
    ask_copy(alloc, &ran)?;
    ran.add(catalog.schema().as_slice(), out)?;
    ask_copy(alloc, &late(ran))
}

/// What becomes of a waiting request whose run again comes to this.
fn late(ran: Ran) -> Late {
    match ran {
        Ran::Ended(end) => Late::Finished(end),
        Ran::Moved(key) => Late::Moved(key),
    }
}

/// Asks that any number of workers brings each request to the outcome that it had alone.
pub fn ask_crews<R: Threads + Sync>(
    rt: &R,
    alloc: Global,
    catalog: &Catalog,
    tables: &Tables,
    requests: &[Request],
    outcomes: &[Outcome],
) -> Result<(), Wrong> {
    for workers in CREWS {
        let found = run_all(rt, alloc, catalog, tables, requests, workers)?;
        if found.as_slice() != outcomes {
            return Err(Wrong::Form("several workers come to something else"));
        }
    }
    Ok(())
}

/// What so many workers make of the requests.
fn run_all<R: Threads + Sync>(
    rt: &R,
    alloc: Global,
    catalog: &Catalog,
    tables: &Tables,
    requests: &[Request],
    workers: u32,
) -> Result<Vec<Outcome>, Memory> {
    if requests.len() > 1000 {
        return Err(Memory);
    }
    let workers = workers.clamp(1, MOST_WORKERS);
    execute_all(
        rt,
        alloc,
        catalog,
        Snapshot::of(tables),
        requests,
        workers,
        &Free,
    )
}
