// That two workers are at work at the same time in each phase, and the steps that each tells of.
ghost use Rattle.std.specs.Prelude.{◌≤◌};
ghost use Rattle.aria_base.specs.declared.limits.TheConstants.{MOST_WORKERS};

use crate::accounts::{bank, change, copies, holds, sets, tables};
use aria_base::{Pace, Place};
use batch_rules::verdicts::{Cause, Verdict};
use dep_rules::Sets;
use exec_phase::execute_all;
use install_phase::install_changes;
use key_numbering::{may_be_numbered, number};
use resv_phase::reserve;
use std::alloc::Global;
use std::process::Abort;
use std::test::Fail;
use std::thread::Threads;
use tbl_snapshot::Snapshot;
use test_paces::{Gate, Steps};

/// Asserts how many of each kind were told: draws, executions, marks, installs, runs again.
fn told(rt: &impl Abort, what: &str, steps: &Steps, wanted: [u64; 5]) {
    let found = [
        steps.told(Place::Draw),
        steps.told(Place::Execute),
        steps.told(Place::Mark),
        steps.told(Place::Install),
        steps.told(Place::Rerun),
    ];
    holds(rt, what, 3, found == wanted);
}

/// Asserts that two workers met at the gate, and how many steps there were.
fn met(rt: &impl Abort, gate: &Gate, steps: u64) {
    holds(rt, "both are there", 0, !gate.was_missed());
    holds(rt, "the steps are told", 0, gate.steps() == steps);
}

/// A hundred calls are run at this pace.
fn execute_hundred<R: Threads + Sync, P: Pace + Sync>(
    rt: &R,
    alloc: Global,
    workers: u32,
    pace: &P,
) -> Result<(), Fail>
    requires { (1 ≤ workers) × (workers ≤ MOST_WORKERS) }
{
    let catalog = bank(alloc)?;
    let tables = tables(alloc, 4)?;
    let list = copies(alloc, &catalog, 100)?;
    let _outcomes = execute_all(
        rt,
        alloc,
        &catalog,
        Snapshot::of(&tables),
        &list,
        workers,
        pace,
    )?;
    Ok(())
}

/// Five thousand requests, so many that three workers mark them: each reads one of ten accounts, and each from the
/// 2,501st on writes one.
fn many_sets(alloc: Global) -> Result<Vec<Sets>, Fail> {
    let mut list = Vec::new(alloc);
    for place in 0..5_000_u32 {
        let account = [place % 10];
        let written = if place < 2_500 { 0 } else { 1 };
        list.push(sets(alloc, &account, &account[..written])?)?;
    }
    Ok(list)
}

/// They are marked at this pace.
fn mark_many<R: Abort + Threads + Sync, P: Pace + Sync>(
    rt: &R,
    alloc: Global,
    workers: u32,
    pace: &P,
) -> Result<(), Fail>
    requires { (1 ≤ workers) × (workers ≤ MOST_WORKERS) }
{
    let sets = many_sets(alloc)?;
    if !may_be_numbered(&sets) {
        panic!(rt; "too many sets");
    }
    let numbered = number(alloc, &sets)?;
    let _closed = reserve(rt, alloc, &numbered, Vec::new(alloc), 0, workers, pace)?;
    Ok(())
}

/// A hundred writes, each to an account of its own, of which each fourth waits, are installed at this
/// pace.
fn install_hundred<R: Threads + Sync, P: Pace + Sync>(
    rt: &R,
    alloc: Global,
    workers: u32,
    pace: &P,
) -> Result<(), Fail>
    requires { (1 ≤ workers) × (workers ≤ MOST_WORKERS) }
{
    let mut list = Vec::new(alloc);
    let mut verdicts = Vec::new(alloc);
    for number in 0..100_u32 {
        list.push(change(alloc, number, 7)?)?;
        let waits = number % 4 == 3;
        verdicts.push(if waits {
            Verdict::Wait(Cause::Waw(1))
        } else {
            Verdict::Finish { raw: false }
        })?;
    }
    let tables = tables(alloc, 4)?;
    let _after = install_changes(rt, alloc, tables, list, &verdicts, workers, pace)?;
    Ok(())
}

#[test]
fn two_workers_meet_before_their_first_run(rt: HostRuntime) -> Result<(), Fail> {
    let gate = Gate::before(Place::Execute);
    execute_hundred(&rt, rt.alloc(), 2, &gate)?;
    met(&rt, &gate, 100);
    Ok(())
}

#[test]
fn two_workers_meet_before_their_first_mark(rt: HostRuntime) -> Result<(), Fail> {
    let gate = Gate::before(Place::Mark);
    mark_many(&rt, rt.alloc(), 2, &gate)?;
    met(&rt, &gate, 7_500);
    Ok(())
}

#[test]
fn two_workers_meet_before_their_first_write(rt: HostRuntime) -> Result<(), Fail> {
    let gate = Gate::before(Place::Install);
    install_hundred(&rt, rt.alloc(), 2, &gate)?;
    met(&rt, &gate, 75);
    Ok(())
}

#[test]
fn each_step_is_told(rt: HostRuntime) -> Result<(), Fail> {
    let alloc = rt.alloc();
    let steps = Steps::new();
    execute_hundred(&rt, alloc, 3, &steps)?;
    told(&rt, "runs", &steps, [103, 100, 0, 0, 0]);
    let steps = Steps::new();
    mark_many(&rt, alloc, 3, &steps)?;
    told(&rt, "marks", &steps, [5_003, 0, 7_500, 0, 0]);
    let steps = Steps::new();
    install_hundred(&rt, alloc, 3, &steps)?;
    told(&rt, "writes", &steps, [0, 0, 0, 75, 0]);
    Ok(())
}
