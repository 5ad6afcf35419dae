// Runs of all requests of a batch on one snapshot, by several workers.
ghost use Rattle.std.specs.Prelude.{◌≡◌, ◌≤◌, IfOk, length, map};
ghost use Rattle.aria_base.specs.declared.limits.TheConstants.{MOST_REQUESTS, MOST_WORKERS};
ghost use Rattle.proc_lang.specs.Catalogs.{run_of};
ghost use Rattle.proc_exec.specs.Outcomes.{outcome_at};

use crate::executions::execute;
use aria_base::{Memory, Pace, Place, Request};
use proc_exec::Outcome;
use proc_lang::Catalog;
use std::alloc::Global;
use std::thread::Threads;
use tbl_snapshot::Snapshot;
use work_crew::{Task, gather, workers_for};

/// To start a thread takes as long as to run some four requests of ten accesses each: 19 to 31 microseconds, against
/// 7 of a request.
const LEAST_A_WORKER: usize = 16;

/// The requests of a batch, on the rows that it begins with.
#[derive(Drop)]
struct Executions<'a> {
    alloc: Global,
    catalog: &'a Catalog,
    snapshot: Snapshot<'a>,
    list: &'a [Request],
    count: u32,
    ghost counted: { count ≡ length list.now },
}

impl<'a> Task for Executions<'a> {
    ghost use Rattle.exec_phase.specs.Batches.{ComesTo};

    type Output = Outcome;

    ghost count = { λ e. length e.list.now };

    ghost gives = { λ e. ComesTo (outcome_at (run_of e.catalog.now) e.snapshot) e.list.now };

    fn len(&self) -> u32 {
        self.count
    }

    fn step(&self) -> Place {
        Place::Execute
    }

    fn run(&self, place: u32) -> Result<Outcome, Memory> {
        execute(
            self.alloc,
            self.catalog,
            &self.list[place as usize],
            self.snapshot.copy(),
        )
    }
}

/// What each request comes to on the snapshot, in the order of the list, which has at most 10,000. The
/// workers, from 1 to 64, draw the requests one by one, so that none waits for another; no outcome is
/// copied. Fewer workers run a short list, for a very short one the caller alone. An error: there was no memory.
pub fn execute_all<P: Pace + Sync, R: Threads + Sync>(
    rt: &R,
    alloc: Global,
    catalog: &Catalog,
    snapshot: Snapshot,
    list: &[Request],
    workers: u32,
    pace: &P,
) -> Result<Vec<Outcome>, Memory>
    requires list { length list.now ≤ MOST_REQUESTS }
    requires workers { (1 ≤ workers) × (workers ≤ MOST_WORKERS) }
    ensures { IfOk result (λ all. all.items ≡ map (outcome_at (run_of catalog.now) snapshot.entry) list.now) }
{
    let task = Executions {
        alloc,
        catalog,
        snapshot,
        list,
        count: list.len() as u32,
    };
    let workers = workers_for(list.len(), LEAST_A_WORKER, workers);
    gather(rt, alloc, &task, workers, pace)
}
