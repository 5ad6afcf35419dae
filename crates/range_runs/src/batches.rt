// Runs of all works of a batch on one snapshot, by several workers.
ghost use Rattle.std.specs.Prelude.{◌≡◌, ◌≤◌, IfOk, length, map};
ghost use Rattle.aria_base.specs.declared.limits.TheConstants.{MOST_WORKERS};
ghost use Rattle.proc_lang.specs.Catalogs.{run_of};
ghost use Rattle.range_rules.specs.Courses.{ran_on};
ghost use Rattle.range_rules.specs.declared.routines.TheConstants.{MOST_WORKS};
ghost use Rattle.range_runs.specs.Indexes.{IsIndexOf};

use crate::indexes::Index;
use crate::procs::Procs;
use crate::runs::run_work;
use aria_base::{Memory, Pace, Place};
use proc_lang::Catalog;
use range_rules::{NumberedWork, Ran, Routine};
use std::alloc::Global;
use std::thread::Threads;
use tbl_snapshot::Snapshot;
use work_crew::{Task, gather, workers_for};

/// To start a thread takes as long as to run some four works of ten accesses each.
const LEAST_A_WORKER: usize = 16;

/// The works of a batch, to be run on the rows that it begins with.
#[derive(Drop)]
struct Works<'a, C: Procs, R: Routine> {
    alloc: Global,
    procs: &'a C,
    routines: &'a R,
    snapshot: Snapshot<'a>,
    index: &'a Index,
    list: &'a [NumberedWork],
    count: u32,
    ghost counted: { count ≡ length list.now },
    ghost indexed: { IsIndexOf index.now snapshot },
}

impl<'a, C: Procs, R: Routine> Task for Works<'a, C, R> {
    ghost use Rattle.std.specs.Prelude.{◌≡◌, length, slice_index_or};
    ghost use Rattle.range_rules.specs.declared.routines.NumberedWork.{NumberedWork as Asked};
    ghost use Rattle.range_rules.specs.Courses.{ran_on};

    type Output = Ran;

    ghost count = { λ w. length w.list.now };

    ghost gives = { λ w place ran. (d : Asked) → ran ≡ ran_on (C.tree w.procs.now) (R.act w.routines.now) w.snapshot (slice_index_or w.list.now place d) };

    fn len(&self) -> u32 {
        self.count
    }

    fn step(&self) -> Place {
        Place::Execute
    }

    fn run(&self, place: u32) -> Result<Ran, Memory> {
        run_work(
            self.alloc,
            self.procs,
            self.routines,
            &self.list[place as usize],
            self.snapshot.copy(),
            self.index,
        )
    }
}

/// What each work comes to on the snapshot, in the order of the list, which has at most 1,000. The index has
/// the snapshot's keys. The workers, from 1 to 64, draw the works one by one, so that none waits for another;
/// fewer of them run a short list. An error: there was no memory.
pub fn run_all<R: Routine + Sync, P: Pace + Sync, T: Threads + Sync>(
    rt: &T,
    alloc: Global,
    catalog: &Catalog,
    routines: &R,
    snapshot: Snapshot,
    index: &Index,
    list: &[NumberedWork],
    workers: u32,
    pace: &P,
) -> Result<Vec<Ran>, Memory>
    requires index { IsIndexOf index.now snapshot }
    requires list { length list.now ≤ MOST_WORKS }
    requires workers { (1 ≤ workers) × (workers ≤ MOST_WORKERS) }
    ensures { IfOk result (λ all. all.items ≡ map (ran_on (run_of catalog.now) (R.act routines.now) snapshot.entry) list.now) }
{
    run_by(
        rt, alloc, catalog, routines, snapshot, index, list, workers, pace,
    )
}

/// The same with procedures of any kind, behind a type parameter as routines are: that threads may share the
/// two is then found.
fn run_by<C: Procs + Sync, R: Routine + Sync, P: Pace + Sync, T: Threads + Sync>(
    rt: &T,
    alloc: Global,
    procs: &C,
    routines: &R,
    snapshot: Snapshot,
    index: &Index,
    list: &[NumberedWork],
    workers: u32,
    pace: &P,
) -> Result<Vec<Ran>, Memory>
    requires index { IsIndexOf index.now snapshot }
    requires list { length list.now ≤ MOST_WORKS }
    requires workers { (1 ≤ workers) × (workers ≤ MOST_WORKERS) }
    ensures { IfOk result (λ all. all.items ≡ map (ran_on (C.tree procs.now) (R.act routines.now) snapshot.entry) list.now) }
{
    let works = Works {
        alloc,
        procs,
        routines,
        snapshot,
        index,
        list,
        count: list.len() as u32,
    };
    let workers = workers_for(list.len(), LEAST_A_WORKER, workers);
    gather(rt, alloc, &works, workers, pace)
}
