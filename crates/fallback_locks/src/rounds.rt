// A wave: its requests run on one snapshot, by several workers.
ghost use Rattle.std.specs.Prelude.{◌≡◌, ◌≤◌, ◌<◌, length, IfOk, All};
ghost use Rattle.aria_base.specs.declared.limits.TheConstants.{MOST_REQUESTS, MOST_WORKERS};
ghost use Rattle.proc_lang.specs.Catalogs.{run_of};
ghost use Rattle.fallback_locks.specs.Reruns.{done_at, AreDone};

use crate::dones::Done;
use aria_base::{Changes, Memory, Pace, Place};
use exec_phase::execute_within;
use proc_exec::{Late, Waiting, Within};
use proc_lang::Catalog;
use std::alloc::Global;
use std::thread::Threads;
use tbl_snapshot::Snapshot;
use work_crew::{Task, gather, workers_for};

/// How many requests of a wave there are for each further worker at least: to start a thread takes longer than
/// to run fewer again.
const LEAST_A_WORKER: usize = 8;

/// The requests at some places of the list of all that wait, on the rows that their wave finds.
#[derive(Drop)]
struct Round<'a> {
    alloc: Global,
    catalog: &'a Catalog,
    snapshot: Snapshot<'a>,
    waiting: &'a [Waiting],
    places: &'a [u32],
    count: u32,
    ghost counted: { count ≡ length places.now },
    ghost within: { All (λ p. p < length waiting.now) places.now },
}

impl<'a> Task for Round<'a> {
    ghost use Rattle.fallback_locks.specs.Reruns.{ComesTo};

    type Output = Done;

    ghost count = { λ r. length r.places.now };

    ghost gives = { λ r. ComesTo (run_of r.catalog.now) r.snapshot r.waiting.now r.places.now };

    fn len(&self) -> u32 {
        self.count
    }

    fn step(&self) -> Place {
        Place::Rerun
    }

    fn run(&self, index: u32) -> Result<Done, Memory> {
        let place = self.places[index as usize];
        let one = &self.waiting[place as usize];
        run_again(self.alloc, self.catalog, self.snapshot.copy(), place, one)
    }
}

/// What the requests at these places come to on the snapshot, in the order of the places. Fewer workers run
/// where there are few places, for few the caller alone.
pub(crate) fn run_wave<P: Pace + Sync, R: Threads + Sync>(
    rt: &R,
    alloc: Global,
    catalog: &Catalog,
    snapshot: Snapshot,
    waiting: &[Waiting],
    places: &[u32],
    workers: u32,
    pace: &P,
) -> Result<Vec<Done>, Memory>
    requires few { length places.now ≤ MOST_REQUESTS }
    requires within { All (λ p. p < length waiting.now) places.now }
    requires workers { (1 ≤ workers) × (workers ≤ MOST_WORKERS) }
    ensures { IfOk result (λ dones. AreDone (run_of catalog.now) snapshot.entry waiting.now places.now dones.items) }
{
    let round = Round {
        alloc,
        catalog,
        snapshot,
        waiting,
        places,
        count: places.len() as u32,
    };
    let workers = workers_for(places.len(), LEAST_A_WORKER, workers);
    gather(rt, alloc, &round, workers, pace)
}

/// Runs the request that stands at this place of the list within the keys that it declared. One that
/// moved writes nothing.
pub(crate) fn run_again(
    alloc: Global,
    catalog: &Catalog,
    snapshot: Snapshot,
    place: u32,
    one: &Waiting,
) -> Result<Done, Memory>
    ensures { IfOk result (λ done. done ≡ done_at (run_of catalog.now) snapshot.entry place one.now) }
{
    match execute_within(alloc, catalog, &one.request, snapshot, &one.declared)? {
        Within::Ended(outcome) => Ok(Done {
            place,
            late: Late::Finished(outcome.end),
            rows: outcome.writes,
        }),
        Within::Moved(key) => Ok(Done {
            place,
            late: Late::Moved(key),
            rows: Changes::from_vec(Vec::new(alloc)),
        }),
    }
}
