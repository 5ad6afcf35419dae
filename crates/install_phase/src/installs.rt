// Workers that make the writes, each in its own shards.
ghost use Rattle.std.specs.Prelude.{◌≡◌, ◌≤◌, map, IfOk};
ghost use Rattle.aria_base.specs.declared.limits.TheConstants.{MOST_WORKERS};
ghost use Rattle.install_phase.specs.Installs.{after_finishing, after_changes};

use crate::makings::Making;
use crate::puts::put_finishing;
use crate::shares::share_out;
use aria_base::{Changes, Memory, Pace};
use batch_rules::verdicts::Verdict;
use proc_exec::Outcome;
use std::alloc::Global;
use std::thread::Threads;
use tbl_rows::Tables;
use work_crew::workers_for;

/// How many requests there are for each further worker at least: to start a thread takes 19 to 31 microseconds, as long
/// as some 40 puts.
const LEAST_A_WORKER: usize = 64;

/// The tables with the writes of all that finish, one request after the other, by 1 to 64 workers, who share
/// them as [`install_changes`] says. An error: there was no memory, and the tables are gone.
pub fn install<P: Pace + Sync, R: Threads + Sync>(
    rt: &R,
    alloc: Global,
    tables: Tables,
    outcomes: Vec<Outcome>,
    verdicts: &[Verdict],
    workers: u32,
    pace: &P,
) -> Result<Tables, Memory>
    requires workers { (1 ≤ workers) × (workers ≤ MOST_WORKERS) }
    ensures { IfOk result (λ after. after ≡ after_finishing 1 tables outcomes.items verdicts.now) }
{
    let list = changes_of(alloc, outcomes)?;
    install_changes(rt, alloc, tables, list, verdicts, workers, pace)
}

/// The writes of these outcomes.
fn changes_of(alloc: Global, outcomes: Vec<Outcome>) -> Result<Vec<Changes>, Memory>
    ensures { IfOk result (λ list. list.items ≡ map (λ o. o.writes) outcomes.items) }
{
    let mut list = Vec::with_capacity(alloc, outcomes.len())?;
    for outcome in outcomes {
        list.push(outcome.writes)?;
    }
    Ok(list)
}

/// The tables with the writes of all that finish, one request after the other, where of each request its
/// writes are handed in, and nothing else. One worker makes them one after the other, also those of a short
/// list by any number, and the rows move into the tables. Each of several, up to 64, makes those to shards of its
/// own, of which it copies the rows. At no time are there more threads than shards, and none is started for one
/// worker. A worker whose thread cannot be started does its part on the thread that was to start it. An error:
/// there was no memory, and the tables are gone.
pub fn install_changes<P: Pace + Sync, R: Threads + Sync>(
    rt: &R,
    alloc: Global,
    tables: Tables,
    list: Vec<Changes>,
    verdicts: &[Verdict],
    workers: u32,
    pace: &P,
) -> Result<Tables, Memory>
    requires workers { (1 ≤ workers) × (workers ≤ MOST_WORKERS) }
    ensures { IfOk result (λ after. after ≡ after_changes 1 tables list.items verdicts.now) }
{
    let workers = workers_for(list.len(), LEAST_A_WORKER, workers);
    if workers == 1 {
        return put_finishing(tables, list, verdicts, pace);
    }
    install_by(rt, alloc, tables, &list, verdicts, workers, pace)
}

/// The same by several workers, who get some neighbours of the shards each.
fn install_by<P: Pace + Sync, R: Threads + Sync>(
    rt: &R,
    alloc: Global,
    tables: Tables,
    list: &[Changes],
    verdicts: &[Verdict],
    workers: u32,
    pace: &P,
) -> Result<Tables, Memory>
    requires workers { (1 ≤ workers) × (workers ≤ MOST_WORKERS) }
    ensures { IfOk result (λ after. after ≡ after_changes 1 tables list.now verdicts.now) }
{
    let making = Making {
        alloc,
        list,
        verdicts,
        pace,
    };
    let shards = share_out(rt, &making, tables.split(), workers)?;
    Ok(Tables::gather(shards))
}
