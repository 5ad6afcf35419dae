// The late run at the end of a batch, where enough requests wait.
ghost use Rattle.std.specs.Prelude.{◌≡◌, ◌≤◌, length, map, drop, All, IfOk};
ghost use Rattle.batch_rules.specs.Batches.{has_ended};
ghost use Rattle.aria_base.specs.declared.limits.TheConstants.{MOST_PERCENT, MOST_REQUESTS, MOST_WORKERS};
ghost use Rattle.proc_lang.specs.Catalogs.{run_of};
ghost use Rattle.proc_exec.specs.Lates.{IsLateFold, fate_of};
ghost use Rattle.dep_rules.specs.Sheets.{IsTid};
ghost use Rattle.fallback_locks.specs.Numbers.{StandFor};
ghost use Rattle.batch_engine.specs.Answers.{still_waiting, first_ended};
ghost use Rattle.batch_engine.specs.Lates.{is_due, LateRun};

use aria_base::{Memory, Pace, Place, Request};
use dep_rules::{Config, Numbered};
use fallback_locks::{rerun_alone, rerun_numbered};
use proc_exec::{Late, Waiting};
use proc_lang::Catalog;
use row_batons::rerun_batons_numbered;
use std::alloc::Global;
use std::thread::Threads;
use tbl_rows::Tables;

/// Of fewer requests no wave is worth a thread, so that they are run in turn: waves want lists of their own, and to start
/// a thread takes as long as to run some four requests again.
const LEAST_IN_WAVES: usize = 32;

/// Whether of `size` requests so many wait that they are run again.
fn is_due(percent: u32, waiting: usize, size: usize) -> bool
    requires percent { percent ≤ MOST_PERCENT }
    requires waiting { waiting ≤ MOST_REQUESTS }
    requires size { size ≤ MOST_REQUESTS }
    ensures { result ≡ is_due percent waiting size }
{
    0 < waiting && percent as usize * size <= waiting * 100
}

/// What a late run comes to.
#[derive(Drop)]
pub(crate) struct AfterLate {
    /// The rows that it leaves.
    pub tables: Tables,
    /// What became of each request that waited; nothing where no late run was due.
    pub lates: Vec<Late>,
    /// The requests that wait for the next batch.
    pub carried: Vec<Request>,
}

/// Runs again what waits, where that is due. Where it is not, the rows stay as they are, and all go on waiting.
pub(crate) fn run_late<P: Pace + Sync, R: Threads + Sync>(
    rt: &R,
    alloc: Global,
    catalog: &Catalog,
    tables: Tables,
    waiting: Vec<Waiting>,
    numbered: &Numbered,
    tids: &[u32],
    size: usize,
    config: &Config,
    pace: &P,
) -> Result<AfterLate, Memory>
    requires waiting { length waiting.items ≤ size }
    requires tids { All (λ tid. IsTid numbered.now tid) tids.now }
    requires numbered { StandFor numbered.now tids.now waiting.items }
    requires size { size ≤ MOST_REQUESTS }
    requires percent { config.now.fallback ≤ MOST_PERCENT }
    requires workers { (1 ≤ config.now.workers) × (config.now.workers ≤ MOST_WORKERS) }
    ensures late { IfOk result (λ after. LateRun (run_of catalog.now) (is_due config.now.fallback (length waiting.items) size) tables waiting.items after.tables (map fate_of after.lates.items)) }
    ensures carried { IfOk result (λ after. after.carried.items ≡ still_waiting waiting.items (map fate_of after.lates.items)) }
{
    if !is_due(config.fallback, waiting.len(), size) {
        let lates = Vec::new(alloc);
        let carried = carry(alloc, waiting, &lates)?;
        return Ok(AfterLate {
            tables,
            lates,
            carried,
        });
    }
    if runs_in_turn(config, waiting.len()) {
        return rerun_in_turn(alloc, catalog, tables, waiting, pace);
    }
    let (tables, lates) = rerun_all(
        rt, alloc, catalog, tables, &waiting, numbered, tids, config, pace,
    )?;
    let carried = carry(alloc, waiting, &lates)?;
    Ok(AfterLate {
        tables,
        lates,
        carried,
    })
}

/// Whether so many requests that wait are run again one after the other: by one worker, or where they are few.
fn runs_in_turn(config: &Config, waiting: usize) -> bool {
    config.workers == 1 || !config.batons && waiting < LEAST_IN_WAVES
}

/// Runs all that wait again on the caller, one after the other. The keys of each are dropped behind its run, while
/// they are still in the cache.
fn rerun_in_turn<P: Pace>(
    alloc: Global,
    catalog: &Catalog,
    tables: Tables,
    waiting: Vec<Waiting>,
    pace: &P,
) -> Result<AfterLate, Memory>
    ensures fold { IfOk result (λ after. IsLateFold (run_of catalog.now) tables waiting.items after.lates.items after.tables) }
    ensures carried { IfOk result (λ after. after.carried.items ≡ still_waiting waiting.items (map fate_of after.lates.items)) }
{
    let mut tables = tables;
    let mut lates = Vec::with_capacity(alloc, waiting.len())?;
    let mut carried = Vec::new(alloc);
    for one in waiting {
        pace.at(0, Place::Rerun);
        let late = rerun_alone(alloc, catalog, &mut tables, &one)?;
        if !has_ended(&late) {
            carried.push(one.request)?;
        }
        lates.push(late)?;
    }
    Ok(AfterLate {
        tables,
        lates,
        carried,
    })
}

/// Whether a request that ran again has ended.
fn has_ended(late: &Late) -> bool
    ensures { result ≡ has_ended (fate_of late.now) }
{
    match late {
        Late::Finished(_) => true,
        Late::Moved(_) => false,
    }
}

/// Runs all that wait again by several workers, in the way that the settings say.
fn rerun_all<P: Pace + Sync, R: Threads + Sync>(
    rt: &R,
    alloc: Global,
    catalog: &Catalog,
    tables: Tables,
    waiting: &[Waiting],
    numbered: &Numbered,
    tids: &[u32],
    config: &Config,
    pace: &P,
) -> Result<(Tables, Vec<Late>), Memory>
    requires waiting { length waiting.now ≤ MOST_REQUESTS }
    requires tids { All (λ tid. IsTid numbered.now tid) tids.now }
    requires numbered { StandFor numbered.now tids.now waiting.now }
    requires workers { (1 ≤ config.now.workers) × (config.now.workers ≤ MOST_WORKERS) }
    ensures { IfOk result (λ r. IsLateFold (run_of catalog.now) tables waiting.now r.1.items r.0) }
{
    let workers = config.workers;
    if config.batons {
        return rerun_batons_numbered(
            rt, alloc, catalog, tables, waiting, numbered, tids, workers, pace,
        );
    }
    rerun_numbered(
        rt, alloc, catalog, tables, waiting, numbered, tids, workers, pace,
    )
}

/// Of the requests that wait, those that still do after these results, for the next batch's list.
fn carry(alloc: Global, waiting: Vec<Waiting>, lates: &[Late]) -> Result<Vec<Request>, Memory>
    ensures { IfOk result (λ carried. carried.items ≡ still_waiting waiting.items (map fate_of lates.now)) }
{
    let mut carried = Vec::with_capacity(alloc, waiting.len())?;
    let mut rest = lates;
    for one in waiting {
        let (late, later) = first_of(rest);
        rest = later;
        if !late {
            carried.push(one.request)?;
        }
    }
    Ok(carried)
}

/// Whether the first of these results is an end, and the results behind it.
fn first_of(lates: &[Late]) -> (bool, &[Late])
    ensures ended { result.0 ≡ first_ended (map fate_of lates.now) }
    ensures rest { map fate_of result.1.now ≡ drop 1 (map fate_of lates.now) }
{
    match lates.split_first() {
        Some((late, rest)) => (has_ended(late), rest),
        None => (false, lates),
    }
}
