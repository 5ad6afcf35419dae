// All that wait, wave after wave.
ghost use Rattle.std.specs.Prelude.{◌≡◌, ◌≤◌, length, All, IfOk};
ghost use Rattle.aria_base.specs.Schemas.{IsConsistent};
ghost use Rattle.aria_base.specs.declared.limits.TheConstants.{MOST_REQUESTS, MOST_WORKERS};
ghost use Rattle.proc_lang.specs.Catalogs.{run_of};
ghost use Rattle.proc_exec.specs.Lates.{IsLateFold};
ghost use Rattle.dep_rules.specs.Sheets.{IsTid};
ghost use Rattle.fallback_locks.specs.Numbers.{StandFor};
ghost use Rattle.fallback_locks.specs.Reruns.{AllFit, waves_of};

use crate::groups::groups;
use crate::levels::{waves, waves_numbered};
use crate::rounds::run_wave;
use crate::settlements::settle;
use aria_base::{Memory, Pace};
use dep_rules::Numbered;
use proc_exec::{Late, Waiting};
use proc_lang::Catalog;
use std::alloc::Global;
use std::thread::Threads;
use tbl_rows::Tables;
use tbl_snapshot::Snapshot;
use work_crew::{all_of, empty_slots};

/// Runs the waiting requests, at most 10,000, again within the keys that they declared: what becomes of
/// each, in the order of the list, and the tables that they leave. Both are as if the requests ran one after
/// the other, each on what the ones before it left; one that moved leaves nothing.
///
/// The requests of a wave run at once, each of the workers, from 1 to 64, drawing the next one; of a small
/// wave fewer workers run, or the caller alone. Then their rows are installed, and the next wave runs. `pace`
/// is told `Rerun` before each run. Where the catalogue takes the calls and the rows fit it, they fit it
/// afterwards. An error: there was no memory, and the tables are gone.
pub fn rerun<P: Pace + Sync, R: Threads + Sync>(
    rt: &R,
    alloc: Global,
    catalog: &Catalog,
    tables: Tables,
    waiting: &[Waiting],
    workers: u32,
    pace: &P,
) -> Result<(Tables, Vec<Late>), Memory>
    requires waiting { length waiting.now ≤ MOST_REQUESTS }
    requires workers { (1 ≤ workers) × (workers ≤ MOST_WORKERS) }
    ensures fold { IfOk result (λ r. IsLateFold (run_of catalog.now) tables waiting.now r.1.items r.0) }
    ensures fit { AllFit catalog.now waiting.now tables → IfOk result (λ r. IsConsistent catalog.now.tables r.0) }
{
    let waves = waves(alloc, waiting)?;
    rerun_in_waves(rt, alloc, catalog, tables, waiting, &waves, workers, pace)
}

/// The same, where the keys that the requests declare are numbered: their numbers stand at these TIDs. The
/// waves are found by the numbers, so that no key is compared.
pub fn rerun_numbered<P: Pace + Sync, R: Threads + Sync>(
    rt: &R,
    alloc: Global,
    catalog: &Catalog,
    tables: Tables,
    waiting: &[Waiting],
    numbered: &Numbered,
    tids: &[u32],
    workers: u32,
    pace: &P,
) -> Result<(Tables, Vec<Late>), Memory>
    requires waiting { length waiting.now ≤ MOST_REQUESTS }
    requires tids { All (λ tid. IsTid numbered.now tid) tids.now }
    requires numbered { StandFor numbered.now tids.now waiting.now }
    requires workers { (1 ≤ workers) × (workers ≤ MOST_WORKERS) }
    ensures fold { IfOk result (λ r. IsLateFold (run_of catalog.now) tables waiting.now r.1.items r.0) }
    ensures fit { AllFit catalog.now waiting.now tables → IfOk result (λ r. IsConsistent catalog.now.tables r.0) }
{
    let waves = waves_numbered(alloc, numbered, tids)?;
    rerun_in_waves(rt, alloc, catalog, tables, waiting, &waves, workers, pace)
}

/// The same, where the requests have these waves.
fn rerun_in_waves<P: Pace + Sync, R: Threads + Sync>(
    rt: &R,
    alloc: Global,
    catalog: &Catalog,
    tables: Tables,
    waiting: &[Waiting],
    waves: &[u32],
    workers: u32,
    pace: &P,
) -> Result<(Tables, Vec<Late>), Memory>
    requires waiting { length waiting.now ≤ MOST_REQUESTS }
    requires waves { waves.now ≡ waves_of waiting.now }
    requires workers { (1 ≤ workers) × (workers ≤ MOST_WORKERS) }
    ensures fold { IfOk result (λ r. IsLateFold (run_of catalog.now) tables waiting.now r.1.items r.0) }
    ensures fit { AllFit catalog.now waiting.now tables → IfOk result (λ r. IsConsistent catalog.now.tables r.0) }
{
    let mut tables = tables;
    let groups = groups(alloc, waves)?;
    let mut lates = empty_slots(alloc, waiting.len())?;
    for group in &groups {
        let dones = run_wave(
            rt,
            alloc,
            catalog,
            Snapshot::of(&tables),
            waiting,
            group.as_slice(),
            workers,
            pace,
        )?;
        settle(&mut tables, &mut lates, dones)?;
    }
    Ok((tables, all_of(alloc, lates)?))
}
