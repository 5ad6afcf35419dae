// All that wait, by rows that are handed on.
ghost use Rattle.std.specs.Prelude.{◌≡◌, ◌≤◌, length, All, IfOk};
ghost use Rattle.aria_base.specs.Orders.{key_cmp};
ghost use Rattle.aria_base.specs.declared.limits.TheConstants.{MOST_REQUESTS, MOST_WORKERS};
ghost use Rattle.std.specs.Option.{option_copied};
ghost use Rattle.batch_rules.specs.Touches.{overwritten};
ghost use Rattle.proc_exec.specs.Lates.{IsLateFold};
ghost use Rattle.aria_base.specs.Schemas.{IsConsistent};
ghost use Rattle.dep_rules.specs.Sheets.{IsTid};
ghost use Rattle.fallback_locks.specs.Numbers.{StandFor};
ghost use Rattle.fallback_locks.specs.Reruns.{AllFit};
ghost use Rattle.proc_exec.specs.Limits.{touchable};
ghost use Rattle.proc_lang.specs.Catalogs.{run_of};
ghost use Rattle.row_batons.specs.Fallbacks.{IsLaidOut, touches_in};
ghost use Rattle.row_batons.specs.Numbers.{AreNumbersOf};
ghost use Rattle.row_batons.specs.Windows.{paired, rows_in};

use crate::installs::install;
use crate::keyed::numbers_of;
use crate::layouts::touches_of;
use crate::numbers::{Numbers, numbers_at};
use crate::slots::slots_of;
use crate::windows::run_on;
use aria_base::{Duplicate, Key, Memory, Pace, Row};
use baton_crew::{Course, Lists, relay};
use dep_rules::Numbered;
use proc_exec::{Late, Waiting};
use proc_lang::Catalog;
use std::alloc::Global;
use std::thread::Threads;
use tbl_rows::Tables;
use tbl_snapshot::Snapshot;

/// Waiting requests as a course: a slot for each key that one of them may write.
#[derive(Drop)]
struct Fallback<'a> {
    alloc: Global,
    catalog: &'a Catalog,
    snapshot: Snapshot<'a>,
    waiting: &'a [Waiting],
    keys: &'a [Key],
    touches: &'a Lists<usize>,
    ghost counted: { length touches.now ≡ length waiting.now },
    ghost laid: { IsLaidOut key_cmp (λ w. touchable w.declared) waiting.now keys.now (touches_in touches.now) },
}

impl<'a> Course for Fallback<'a> {
    ghost use Rattle.proc_lang.specs.Catalogs.{run_of};
    ghost use Rattle.row_batons.specs.Fallbacks.{touches_in, late_course, Fates};

    type Row = Option<Row>;

    type Output = Late;

    ghost plan = { λ f. late_course (run_of f.catalog.now) f.snapshot f.waiting.now f.keys.now (touches_in f.touches.now) };

    ghost gives = { λ f. Fates (run_of f.catalog.now) f.snapshot f.waiting.now };

    fn items(&self) -> u32 {
        self.waiting.len() as u32
    }

    fn slots(&self) -> usize {
        self.keys.len()
    }

    fn touches(&self, item: u32) -> &[usize] {
        self.touches.list(item as usize)
    }

    fn blank(&self) -> Option<Row> {
        None
    }

    fn run(&self, item: u32, rows: &mut Vec<Option<Row>>) -> Result<Late, Memory> {
        let one = &self.waiting[item as usize];
        let touched = self.touches.list(item as usize);
        run_on(
            self.alloc,
            self.catalog,
            self.snapshot.copy(),
            one,
            self.keys,
            touched,
            rows,
        )
    }
}

/// The rows at the keys.
fn first_rows(alloc: Global, tables: &Tables, keys: &[Key]) -> Result<Vec<Option<Row>>, Memory>
    ensures { IfOk result (λ rows. rows.items ≡ rows_in tables.now keys.now) }
{
    let mut rows = Vec::with_capacity(alloc, keys.len())?;
    for key in keys {
        rows.push(copied(alloc, tables.get(key))?)?;
    }
    Ok(rows)
}

/// A row that was found, as a value of its own.
fn copied(alloc: Global, found: Option<&Row>) -> Result<Option<Row>, Memory>
    ensures { IfOk result (λ row. row ≡ option_copied found.entry) }
{
    match found {
        Some(row) => Ok(Some(row.duplicate(alloc)?)),
        None => Ok(None),
    }
}

/// What becomes of the requests, and the rows of all slots at the end.
fn relayed<P: Pace + Sync, R: Threads + Sync>(
    rt: &R,
    alloc: Global,
    catalog: &Catalog,
    tables: &Tables,
    waiting: &[Waiting],
    keys: &[Key],
    touches: &Lists<usize>,
    workers: u32,
    pace: &P,
) -> Result<(Vec<Option<Row>>, Vec<Late>), Memory>
    requires counted { length touches.now ≡ length waiting.now }
    requires laid { IsLaidOut key_cmp (λ w. touchable w.declared) waiting.now keys.now (touches_in touches.now) }
    requires workers { (1 ≤ workers) × (workers ≤ MOST_WORKERS) }
    ensures rows { IfOk result (λ r. length r.0.items ≡ length keys.now) }
    ensures fold { IfOk result (λ r. IsLateFold (run_of catalog.now) tables.now waiting.now r.1.items (overwritten tables.now (paired keys.now r.0.items))) }
{
    let rows = first_rows(alloc, tables, keys)?;
    let fallback = Fallback {
        alloc,
        catalog,
        snapshot: Snapshot::of(tables),
        waiting,
        keys,
        touches,
    };
    relay(rt, alloc, &fallback, rows, workers, pace)
}

/// Runs the requests again, by the numbers of the keys that they declare.
fn rerun_by<P: Pace + Sync, R: Threads + Sync>(
    rt: &R,
    alloc: Global,
    catalog: &Catalog,
    tables: Tables,
    waiting: &[Waiting],
    numbers: &Numbers,
    workers: u32,
    pace: &P,
) -> Result<(Tables, Vec<Late>), Memory>
    requires waiting { length waiting.now ≤ MOST_REQUESTS }
    requires numbers { AreNumbersOf numbers.now.reads numbers.now.writes numbers.now.keys waiting.now }
    requires workers { (1 ≤ workers) × (workers ≤ MOST_WORKERS) }
    ensures fold { IfOk result (λ r. IsLateFold (run_of catalog.now) tables waiting.now r.1.items r.0) }
    ensures fit { AllFit catalog.now waiting.now tables → IfOk result (λ r. IsConsistent catalog.now.tables r.0) }
{
    let slots = slots_of(alloc, waiting, &numbers.writes, numbers.keys)?;
    let touches = touches_of(alloc, slots.table(), slots.len(), numbers)?;
    let keys = slots.into_keys();
    let (rows, lates) = relayed(
        rt, alloc, catalog, &tables, waiting, &keys, &touches, workers, pace,
    )?;
    let mut tables = tables;
    install(&mut tables, keys, rows)?;
    Ok((tables, lates))
}

/// Runs the waiting requests, at most 10,000, again within the keys that they declared: what becomes of each, in the
/// order of the list, and the tables that they leave. Both are as if the requests ran one after the other, each on
/// what the ones before it left; one that moved leaves nothing.
///
/// A request runs as soon as those before it have handed on the rows that it may touch. No worker, of 1 to 64, waits
/// for a row. `pace` is told `Rerun` before each run. Where the catalogue takes the calls and the rows fit it, they fit
/// it afterwards. An error: there was no memory, and the tables are gone.
pub fn rerun_batons<P: Pace + Sync, R: Threads + Sync>(
    rt: &R,
    alloc: Global,
    catalog: &Catalog,
    tables: Tables,
    waiting: &[Waiting],
    workers: u32,
    pace: &P,
) -> Result<(Tables, Vec<Late>), Memory>
    requires waiting { length waiting.now ≤ MOST_REQUESTS }
    requires workers { (1 ≤ workers) × (workers ≤ MOST_WORKERS) }
    ensures fold { IfOk result (λ r. IsLateFold (run_of catalog.now) tables waiting.now r.1.items r.0) }
    ensures fit { AllFit catalog.now waiting.now tables → IfOk result (λ r. IsConsistent catalog.now.tables r.0) }
{
    let numbers = numbers_of(alloc, waiting)?;
    rerun_by(rt, alloc, catalog, tables, waiting, &numbers, workers, pace)
}

/// The same as [`rerun_batons`] where the declared keys have numbers already, which stand at these TIDs. No key is
/// compared then.
pub fn rerun_batons_numbered<P: Pace + Sync, R: Threads + Sync>(
    rt: &R,
    alloc: Global,
    catalog: &Catalog,
    tables: Tables,
    waiting: &[Waiting],
    numbered: &Numbered,
    tids: &[u32],
    workers: u32,
    pace: &P,
) -> Result<(Tables, Vec<Late>), Memory>
    requires waiting { length waiting.now ≤ MOST_REQUESTS }
    requires tids { All (λ tid. IsTid numbered.now tid) tids.now }
    requires numbered { StandFor numbered.now tids.now waiting.now }
    requires workers { (1 ≤ workers) × (workers ≤ MOST_WORKERS) }
    ensures fold { IfOk result (λ r. IsLateFold (run_of catalog.now) tables waiting.now r.1.items r.0) }
    ensures fit { AllFit catalog.now waiting.now tables → IfOk result (λ r. IsConsistent catalog.now.tables r.0) }
{
    let numbers = numbers_at(alloc, numbered, tids)?;
    rerun_by(rt, alloc, catalog, tables, waiting, &numbers, workers, pace)
}
