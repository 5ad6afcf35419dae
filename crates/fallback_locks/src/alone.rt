// One request that waits, run again alone.
ghost use Rattle.std.specs.Prelude.{◌≡◌, IfOk, OnOk};
ghost use Rattle.batch_rules.specs.Batches.{late_fate, late_map};
ghost use Rattle.proc_lang.specs.Catalogs.{run_of};
ghost use Rattle.proc_lang.specs.Meaning.{is_done};
ghost use Rattle.proc_exec.specs.Lates.{fate_of};
ghost use Rattle.proc_exec.specs.Limits.{touchable};

use crate::rounds::run_again;
use aria_base::Memory;
use proc_exec::{Late, Waiting};
use proc_lang::Catalog;
use std::alloc::Global;
use tbl_rows::Tables;
use tbl_snapshot::{Snapshot, put_changes};

/// Runs one waiting request again within the keys that it declared, and installs the rows that it writes: what
/// becomes of it. One that moved, failed or trapped leaves the tables as they are.
///
/// All that wait, run so one after the other, come to what [`rerun`](crate::rerun) makes of them, without waves.
/// That is the shorter way for a single worker. An error: there was no memory, and a part of the rows may be
/// installed.
pub fn rerun_alone(
    alloc: Global,
    catalog: &Catalog,
    tables: &mut Tables,
    one: &Waiting,
) -> Result<Late, Memory>
    ensures fate { IfOk result (λ late. fate_of late ≡ late_fate (touchable one.now.declared) (run_of catalog.now one.now.request) tables.old) }
    ensures rows { OnOk result (tables.new ≡ late_map is_done (touchable one.now.declared) (run_of catalog.now one.now.request) tables.old) }
{
    let done = run_again(alloc, catalog, Snapshot::of(tables), 0, one)?;
    put_changes(tables, done.rows)?;
    Ok(done.late)
}
