// A batch up to the end of its commit phase.
ghost use Rattle.std.specs.Prelude.{◌≡◌, ◌≤◌, ◌++◌, List, [], ◌∷◌, length, IfOk, OnOk};
ghost use Rattle.std.specs.List.{All};
ghost use Rattle.aria_base.specs.declared.limits.TheConstants.{MOST_WORKERS};
ghost use Rattle.proc_lang.specs.Catalogs.{IsCatalog, run_of};
ghost use Rattle.range_rules.specs.declared.routines.TheConstants.{MOST_WORKS};
ghost use Rattle.range_runs.specs.Indexes.{IsIndexOf, followed_all};
ghost use Rattle.range_suits.specs.Laws.{IsWell};
ghost use Rattle.range_resv.specs.Commits.{IsCommitted};
ghost use Rattle.range_resv.specs.Lists.{finishing_among};

use crate::lists::take_apart;
use aria_base::{Changes, Memory, Pace};
use batch_rules::verdicts::Verdict;
use dep_rules::Config;
use install_phase::install_changes;
use proc_lang::{Catalog, End};
use range_marks::judge;
use range_rules::{NumberedWork, Routine};
use range_runs::{Index, run_all};
use std::alloc::Global;
use std::thread::Threads;
use tbl_rows::Tables;
use tbl_snapshot::Snapshot;

/// What the commit phase leaves.
#[derive(Drop)]
pub(crate) struct Committed {
    /// The rows, with the writes of all that finish.
    pub tables: Tables,
    /// The keys of these rows.
    pub index: Index,
    /// How each work ended on the batch's start.
    pub ends: Vec<End>,
    /// Whether each finishes.
    pub verdicts: Vec<Verdict>,
}

/// Runs the works of the list on the rows, decides which of them finish, and installs their writes. The
/// index has the keys of the rows.
pub(crate) fn commit<R: Routine + Sync, P: Pace + Sync, T: Threads + Sync>(
    rt: &T,
    alloc: Global,
    catalog: &Catalog,
    routines: &R,
    tables: Tables,
    index: Index,
    list: &[NumberedWork],
    config: &Config,
    pace: &P,
) -> Result<Committed, Memory>
    requires catalog { IsCatalog catalog.now }
    requires list { length list.now ≤ MOST_WORKS }
    requires index { IsIndexOf index tables }
    requires well { All (λ w. IsWell catalog.now (R.taken routines.now) (R.act routines.now) w tables) list.now }
    requires workers { (1 ≤ config.now.workers) × (config.now.workers ≤ MOST_WORKERS) }
    ensures { IfOk result (IsCommitted (run_of catalog.now) (R.act routines.now) config.now.rule tables list.now) }
{
    let workers = config.workers;
    let start = Snapshot::of(&tables);
    let rans = run_all(
        rt, alloc, catalog, routines, start, &index, list, workers, pace,
    )?;
    let verdicts = judge(rt, alloc, &rans, config.rule, workers, pace)?;
    let runs = take_apart(alloc, rans)?;
    let index = follow_all(alloc, index, &runs.changes, &verdicts)?;
    let tables = install_changes(rt, alloc, tables, runs.changes, &verdicts, workers, pace)?;
    Ok(Committed {
        tables,
        index,
        ends: runs.ends,
        verdicts,
    })
}

/// The index after the writes of all that finish, one work after the other.
fn follow_all(
    alloc: Global,
    mut index: Index,
    changes: &[Changes],
    verdicts: &[Verdict],
) -> Result<Index, Memory>
    ensures { IfOk result (λ after. after ≡ followed_all index (finishing_among changes.now verdicts.now)) }
{
    let mut rest = verdicts;
    for one in changes {
        let Some((verdict, later)) = rest.split_first() else {
            return Ok(index);
        };
        rest = later;
        follow_if_it_finishes(alloc, &mut index, one, verdict)?;
    }
    Ok(index)
}

/// Follows the writes of a work where it finishes.
fn follow_if_it_finishes(
    alloc: Global,
    index: &mut Index,
    changes: &Changes,
    verdict: &Verdict,
) -> Result<(), Memory>
    ensures { OnOk result (index.new ≡ followed_all index.old (finishing_among (changes.now ∷ []) (verdict.now ∷ []))) }
{
    match verdict {
        Verdict::Finish { raw: _ } => index.follow(alloc, changes.as_slice()),
        Verdict::Wait(_) => Ok(()),
    }
}
