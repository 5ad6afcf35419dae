// A batch from its verdicts to its answer.
ghost use Rattle.std.specs.Prelude.{◌≡◌, ◌≤◌, ◌<◌, length, map, IfOk};
ghost use Rattle.aria_base.specs.declared.limits.TheConstants.{MOST_PERCENT, MOST_REQUESTS, MOST_WORKERS};
ghost use Rattle.proc_lang.specs.Catalogs.{run_of};
ghost use Rattle.dep_rules.specs.Decisions.{reads_of, writes_of};
ghost use Rattle.batch_engine.specs.Judgements.{IsJudged, IsSettled};
ghost use Rattle.batch_engine.specs.Lists.{sets_in};
ghost use Rattle.batch_engine.specs.Marks.{NumbersKeys};

use crate::answers::{lines_of, order_of};
use crate::judgements::Judgement;
use crate::lates::run_late;
use crate::lists::{numbers_of, take_apart, tids_of};
use aria_base::{Items, Memory, Pace, Request};
use batch_core::{Order, Replies};
use dep_rules::{Config, Numbered};
use install_phase::install_changes;
use proc_lang::Catalog;
use std::alloc::Global;
use std::thread::Threads;
use tbl_rows::Tables;

/// What a batch comes to.
#[derive(Drop)]
pub(crate) struct Settled {
    /// The rows that it leaves.
    pub tables: Tables,
    /// The requests that wait for the next batch.
    pub carried: Vec<Request>,
    /// A line for each request of its list.
    pub lines: Replies,
    /// The requests that finished, as they count as run.
    pub order: Order,
}

/// Installs the writes of all that finish, runs again what waits, where that is due, and makes the answer.
pub(crate) fn settle<P: Pace + Sync, R: Threads + Sync>(
    rt: &R,
    alloc: Global,
    catalog: &Catalog,
    tables: Tables,
    list: Vec<Request>,
    judgement: Judgement,
    numbered: &Numbered,
    config: &Config,
    pace: &P,
) -> Result<Settled, Memory>
    requires list { length list.items ≤ MOST_REQUESTS }
    requires outcomes { length judgement.outcomes.items ≡ length list.items }
    requires verdicts { length judgement.verdicts.items ≡ length list.items }
    requires numbered { NumbersKeys reads_of writes_of (map sets_in judgement.outcomes.items) numbered.now }
    requires percent { config.now.fallback ≤ MOST_PERCENT }
    requires workers { (1 ≤ config.now.workers) × (config.now.workers ≤ MOST_WORKERS) }
    ensures { IfOk result (λ settled. IsJudged (run_of catalog.now) config.now.rule tables list.items judgement
        → IsSettled (run_of catalog.now) config.now.rule config.now.fallback tables list.items settled) }
{
    let Judgement { outcomes, verdicts } = judgement;
    let numbers = numbers_of(alloc, &list)?;
    let tids = tids_of(alloc, &verdicts)?;
    // the keys of all that finish are freed before the install takes the cache
    let runs = take_apart(alloc, list, outcomes, &verdicts)?;
    let size = verdicts.len();
    let workers = config.workers;
    let installed = install_changes(rt, alloc, tables, runs.changes, &verdicts, workers, pace)?;
    let after = run_late(
        rt,
        alloc,
        catalog,
        installed,
        runs.waiting,
        numbered,
        &tids,
        size,
        config,
        pace,
    )?;
    let lines = lines_of(alloc, &numbers, runs.ends, &verdicts, after.lates)?;
    let order = order_of(alloc, &numbers, &verdicts, &lines)?;
    Ok(Settled {
        tables: after.tables,
        carried: after.carried,
        lines: Items::from_vec(lines),
        order: Items::from_vec(order),
    })
}
