// A batch up to its verdicts.
ghost use Rattle.std.specs.Prelude.{◌≡◌, ◌≤◌, length, map, IfOk, Some};
ghost use Rattle.aria_base.specs.declared.limits.TheConstants.{MOST_REQUESTS, MOST_WORKERS};
ghost use Rattle.dep_rules.specs.Decisions.{reads_of, writes_of};
ghost use Rattle.proc_lang.specs.Catalogs.{run_of};
ghost use Rattle.batch_engine.specs.Judgements.{IsJudged};
ghost use Rattle.batch_engine.specs.Lasts.{marks_of};
ghost use Rattle.batch_engine.specs.Lists.{sets_in};
ghost use Rattle.batch_engine.specs.Marks.{HasMarked, NumbersKeys};

use crate::lists::touched_by;
use crate::markings::mark;
use crate::marks::Marked;
use crate::verdicts::decide_all;
use aria_base::{Memory, Pace, Request};
use batch_rules::verdicts::Verdict;
use dep_rules::Config;
use exec_phase::execute_all;
use proc_exec::Outcome;
use proc_lang::Catalog;
use proc_sound::touches_few;
use std::alloc::Global;
use std::thread::Threads;
use tbl_rows::Tables;
use tbl_snapshot::Snapshot;

/// What is known of the requests of a batch before a write of theirs is installed.
#[derive(Drop)]
pub(crate) struct Judgement {
    /// What each request of the list comes to on the batch's start.
    pub outcomes: Vec<Outcome>,
    /// Whether each finishes.
    pub verdicts: Vec<Verdict>,
}

/// Runs the requests of the list on the rows, and decides which of them finish.
pub(crate) fn judge<P: Pace + Sync, R: Threads + Sync>(
    rt: &R,
    alloc: Global,
    catalog: &Catalog,
    tables: &Tables,
    list: &[Request],
    config: &Config,
    pace: &P,
) -> Result<(Marked, Judgement), Memory>
    requires list { length list.now ≤ MOST_REQUESTS }
    requires workers { (1 ≤ config.now.workers) × (config.now.workers ≤ MOST_WORKERS) }
    ensures marked { IfOk result (λ r. HasMarked (run_of catalog.now) tables.now list.now (Some (marks_of r.0))) }
    ensures numbered { IfOk result (λ r. NumbersKeys reads_of writes_of (map sets_in r.1.outcomes.items) r.0.numbered) }
    ensures judged { IfOk result (λ r. IsJudged (run_of catalog.now) config.now.rule tables.now list.now r.1) }
{
    touches_few();
    let workers = config.workers;
    let start = Snapshot::of(tables);
    let outcomes = execute_all(rt, alloc, catalog, start, list, workers, pace)?;
    let touched = touched_by(alloc, &outcomes)?;
    let last = mark(rt, alloc, &touched, workers, pace)?;
    drop(touched);
    let Marked { numbered, closed } = &last;
    let (words, tag) = (closed.words(), closed.tag());
    let verdicts = decide_all(rt, alloc, numbered, words, tag, config.rule, workers)?;
    Ok((last, Judgement { outcomes, verdicts }))
}
