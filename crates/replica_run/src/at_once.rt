// Engines that run a batch at once.
ghost use Rattle.std.specs.Prelude.{◌≡◌, ◌≤◌, ◌<◌, ℕ, length, slice_index_or, IfOk};
ghost use Rattle.std.specs.List.{All};
ghost use Rattle.replica_run.specs.Jobs.{IsDoable, HasRun, HaveRun};
ghost use Rattle.replica_run.specs.Replicas.{MayRun};

use crate::jobs::{Job, Ran, all_of, hand_out};
use aria_base::{Call, Items, Memory, Pace};
use batch_engine::Engine;
use dep_rules::Config;
use std::alloc::Global;
use std::thread::{self, Threads};

/// The engines after the batch, each with its answer. Each runs on a thread of its own, the last one
/// on that of the caller, who also does the work of a thread that cannot be started.
pub(crate) fn run_all<P: Pace + Sync, R: Threads + Sync>(
    rt: &R,
    alloc: Global,
    engines: Vec<Engine>,
    calls: Items<Call>,
    config: &Config,
    pace: &P,
) -> Result<Vec<Ran>, Memory>
    requires some { 1 ≤ length engines.items }
    requires may { All (MayRun config.now calls) engines.items }
    ensures { IfOk result (λ rans. HaveRun config.now calls engines.items rans.items) }
{
    let jobs = hand_out(alloc, engines, calls)?;
    let results = do_all(rt, alloc, jobs, config, pace)?;
    let rans = all_of(alloc, results)?;
    Ok(rans)
}

/// What each job comes to.
fn do_all<P: Pace + Sync, R: Threads + Sync>(
    rt: &R,
    alloc: Global,
    jobs: Vec<Job>,
    config: &Config,
    pace: &P,
) -> Result<Vec<Result<Ran, Memory>>, Memory>
    requires doable { All (IsDoable config.now) jobs.items }
    ensures len { IfOk result (λ results. length results.items ≡ length jobs.items) }
    ensures each { IfOk result (λ results. (i : ℕ) (d : _) (e : _) → i < length jobs.items
        → IfOk (slice_index_or results.items i e) (HasRun config.now (slice_index_or jobs.items i d))) }
{
    let results = thread::map_vec(
        rt,
        jobs,
        &|job: Job| -> Result<Ran, Memory>
            requires { IsDoable config.now job }
            ensures { IfOk result (HasRun config.entry.now job) }
        { do_one(rt, alloc, job, config, pace) },
    )?;
    Ok(results)
}

/// What the engine of a job comes to by its calls.
fn do_one<P: Pace + Sync, R: Threads + Sync>(
    rt: &R,
    alloc: Global,
    job: Job,
    config: &Config,
    pace: &P,
) -> Result<Ran, Memory>
    requires { IsDoable config.now job }
    ensures { IfOk result (HasRun config.now job) }
{
    let Job { engine, calls } = job;
    let (engine, answer) = engine.run_batch(rt, alloc, calls.into_vec(), config, pace)?;
    Ok(Ran { engine, answer })
}
