// What is handed to the engines of a batch, and what comes back.
ghost use Rattle.std.specs.Prelude.{◌≡◌, ◌≤◌, ◌++◌, ◌∷◌, [], map, length, IfOk, OnOk};
ghost use Rattle.std.specs.List.{All};
ghost use Rattle.std.specs.declared.result.Result.TheVariants.{Ok};
ghost use Rattle.replica_run.specs.Jobs.{job_of};

use aria_base::{Call, Duplicate, Items, Memory};
use batch_core::Answer;
use batch_engine::Engine;
use std::alloc::Global;

/// An engine with the calls that it is to run.
#[derive(Drop)]
pub(crate) struct Job {
    pub engine: Engine,
    pub calls: Items<Call>,
}

/// An engine after a batch, with its answer.
#[derive(Drop)]
pub(crate) struct Ran {
    pub engine: Engine,
    pub answer: Answer,
}

/// Each engine with the calls. All get a copy but the last one, which gets them as they are.
#[tactic(auto, using(crate::proofs::Pairs::map_behind))]
pub(crate) fn hand_out(
    alloc: Global,
    engines: Vec<Engine>,
    calls: Items<Call>,
) -> Result<Vec<Job>, Memory>
    requires { 1 ≤ length engines.items }
    ensures { IfOk result (λ jobs. jobs.items ≡ map (job_of calls) engines.items) }
{
    let mut jobs = Vec::with_capacity(alloc, engines.len())?;
    let (others, last) = split_last(engines);
    copy_out(alloc, &mut jobs, others, &calls)?;
    jobs.push(Job {
        engine: last,
        calls,
    })?;
    Ok(jobs)
}

/// The last item, and those before it.
fn split_last<T>(mut all: Vec<T>) -> (Vec<T>, T)
    requires { 1 ≤ length all.items }
    ensures { all.items ≡ result.0.items ++ result.1 ∷ [] }
{
    let last = all.pop().unwrap();
    (all, last)
}

/// Appends each engine with a copy of the calls.
fn copy_out(
    alloc: Global,
    jobs: &mut Vec<Job>,
    engines: Vec<Engine>,
    calls: &Items<Call>,
) -> Result<(), Memory>
    ensures { OnOk result (jobs.new.items ≡ jobs.old.items ++ map (job_of calls.now) engines.items) }
{
    for engine in engines {
        jobs.push(Job {
            engine,
            calls: calls.duplicate(alloc)?,
        })?;
    }
    Ok(())
}

/// All results, where none is out of memory.
pub(crate) fn all_of<T: Drop>(
    alloc: Global,
    results: Vec<Result<T, Memory>>,
) -> Result<Vec<T>, Memory>
    ensures { IfOk result (λ all. map Ok all.items ≡ results.items) }
{
    let mut all = Vec::with_capacity(alloc, results.len())?;
    for one in results {
        all.push(one?)?;
    }
    Ok(all)
}

/// The engines, and their answer, which is the same of all.
#[tactic(auto, using(crate::proofs::Pairs::map_behind))]
pub(crate) fn take_apart(alloc: Global, rans: Vec<Ran>) -> Result<(Vec<Engine>, Answer), Memory>
    requires { 1 ≤ length rans.items }
    ensures engines { IfOk result (λ r. r.0.items ≡ map (λ ran. ran.engine) rans.items) }
    ensures answer { IfOk result (λ r. (one : Answer) → All (λ ran. ran.answer ≡ one) rans.items → r.1 ≡ one) }
{
    let (others, last) = split_last(rans);
    let Ran { engine, answer } = last;
    let mut engines = engines_of(alloc, others)?;
    engines.push(engine)?;
    Ok((engines, answer))
}

/// The engines of these.
fn engines_of(alloc: Global, rans: Vec<Ran>) -> Result<Vec<Engine>, Memory>
    ensures { IfOk result (λ engines. engines.items ≡ map (λ ran. ran.engine) rans.items) }
{
    let mut engines = Vec::with_capacity(alloc, rans.len() + 1)?;
    for ran in rans {
        engines.push(ran.engine)?;
    }
    Ok(engines)
}
