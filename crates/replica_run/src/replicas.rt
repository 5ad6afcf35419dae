// Engines that run the same batches at once.
ghost use Rattle.std.specs.Prelude.{◌≡◌, ◌≤◌, ◌∷◌, length, drop, slice_get, Some, IfOk};
ghost use Rattle.std.specs.List.{All};
ghost use Rattle.aria_base.specs.declared.limits.TheConstants.{MOST_REPLICAS};
ghost use Rattle.replica_run.specs.Replicas.{MayRun, AreAfter, IsSerialFor, IsProgressFor, answer_of, unmarked};

use crate::at_once::run_all;
use crate::jobs::take_apart;
use aria_base::{Call, Items, Memory, Pace};
use batch_core::Answer;
use batch_engine::Engine;
use dep_rules::Config;
use std::alloc::Global;
use std::marker::Model;
use std::thread::Threads;

/// A list of engines.
pub type Engines = Items<Engine>;

/// One database in one to eight engines, which are alike but for what each of them marked.
#[derive(Drop)]
pub struct Replicas {
    engines: Vec<Engine>,
}

impl Model for Replicas {
    ghost use Rattle.std.specs.Prelude.{List};
    ghost use Rattle.std.specs.Coded.{coded_list};
    ghost use Rattle.batch_engine.specs.Codes.{between_code};
    ghost use Rattle.batch_engine.specs.Engines.{Between};
    ghost use Rattle.replica_run.specs.Replicas.{AreAlike};

    ghost Value = { List Between };

    ghost coded = { coded_list between_code };

    ghost view = { λ a. a.engines.items };

    ghost invariant = { λ a. AreAlike a.engines.items };
}

impl Replicas {
    /// This engine and copies of it, `count` engines in all, from 1 to 8. An error: there was no memory for
    /// a copy.
    pub fn begin(alloc: Global, first: Engine, count: u32) -> Result<Replicas, Memory>
        requires { (1 ≤ count) × (count ≤ MOST_REPLICAS) }
        ensures first { IfOk result (λ replicas. slice_get replicas 0 ≡ Some first) }
        ensures copies { IfOk result (λ replicas. All (λ copy. copy ≡ unmarked first) (drop 1 replicas)) }
        ensures count { IfOk result (λ replicas. length replicas ≡ count) }
    {
        let copies = copies_of(alloc, &first, count - 1)?;
        let engines = with_first(alloc, first, copies)?;
        let replicas = Replicas { engines };
        Ok(replicas)
    }

    /// Runs the next batch on every engine, all at once, each by so many workers as the settings say, from 1
    /// to 64. The catalogue takes the calls; with what waits they are at most 10,000, and no number passes
    /// 2^62. Each engine has then run the batch and marked it itself. The answer is that of each of them,
    /// its order is a serial run, and the first request of the list finishes. An error: there was no memory,
    /// and the engines are gone.
    pub fn run_batch<P: Pace + Sync, R: Threads + Sync>(
        self,
        rt: &R,
        alloc: Global,
        new: Vec<Call>,
        config: &Config,
        pace: &P,
    ) -> Result<(Replicas, Answer), Memory>
        requires { All (MayRun config.now new.items) self }
        ensures each { IfOk result (λ r. AreAfter config.now new.items self r.0) }
        ensures answer { IfOk result (λ r. All (λ before. r.1 ≡ answer_of config.now new.items before) self) }
        ensures serial { IfOk result (λ r. All (IsSerialFor config.now new.items r.1) self) }
        ensures progress { IfOk result (λ r. All (IsProgressFor config.now new.items r.1) self) }
    {
        let Replicas { engines } = self;
        let rans = run_all(rt, alloc, engines, Items::from_vec(new), config, pace)?;
        let (engines, answer) = take_apart(alloc, rans)?;
        let replicas = Replicas { engines };
        Ok((replicas, answer))
    }

    /// The first engine, like which all others are but for what they marked. No memory.
    pub fn first(&self) -> &Engine
        ensures first { slice_get self.now 0 ≡ Some result.now }
        ensures alike { All (λ engine. unmarked engine ≡ unmarked result.now) self.now }
    {
        let first = head(&self.engines);
        first
    }

    /// How many engines there are, from 1 to 8. No memory.
    pub fn count(&self) -> u32
        ensures count { result ≡ length self.now }
        ensures within { (1 ≤ result) × (result ≤ MOST_REPLICAS) }
    {
        self.engines.len() as u32
    }

    /// All engines by value, the first one first. No memory.
    pub fn parts(self) -> Engines
        ensures { result ≡ self }
    {
        Items::from_vec(self.engines)
    }
}

/// So many copies of an engine.
fn copies_of(alloc: Global, engine: &Engine, count: u32) -> Result<Vec<Engine>, Memory>
    ensures same { IfOk result (λ copies. All (λ copy. copy ≡ unmarked engine.now) copies.items) }
    ensures count { IfOk result (λ copies. length copies.items ≡ count) }
{
    let mut copies = Vec::with_capacity(alloc, count as usize)?;
    for _ in 0..count {
        copies.push(engine.copy(alloc)?)?;
    }
    Ok(copies)
}

/// The engine, and then the others.
fn with_first(alloc: Global, first: Engine, mut others: Vec<Engine>) -> Result<Vec<Engine>, Memory>
    ensures { IfOk result (λ engines. engines.items ≡ first ∷ others.items) }
{
    let mut engines = Vec::with_capacity(alloc, others.len() + 1)?;
    engines.push(first)?;
    engines.append(&mut others)?;
    Ok(engines)
}

/// The first of at least one engine.
fn head(engines: &Vec<Engine>) -> &Engine
    requires { 1 ≤ length engines.now.items }
    ensures { slice_get engines.now.items 0 ≡ Some result.now }
{
    &engines[0]
}
