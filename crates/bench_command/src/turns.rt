// A workload between two of its batches.
ghost use Rattle.std.specs.Prelude.{◌≡◌, ◌<◌, ◌≤◌, ◌*◌, [], IfOk, OnOk};
ghost use Rattle.aria_base.specs.declared.limits.TheConstants.{MOST_REQUESTS};
ghost use Rattle.serving.specs.Lives.{IsRunnable, MayServe, plan_of, state_of};
ghost use Rattle.workloads.specs.Generators.{IsWithin};
ghost use Rattle.workloads.specs.Generators as load;
ghost use Rattle.bench_command.specs.Benches.{calls_at};
ghost use Rattle.bench_command.specs.Turns.{IsBehind, Stands};
ghost use Rattle.bench_command.specs.declared.courses.TheConstants.{MOST_BATCHES};

use crate::tallies::Tally;
use aria_base::{Call, Draws, MOST_REQUESTS, Memory, Pace};
use serving::Live;
use std::alloc::Global;
use std::thread::Threads;
use workloads::Generator;

/// A workload between two of its batches: the database, and what was counted so far.
#[derive(Drop)]
pub(crate) struct Turn {
    pub live: Live,
    pub tally: Tally,
}

impl Turn {
    /// Behind the next batch of the workload, which has so many new requests, or as many as there is room
    /// for beside those that wait.
    pub fn next<P: Pace + Sync, R: Threads + Sync>(
        self,
        rt: &R,
        alloc: Global,
        generator: &Generator,
        size: u32,
        draws: &mut Draws,
        pace: &P,
    ) -> Result<Turn, Memory>
        requires within { IsWithin generator.now }
        requires stands { Stands (load.plan_of generator.now) self }
        requires early { (state_of self.live).batches < MOST_BATCHES }
        ensures behind { IfOk result (IsBehind self (calls_at generator.now size (state_of self.live) draws.old).0) }
        ensures stands { IfOk result (Stands (load.plan_of generator.now)) }
        ensures past { OnOk result (draws.new ≡ (calls_at generator.now size (state_of self.live) draws.old).1) }
    {
        let calls = draw_calls(alloc, generator, &self.live, size, draws)?;
        self.with(rt, alloc, calls, pace)
    }

    /// Behind a batch without new requests.
    pub fn drained<P: Pace + Sync, R: Threads + Sync>(
        self,
        rt: &R,
        alloc: Global,
        pace: &P,
    ) -> Result<Turn, Memory>
        requires stands { Stands (plan_of self.live) self }
        requires early { (state_of self.live).batches < MOST_BATCHES }
        ensures behind { IfOk result (IsBehind self []) }
        ensures stands { IfOk result (Stands (plan_of self.live)) }
    {
        self.with(rt, alloc, Vec::new(alloc), pace)
    }

    /// Behind a batch of these calls and what waits.
    fn with<P: Pace + Sync, R: Threads + Sync>(
        self,
        rt: &R,
        alloc: Global,
        calls: Vec<Call>,
        pace: &P,
    ) -> Result<Turn, Memory>
        requires may { MayServe self.live calls.items }
        requires stands { Stands (plan_of self.live) self }
        requires early { (state_of self.live).batches < MOST_BATCHES }
        ensures behind { IfOk result (IsBehind self calls.items) }
        ensures stands { IfOk result (Stands (plan_of self.live)) }
    {
        let Turn { live, tally } = self;
        let (live, answer) = live.run(rt, alloc, calls, pace)?;
        let tally = tally.with(answer.lines.as_slice());
        Ok(Turn { live, tally })
    }
}

/// The calls of the next batch of the workload, so many, or as many as there is room for.
fn draw_calls(
    alloc: Global,
    generator: &Generator,
    live: &Live,
    size: u32,
    draws: &mut Draws,
) -> Result<Vec<Call>, Memory>
    requires within { IsWithin generator.now }
    requires plan { plan_of live.now ≡ load.plan_of generator.now }
    requires runnable { IsRunnable live.now }
    requires early { (state_of live.now).batches < MOST_BATCHES }
    requires numbered { (state_of live.now).requests ≤ MOST_REQUESTS * (state_of live.now).batches }
    ensures calls { IfOk result (λ calls. calls.items ≡ (calls_at generator.now size (state_of live.now) draws.old).0) }
    ensures past { OnOk result (draws.new ≡ (calls_at generator.now size (state_of live.now) draws.old).1) }
    ensures may { IfOk result (λ calls. MayServe live.now calls.items) }
{
    let number = live.batches() + 1;
    let room = (MOST_REQUESTS - live.waiting()) as u32;
    generator.batch(alloc, draws, number, size.min(room))
}
