// The batches of a workload, one after the other, and those that run what waits in the end.
ghost use Rattle.std.specs.Prelude.{◌≡◌, ◌≤◌, [], IfOk};
ghost use Rattle.serving.specs.Lives.{plan_of, state_of};
ghost use Rattle.workloads.specs.Generators.{IsWithin, first_draws};
ghost use Rattle.workloads.specs.Generators as load;
ghost use Rattle.bench_command.specs.Benches.{all_drained, batches_ran};
ghost use Rattle.bench_command.specs.Turns.{Came, Stands};

use crate::turns::Turn;
use aria_base::{Memory, Pace};
use command_words::Amount;
use std::alloc::Global;
use std::thread::Threads;
use workloads::Generator;

/// More batches than any workload has with those that run what waits: 1,000, and one for each of 10,000
/// requests.
pub(crate) const MOST_BATCHES: u64 = 1 << 16;

/// Runs so many batches of the workload.
pub(crate) fn run_batches<P: Pace + Sync, R: Threads + Sync>(
    rt: &R,
    alloc: Global,
    generator: &Generator,
    amount: Amount,
    start: Turn,
    pace: &P,
) -> Result<Turn, Memory>
    requires within { IsWithin generator.now }
    requires stands { Stands (load.plan_of generator.now) start }
    requires first { (state_of start.live).batches ≡ 0 }
    requires few { amount.batches ≤ 1000 }
    ensures came { IfOk result (Came start (batches_ran generator.now amount.size amount.batches (state_of start.live) (first_draws generator.now))) }
    ensures stands { IfOk result (Stands (load.plan_of generator.now)) }
    ensures few { IfOk result (λ turn. (state_of turn.live).batches ≤ 1000) }
{
    let mut draws = generator.draws();
    let mut turn = start;
    for _ in 0..amount.batches {
        turn = turn.next(rt, alloc, generator, amount.size, &mut draws, pace)?;
    }
    Ok(turn)
}

/// Runs batches without new requests until nothing waits.
pub(crate) fn run_drains<P: Pace + Sync, R: Threads + Sync>(
    rt: &R,
    alloc: Global,
    start: Turn,
    pace: &P,
) -> Result<Turn, Memory>
    requires stands { Stands (plan_of start.live) start }
    requires few { (state_of start.live).batches ≤ 1000 }
    ensures came { IfOk result (Came start (all_drained (plan_of start.live) (state_of start.live))) }
    ensures drained { IfOk result (λ turn. (state_of turn.live).waiting ≡ []) }
{
    let mut turn = start;
    for _ in 0..turn.live.waiting() {
        if turn.live.waiting() == 0 {
            return Ok(turn);
        }
        turn = turn.drained(rt, alloc, pace)?;
    }
    Ok(turn)
}
