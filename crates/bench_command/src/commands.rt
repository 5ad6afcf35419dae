// The command `bench`: a drawn workload that runs, and its counts.
ghost use Rattle.std.specs.Prelude.{◌≡◌, IfOk};
ghost use Rattle.serving.specs.Lives.{state_of};
ghost use Rattle.workloads.specs.Generators.{generator_of};
ghost use Rattle.bench_command.specs.Benches.{IsInRange, ran_of};
ghost use Rattle.bench_command.specs.Summaries.{summary_of};
ghost use Rattle.bench_command.specs.Turns.{CameTo};

use crate::courses::{run_batches, run_drains};
use crate::starts::begin;
use crate::summaries::print_summary;
use crate::tallies::BLANK;
use crate::turns::Turn;
use aria_base::{Memory, Pace};
use command_words::Bench;
use dep_rules::Config;
use serving::Live;
use std::alloc::Global;
use std::thread::Threads;
use workloads::Generator;

/// Runs the workload in memory. The answer is the text of its summary, and the database behind its last
/// batch. Neither depends on workers, replicas and batons.
pub fn measure<P: Pace + Sync, R: Threads + Sync>(
    rt: &R,
    alloc: Global,
    settings: &Bench,
    pace: &P,
) -> Result<(Vec<u8>, Live), Memory>
    requires { IsInRange settings.now }
    ensures text { IfOk result (λ measured. measured.0.items ≡ summary_of settings.now) }
    ensures state { IfOk result (λ measured. state_of measured.1 ≡ (ran_of settings.now).state) }
{
    let generator = Generator::of(&settings.workload);
    let turn = run(rt, alloc, settings, &generator, pace)?;
    let text = print_summary(alloc, generator.name(), &turn)?;
    Ok((text, turn.live))
}

/// The workload behind its last batch.
fn run<P: Pace + Sync, R: Threads + Sync>(
    rt: &R,
    alloc: Global,
    settings: &Bench,
    generator: &Generator,
    pace: &P,
) -> Result<Turn, Memory>
    requires range { IsInRange settings.now }
    requires asked { generator.now ≡ generator_of settings.now.workload }
    ensures { IfOk result (CameTo (ran_of settings.now)) }
{
    let config = Config {
        rule: settings.rule,
        fallback: settings.fallback,
        workers: settings.workers,
        batons: settings.batons,
    };
    let live = begin(alloc, generator, config, settings.replicas)?;
    let start = Turn { live, tally: BLANK };
    let turn = run_batches(rt, alloc, generator, settings.workload.amount, start, pace)?;
    if !settings.drain {
        return Ok(turn);
    }
    run_drains(rt, alloc, turn, pace)
}
