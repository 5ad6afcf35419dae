// The command `mix`: batches of all five requests, and what they came to.
ghost use Rattle.std.specs.Prelude.{◌≡◌, IfOk};
ghost use Rattle.tpcc_routines.specs.Sound.{IsSound};
ghost use Rattle.workloads.specs.Laws.{IsMixAsked};
ghost use Rattle.mix_command.specs.Courses.{last_stage};
ghost use Rattle.mix_command.specs.Summaries.{summary_of};
ghost use Rattle.mix_command.specs.Turns.{stage_of};

use crate::summaries::print_summary;
use crate::turns::Turn;
use aria_base::{MOST_PERCENT, Memory, Pace};
use command_words::Mix;
use dep_rules::Config;
use std::alloc::Global;
use std::thread::Threads;
use workloads::orders_of;

/// Runs the mix in memory, and answers what is printed of it. The answer does not depend on the workers. Its last line
/// says that the audit holds of the rows in the end, and so it does.
pub fn measure<P: Pace + Sync, R: Threads + Sync>(
    rt: &R,
    alloc: Global,
    settings: &Mix,
    pace: &P,
) -> Result<Vec<u8>, Memory>
    requires { IsMixAsked settings.now }
    ensures text { IfOk result (λ text. text.items ≡ summary_of settings.now) }
    ensures sound { IfOk result (λ text. IsSound (last_stage settings.now).mix.rows) }
{
    let turn = run(rt, alloc, settings, pace)?;
    turn.mix.ready();
    print_summary(alloc, &turn)
}

/// The mix behind its last batch.
fn run<P: Pace + Sync, R: Threads + Sync>(
    rt: &R,
    alloc: Global,
    settings: &Mix,
    pace: &P,
) -> Result<Turn, Memory>
    requires { IsMixAsked settings.now }
    ensures { IfOk result (λ turn. stage_of turn ≡ last_stage settings.now) }
{
    let orders = orders_of(settings.amount, settings.stock);
    let config = Config {
        rule: settings.rule,
        fallback: MOST_PERCENT,
        workers: settings.workers,
        batons: false,
    };
    let mut turn = Turn::begin(alloc, &orders)?;
    for _ in 0..settings.amount.batches {
        turn = turn.next(rt, alloc, &orders, settings.amount.size, &config, pace)?;
    }
    Ok(turn)
}
