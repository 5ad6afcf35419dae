// The mix between two of its batches.
ghost use Rattle.std.specs.Prelude.{◌≡◌, ◌≤◌, ◌<◌, ◌+◌, ◌*◌, IfOk, OnOk};
ghost use Rattle.aria_base.specs.declared.limits.TheConstants.{MOST_WORKERS};
ghost use Rattle.load_gen.specs.Draws.{times};
ghost use Rattle.range_rules.specs.declared.routines.TheConstants.{MOST_WORKS};
ghost use Rattle.tpcc_load.specs.Heads.{IsWithin};
ghost use Rattle.tpcc_routines.specs.Mixes.{request};
ghost use Rattle.mix_command.specs.Courses.{behind, first_stage, new_works, works_at};
ghost use Rattle.mix_command.specs.Turns.{IsEarly, MayRun, stage_of};

use aria_base::{Draws, Memory, Pace};
use bench_command::{BLANK, Tally};
use dep_rules::Config;
use range_rules::Work;
use std::alloc::Global;
use std::thread::Threads;
use tpcc_load::Tpcc;
use tpcc_more::{Mix, more_batch};
use workloads::Generator;

/// More batches than may be asked for.
pub(crate) const MOST_BATCHES: u64 = 1 << 16;

/// The mix between two of its batches: the database, the words that are still to be drawn, and what was counted.
#[derive(Drop)]
pub(crate) struct Turn {
    pub mix: Mix,
    pub draws: Draws,
    pub tally: Tally,
}

impl Turn {
    /// Before the first batch.
    pub fn begin(alloc: Global, orders: &Tpcc) -> Result<Turn, Memory>
        requires { IsWithin orders.now }
        ensures first { IfOk result (λ turn. stage_of turn ≡ first_stage orders.now) }
        ensures early { IfOk result (λ turn. IsEarly (stage_of turn)) }
    {
        let mix = Mix::head(alloc, orders)?;
        let draws = Generator::Tpcc(*orders).draws();
        Ok(Turn {
            mix,
            draws,
            tally: BLANK,
        })
    }

    /// Behind the next batch, which has so many new works, or as many as there is room for beside those that wait.
    pub fn next<P: Pace + Sync, R: Threads + Sync>(
        self,
        rt: &R,
        alloc: Global,
        orders: &Tpcc,
        size: u32,
        config: &Config,
        pace: &P,
    ) -> Result<Turn, Memory>
        requires within { IsWithin orders.now }
        requires workers { (1 ≤ config.now.workers) × (config.now.workers ≤ MOST_WORKERS) }
        requires early { IsEarly (stage_of self) }
        requires batches { self.mix.batches < MOST_BATCHES }
        ensures behind { IfOk result (λ turn. stage_of turn ≡ behind config.now.rule (stage_of self) (works_at orders.now size (stage_of self))) }
        ensures early { IfOk result (λ turn. IsEarly (stage_of turn)) }
    {
        let Turn {
            mix,
            mut draws,
            tally,
        } = self;
        let works = draw_works(alloc, orders, &mix, size, &mut draws)?;
        let (mix, answer) = mix.run_batch(rt, alloc, works, config, pace)?;
        let tally = tally.with(answer.lines.as_slice());
        Ok(Turn { mix, draws, tally })
    }
}

/// The new works of the next batch: so many, or as many as there is room for beside those that wait.
fn draw_works(
    alloc: Global,
    orders: &Tpcc,
    mix: &Mix,
    size: u32,
    draws: &mut Draws,
) -> Result<Vec<Work>, Memory>
    requires within { IsWithin orders.now }
    requires early { mix.now.requests ≤ MOST_WORKS * mix.now.batches }
    requires batches { mix.now.batches < MOST_BATCHES }
    ensures works { IfOk result (λ works. works.items ≡ (times (new_works size mix.now) (request orders.now (mix.now.batches + 1)) draws.old).0) }
    ensures past { OnOk result (draws.new ≡ (times (new_works size mix.now) (request orders.now (mix.now.batches + 1)) draws.old).1) }
    ensures may { IfOk result (λ works. MayRun mix.now works.items) }
{
    mix.ready();
    let number = mix.batches() + 1;
    more_batch(alloc, orders, draws, number, size.min(mix.room()))
}
