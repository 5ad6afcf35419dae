// The batches behind a checkpoint, run one after the other without a word.
ghost use Rattle.std.specs.Prelude.{◌≡◌, ◌≤◌, false, IfOk, IfErr};
ghost use Rattle.aria_store.specs.Stands.{batch_in, batches_in};
ghost use Rattle.serving.specs.Lives.{IsRunnable, plan_of, state_of};
ghost use Rattle.serving.specs.Stored.{is_crowded};
ghost use Rattle.store_openings.specs.Openings.{AreRunnable, MayFollow};
ghost use Rattle.store_openings.specs.Runs.{IsHalt, IsRerun, IsStepped, settings_with};

use aria_base::{MOST_REQUESTS, Memory, Pace};
use aria_store::Logged;
use batch_rules::verdicts::Rule;
use dep_rules::Config;
use serving::Live;
use std::alloc::Global;
use std::thread::Threads;

/// Why batches were not all run.
#[derive(Clone, Copy, Debug, PartialEq, Eq)]
pub(crate) enum Halt {
    /// There was no memory.
    NoMemory,
    /// The batch at this place among them has no room beside what waits.
    Crowded { place: usize },
}

/// The settings with this rule and this percentage.
pub fn settings_with(config: Config, rule: Rule, fallback: u32) -> Config
    ensures { result ≡ settings_with config rule fallback }
{
    Config {
        rule,
        fallback,
        workers: config.workers,
        batons: config.batons,
    }
}

/// The database with these settings of its next batch.
pub fn with_settings(live: Live, rule: Rule, fallback: u32) -> Live
    ensures { result ≡ record live { config = settings_with live.config rule fallback } }
{
    let config = settings_with(live.config, rule, fallback);
    Live { config, ..live }
}

/// The database with the settings of a logged batch. No memory.
pub fn with_settings_of(live: Live, logged: &Logged) -> Live
    ensures { result ≡ record live { config = settings_with live.config logged.now.rule logged.now.fallback } }
{
    with_settings(live, logged.rule, logged.fallback)
}

/// Whether a batch has no room beside what waits. No memory.
pub fn is_crowded(live: &Live, logged: &Logged) -> bool
    requires { IsRunnable live.now }
    ensures { result ≡ is_crowded (state_of live.now) (batch_in logged.now) }
{
    MOST_REQUESTS - live.waiting() < logged.calls.len()
}

/// Runs a batch by its own settings, on all replicas.
fn rerun<P: Pace + Sync, R: Threads + Sync>(
    rt: &R,
    alloc: Global,
    live: Live,
    logged: Logged,
    pace: &P,
) -> Result<Live, Memory>
    requires runnable { IsRunnable live }
    requires fit { MayFollow (plan_of live) (state_of live).batches (state_of live).requests (batch_in logged) }
    requires room { is_crowded (state_of live) (batch_in logged) ≡ false }
    ensures { IfOk result (IsStepped live (batch_in logged)) }
{
    let settled = with_settings_of(live, &logged);
    let (next, _answer) = settled.run(rt, alloc, logged.calls, pace)?;
    Ok(next)
}

/// Runs these batches one after the other, up to the first that has no room.
pub(crate) fn rerun_all<P: Pace + Sync, R: Threads + Sync>(
    rt: &R,
    alloc: Global,
    start: Live,
    later: Vec<Logged>,
    pace: &P,
) -> Result<Live, Halt>
    requires runnable { IsRunnable start }
    requires fit { AreRunnable (plan_of start) (state_of start).batches (state_of start).requests (batches_in later.items) }
    ensures rerun { IfOk result (IsRerun start (batches_in later.items)) }
    ensures halt { IfErr result (IsHalt (plan_of start) (state_of start) (batches_in later.items)) }
{
    let mut live = start;
    let mut place = 0;
    for logged in later {
        if is_crowded(&live, &logged) {
            return Err(Halt::Crowded { place });
        }
        match rerun(rt, alloc, live, logged, pace) {
            Ok(next) => live = next,
            Err(Memory) => return Err(Halt::NoMemory),
        }
        place += 1;
    }
    Ok(live)
}
