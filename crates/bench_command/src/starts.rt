// The database of a workload before its first batch.
ghost use Rattle.std.specs.Prelude.{◌≡◌, ◌≤◌, IfOk};
ghost use Rattle.aria_base.specs.declared.limits.TheConstants.{MOST_PERCENT, MOST_REPLICAS, MOST_WORKERS};
ghost use Rattle.serving.specs.Lives.{IsRunnable, plan_of, state_of};
ghost use Rattle.workloads.specs.Generators.{IsWithin};
ghost use Rattle.workloads.specs.Generators as load;
ghost use Rattle.bench_command.specs.Benches.{head_state};

use aria_base::Memory;
use dep_rules::Config;
use serving::Live;
use std::alloc::Global;
use workloads::Generator;

/// The database of the workload's head, in so many replicas.
pub(crate) fn begin(
    alloc: Global,
    generator: &Generator,
    config: Config,
    replicas: u32,
) -> Result<Live, Memory>
    requires within { IsWithin generator.now }
    requires workers { (1 ≤ config.workers) × (config.workers ≤ MOST_WORKERS) }
    requires fallback { config.fallback ≤ MOST_PERCENT }
    requires engines { (1 ≤ replicas) × (replicas ≤ MOST_REPLICAS) }
    ensures plan { IfOk result (λ live. plan_of live ≡ load.plan_of generator.now) }
    ensures state { IfOk result (λ live. state_of live ≡ head_state generator.now config.rule config.fallback) }
    ensures runnable { IfOk result IsRunnable }
{
    let (catalog, tables) = generator.head(alloc)?;
    let none = Vec::new(alloc);
    Live::begin(alloc, catalog, tables, none, 0, 0, config, replicas, false)
}
