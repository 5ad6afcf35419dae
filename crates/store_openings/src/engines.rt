// How an opened database is run, and the database of a checkpoint.
ghost use Rattle.std.specs.Prelude.{◌≡◌, ◌≤◌, ◌<◌, None, IfOk, length};
ghost use Rattle.aria_base.specs.declared.limits.TheConstants.{MOST_PERCENT, MOST_REPLICAS, MOST_WORKERS};
ghost use Rattle.batch_engine.specs.Engines.{IsReady};
ghost use Rattle.serving.specs.Lives.{IsRunnable, plan_of, state_of};
ghost use Rattle.serving.specs.Stored.{state_at};
ghost use Rattle.slot_images.specs.Said.{checkpoint_in};
ghost use Rattle.store_openings.specs.Openings.{log_in};

use aria_base::Memory;
use aria_store::Image;
use dep_rules::Config;
use serving::Live;
use std::alloc::Global;

/// How an opened database is run. None of these has a say in what its batches come to.
#[derive(Clone, Copy, Debug, PartialEq, Eq)]
pub struct RunSettings {
    /// How many replicas run each batch, from 1 to 8.
    pub replicas: u32,
    /// In how many workers each of them, from 1 to 64.
    pub workers: u32,
    /// Whether what waits is run again by rows that are handed on, or wave after wave.
    pub batons: bool,
    /// Whether the rows are listed behind each answer.
    pub each: bool,
    /// Behind how many batches each a checkpoint is laid, 0 for never.
    pub checkpoint: u32,
}

/// The database of a checkpoint, without a store. It lays no checkpoints.
pub fn begin(alloc: Global, engines: &RunSettings, image: Image) -> Result<Live, Memory>
    requires workers { (1 ≤ engines.now.workers) × (engines.now.workers ≤ MOST_WORKERS) }
    requires replicas { (1 ≤ engines.now.replicas) × (engines.now.replicas ≤ MOST_REPLICAS) }
    requires fallback { image.fallback ≤ MOST_PERCENT }
    requires ready { IsReady image.catalog image.tables image.held.items image.batches image.requests }
    ensures plan { IfOk result (λ live. plan_of live ≡ image.catalog) }
    ensures state { IfOk result (λ live. state_of live ≡ state_at (checkpoint_in image)) }
    ensures each { IfOk result (λ live. live.each ≡ engines.now.each) }
    ensures count { IfOk result (λ live. length live.replicas ≡ engines.now.replicas) }
    ensures workers { IfOk result (λ live. live.config.workers ≡ engines.now.workers) }
    ensures store { IfOk result (λ live. live.store ≡ None) }
    ensures runnable { IfOk result IsRunnable }
{
    let config = Config {
        rule: image.rule,
        fallback: image.fallback,
        workers: engines.workers,
        batons: engines.batons,
    };
    Live::begin(
        alloc,
        image.catalog,
        image.tables,
        image.held,
        image.batches,
        image.requests,
        config,
        engines.replicas,
        engines.each,
    )
}

/// The file of a checkpoint's log. No memory.
pub fn log_of(image: &Image) -> u8
    ensures log { result ≡ log_in (checkpoint_in image.now) }
    ensures low { result < 4 }
{
    if image.generation % 2 == 0 { 2 } else { 3 }
}
