// The next checkpoint, where one is due: behind a batch, or before the first one.
ghost use Rattle.std.specs.Prelude.{◌≡◌, ◌≤◌, None, true, false, [], List, IfErr, IfSome, IsOk, OnOk};
ghost use Rattle.aria_base.specs.Faults.{Rose};
ghost use Rattle.aria_base.specs.declared.limits.TheConstants.{GREATEST_NUMBER, MOST_PERCENT};
ghost use Rattle.batch_engine.specs.Engines.{state_in};
ghost use Rattle.disk_model.specs.Histories.{LeavesAll};
ghost use Rattle.image_text.specs.Payloads.{Batch};
ghost use Rattle.slot_images.specs.Images.{Checkpoint};
ghost use Rattle.serving.specs.Deliveries.{IsUntold};
ghost use Rattle.serving.specs.Lives.{IsRunnable, plan_of, state_of};
ghost use Rattle.serving.specs.Stored.{Holds, HoldsTurned, IsHeld, IsLogging, GoesOn, HasTaken, MayRenew, MayTurn, ReopensBy, due_by, is_due, is_stale, stale_by, turned, turned_by};

use crate::batches::Delivery;
use crate::lives::Live;
use crate::logs::why_untold;
use aria_store::Store;
use batch_engine::Engine;
use checkpoint::FIRST_FORMAT;
use dep_rules::Config;
use disk_model::Disk;
use input_log::MOST_LOG;
use std::alloc::Global;

/// Lays the next checkpoint with an empty log, where there is a store and one is due behind the batch
/// that was run last.
pub(crate) fn rotate_where_due<D: Disk>(
    live: &mut Live,
    alloc: Global,
    disk: &mut D,
) -> Result<(), Delivery>
    requires runnable { IsRunnable live.old }
    requires taken { IfSome live.old.store (HasTaken (D.history disk.old) (state_of live.old).batches) }
    ensures turned { OnOk result (live.new ≡ record live.old {
      store = turned_by (due_by live.old.checkpoint (state_of live.old).batches live.old.store) (state_of live.old) live.old.store;
    }) }
    ensures logging { OnOk result (IsLogging (D.history disk.new) live.new) }
    ensures holds { OnOk result ((c : Checkpoint) (later : List Batch)
        → Holds (D.history disk.old) (plan_of live.old) (state_of live.old) live.old.store c later
        → HoldsTurned (due_by live.old.checkpoint (state_of live.old).batches live.old.store)
        (D.history disk.new) (plan_of live.old) (state_of live.old) live.new.store c later) }
    ensures images { (c : Checkpoint) (later : List Batch) → Holds (D.history disk.old) (plan_of live.old) (state_of live.old) live.old.store c later
        → LeavesAll (D.history disk.old) (D.history disk.new) (ReopensBy (due_by live.old.checkpoint (state_of live.old).batches live.old.store) c later
        (plan_of live.old) (state_of live.old)) }
    ensures untouched { live.old.store ≡ None → disk.new ≡ disk.old }
    ensures storeless { live.old.store ≡ None → IsOk result }
    ensures disk { OnOk result ((D.history disk.old).faults ≤ (D.history disk.new).faults) }
    ensures cause { IfErr result (λ why. IsUntold why ⊥ (Rose (D.history disk.old).faults (D.history disk.new).faults)) }
{
    let Some(store) = &mut live.store else {
        return Ok(());
    };
    let engine = live.replicas.first();
    if !rotation_due(live.checkpoint, engine.batches(), store.log_len()) {
        return Ok(());
    }
    rotate(store, alloc, engine, &live.config, disk)
}

/// Lays the next checkpoint with an empty log, where there is a store that can take no batch as it is: one
/// of format 1, or with a log longer than [`MOST_LOG`]. It answers `NoMemory` where there was no memory, and
/// `NoDisk` where a call on the disk failed, and nothing else; the store is closed after `NoDisk`.
pub fn renew_where_stale<D: Disk>(
    live: &mut Live,
    alloc: Global,
    disk: &mut D,
) -> Result<(), Delivery>
    requires runnable { IsRunnable live.old }
    requires kept { IfSome live.old.store (MayRenew (D.history disk.old) (state_of live.old).batches) }
    ensures turned { OnOk result (live.new ≡ record live.old { store = turned_by (stale_by live.old.store) (state_of live.old) live.old.store }) }
    ensures logging { OnOk result (IsLogging (D.history disk.new) live.new) }
    ensures holds { OnOk result ((c : Checkpoint) (later : List Batch)
        → Holds (D.history disk.old) (plan_of live.old) (state_of live.old) live.old.store c later
        → HoldsTurned (stale_by live.old.store) (D.history disk.new) (plan_of live.old) (state_of live.old) live.new.store c later) }

    // A stop at any moment leaves what stood there, or the next checkpoint of this state.
    ensures images { (c : Checkpoint) (later : List Batch) → Holds (D.history disk.old) (plan_of live.old) (state_of live.old) live.old.store c later
        → LeavesAll (D.history disk.old) (D.history disk.new) (ReopensBy (stale_by live.old.store) c later (plan_of live.old) (state_of live.old)) }

    // A store that takes the next batch as it is stays untouched.
    ensures untouched { stale_by live.old.store ≡ false → disk.new ≡ disk.old }
    ensures disk { OnOk result ((D.history disk.old).faults ≤ (D.history disk.new).faults) }
    ensures cause { IfErr result (λ why. IsUntold why ⊥ (Rose (D.history disk.old).faults (D.history disk.new).faults)) }
{
    let Some(store) = &mut live.store else {
        return Ok(());
    };
    if !is_stale(store) {
        return Ok(());
    }
    rotate(store, alloc, live.replicas.first(), &live.config, disk)
}

/// Whether a store can take no batch as it is.
fn is_stale(store: &Store) -> bool
    ensures { result ≡ is_stale store.now }
{
    store.format() == FIRST_FORMAT || MOST_LOG < store.log_len()
}

/// Whether a checkpoint is due behind the batch with this number, where the log has so many bytes.
fn rotation_due(checkpoint: u32, number: u64, bytes: u64) -> bool
    ensures { result ≡ is_due checkpoint number bytes }
{
    (0 < checkpoint && number % u64::from(checkpoint) == 0) || MOST_LOG < bytes
}

/// Lays the checkpoint of this engine with these settings.
fn rotate<D: Disk>(
    store: &mut Store,
    alloc: Global,
    engine: &Engine,
    config: &Config,
    disk: &mut D,
) -> Result<(), Delivery>
    requires may { MayTurn (D.history disk.old) engine.now.batches store.old }
    requires fallback { config.now.fallback ≤ MOST_PERCENT }
    ensures turned { OnOk result (store.new ≡ turned true (state_in config.now engine.now) store.old) }
    ensures goes_on { OnOk result (GoesOn (D.history disk.new) engine.now.batches store.new) }
    ensures holds { OnOk result ((d : Checkpoint) × IsHeld (D.history disk.new) engine.now.plan (state_in config.now engine.now) store.new d []) }
    ensures images { (c : Checkpoint) (later : List Batch) → IsHeld (D.history disk.old) engine.now.plan (state_in config.now engine.now) store.old c later
        → LeavesAll (D.history disk.old) (D.history disk.new) (ReopensBy true c later engine.now.plan (state_in config.now engine.now)) }
    ensures disk { OnOk result ((D.history disk.old).faults ≤ (D.history disk.new).faults) }
    ensures cause { IfErr result (λ why. IsUntold why ⊥ (Rose (D.history disk.old).faults (D.history disk.new).faults)) }
{
    engine.ready();
    let (batches, requests) = (engine.batches(), engine.requests());
    let laid = store.rotate(
        alloc,
        disk,
        engine.catalog(),
        engine.tables(),
        engine.carried(),
        batches,
        requests,
        config,
    );
    match laid {
        Ok(()) => Ok(()),
        Err(refused) => Err(why_untold(refused)),
    }
}
