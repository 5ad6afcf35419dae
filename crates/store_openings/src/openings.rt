// Opening a store.
ghost use Rattle.std.specs.Prelude.{◌≡◌, ◌⊎◌, ℕ, ◌≤◌, false, List, Some, IfOk, IfErr, IsSome, length};
ghost use Rattle.aria_base.specs.Faults.{Rose};
ghost use Rattle.aria_base.specs.declared.limits.TheConstants.{MOST_PERCENT, MOST_REPLICAS, MOST_WORKERS};
ghost use Rattle.aria_store.specs.Records.{AreLater};
ghost use Rattle.aria_store.specs.Reopens.{Reopens, Reopened, Found as Holding};
ghost use Rattle.aria_store.specs.Stands.{IsKnown, Stands, batches_in};
ghost use Rattle.batch_engine.specs.Engines.{IsReady};
ghost use Rattle.disk_model.specs.Histories.{LeavesAll, MayLeave, Still};
ghost use Rattle.image_text.specs.Payloads.{Batch};
ghost use Rattle.serving.specs.Lives.{IsRunnable, plan_of, state_of};
ghost use Rattle.serving.specs.Stored.{HoldsTurned, IsHeld, IsLogging, ReopensBy, is_stale, stored_state, turned};
ghost use Rattle.slot_images.specs.Images.{Checkpoint};
ghost use Rattle.slot_images.specs.Said.{IsInOrder, checkpoint_in};
ghost use Rattle.store_files.specs.Stores.{Rests, slot_in};
ghost use Rattle.store_openings.specs.Openings.{AreRunnable, IsFaultOf, IsOpenedAs, IsRefusalOf, LeavesUnwritten, ReadsAs, ReopensToOpened, opened};
ghost use Rattle.store_openings.specs.Runs.{IsFoundAs, IsNotFound, IsNotKept, IsNotRun, IsOpenedFrom, IsStoreOf, IsWithStore, LeftOrRun, saved_by};
ghost use Rattle.store_openings.specs.Saved.{HoldsSaved, is_full, renewed, saved_in};

use crate::damages::damage_at;
use crate::engines::{RunSettings, begin, log_of};
use crate::refusals::{NotOpened, not_attached, not_rotated};
use crate::steps::{Halt, rerun_all};
use aria_base::{Memory, Pace};
use aria_store::{Found, Store};
use disk_model::Disk;
use serving::{Live, renew_where_stale};
use std::alloc::Global;
use std::thread::Threads;

/// Opens the store on a disk: the database of its checkpoint and of the batches behind it, each run by its
/// own settings, with 1 to 64 workers in each of 1 to 8 replicas. Where the store takes no batches as it is,
/// the next checkpoint is written at once: where it is of format 1, or its log has more than
/// [`MOST_LOG`](serving::MOST_LOG) bytes.
///
/// `NoStore`: neither gate is open. `Damaged`: what stands in this file, from 0 to 3, is wrong, first at
/// this offset; or the record there is of a batch that has no room beside what waits. Both write nothing.
/// `NoDisk`: a call on the disk failed. `NoMemory`: there was no memory.
pub fn open<D: Disk, P: Pace + Sync, R: Threads + Sync>(
    rt: &R,
    alloc: Global,
    engines: &RunSettings,
    disk: &mut D,
    pace: &P,
) -> Result<Live, NotOpened>
    requires workers { (1 ≤ engines.now.workers) × (engines.now.workers ≤ MOST_WORKERS) }
    requires replicas { (1 ≤ engines.now.replicas) × (engines.now.replicas ≤ MOST_REPLICAS) }

    // By what a read of the four files gives: the database of it, and no store or damage exactly where it is that.
    ensures opened { IfOk result (λ live. (images : ℕ → List ℕ) (found : Reopened) → ReadsAs (D.history disk.old) images → Reopens images found
        → IsOpenedAs (opened images found) live) }
    ensures refused { IfErr result (λ why. (images : ℕ → List ℕ) (found : Reopened) → ReadsAs (D.history disk.old) images → Reopens images found
        → IsRefusalOf (opened images found) why) }

    // It may be served, and its store takes the next batch.
    ensures runnable { IfOk result IsRunnable }
    ensures logging { IfOk result (IsLogging (D.history disk.new)) }
    ensures stored { IfOk result (λ live. IsSome live.store) }
    ensures settings { IfOk result (λ live. stored_state live ≡ state_of live) }
    ensures each { IfOk result (λ live. live.each ≡ engines.now.each) }
    ensures checkpoint { IfOk result (λ live. live.checkpoint ≡ engines.now.checkpoint) }
    ensures count { IfOk result (λ live. length live.replicas ≡ engines.now.replicas) }
    ensures workers { IfOk result (λ live. live.config.workers ≡ engines.now.workers) }

    // Its disk holds the checkpoint and the batches that the files read as. Where the store took no batch as it
    // was, it holds the next checkpoint.
    ensures holds { IfOk result (λ live. (images : ℕ → List ℕ) (c : Checkpoint) (later : List Batch)
        → ReadsAs (D.history disk.old) images → Reopens images (Holding c later)
        → HoldsSaved (D.history disk.new) (plan_of live) (stored_state live) live.store (renewed (saved_in images c later))) }

    // A stop at any moment leaves what one could have left before, or just what was opened, or the next checkpoint
    // behind it.
    ensures images { (images : ℕ → List ℕ) (found : Reopened) → ReadsAs (D.history disk.old) images → Reopens images found
        → LeavesAll (D.history disk.old) (D.history disk.new)
        (λ left. MayLeave (D.history disk.old) (D.history disk.old).now left ⊎ ReopensToOpened (opened images found) left) }
    ensures unwritten { IfErr result (LeavesUnwritten (D.history disk.old) (D.history disk.new)) }

    // Nothing is written to a store that takes the next batch as it is.
    ensures fresh { (images : ℕ → List ℕ) (c : Checkpoint) (later : List Batch) → ReadsAs (D.history disk.old) images → Reopens images (Holding c later)
        → is_full (saved_in images c later) ≡ false
        → LeavesAll (D.history disk.old) (D.history disk.new) (MayLeave (D.history disk.old) (D.history disk.old).now) }
    ensures disk { IfOk result (λ _. (D.history disk.old).faults ≤ (D.history disk.new).faults) }
    ensures cause { IfErr result (IsFaultOf (Rose (D.history disk.old).faults (D.history disk.new).faults)) }
{
    match Store::attach(alloc, disk) {
        Ok((store, found)) => open_found(rt, alloc, engines, store, found, disk, pace),
        Err(refused) => Err(not_attached(refused)),
    }
}

/// The database that was found, with its store.
fn open_found<D: Disk, P: Pace + Sync, R: Threads + Sync>(
    rt: &R,
    alloc: Global,
    engines: &RunSettings,
    store: Store,
    found: Found,
    disk: &mut D,
    pace: &P,
) -> Result<Live, NotOpened>
    requires workers { (1 ≤ engines.now.workers) × (engines.now.workers ≤ MOST_WORKERS) }
    requires replicas { (1 ≤ engines.now.replicas) × (engines.now.replicas ≤ MOST_REPLICAS) }
    requires in_order { IsInOrder (slot_in store.files) (checkpoint_in found.image) }
    requires later { AreLater (checkpoint_in found.image) (batches_in found.later.items) }
    requires known { IsKnown store (checkpoint_in found.image) (batches_in found.later.items) }
    requires rests { Rests (D.history disk.old) store.files }
    requires open { store.files.closed ≡ None }
    requires empty { store.files.batches ≡ 0 → store.files.at ≡ 0 }
    ensures opened { IfOk result (IsOpenedFrom (D.history disk.new) engines.now (checkpoint_in found.image) (batches_in found.later.items)) }
    ensures holds { IfOk result (λ live. Stands (D.history disk.old) store (checkpoint_in found.image) (batches_in found.later.items)
        → HoldsSaved (D.history disk.new) (plan_of live) (state_of live) live.store
        (renewed (saved_by store (checkpoint_in found.image) (batches_in found.later.items)))) }
    ensures images { Stands (D.history disk.old) store (checkpoint_in found.image) (batches_in found.later.items)
        → LeavesAll (D.history disk.old) (D.history disk.new) (LeftOrRun (D.history disk.old) (checkpoint_in found.image) (batches_in found.later.items)) }
    ensures unwritten { IfErr result (LeavesUnwritten (D.history disk.old) (D.history disk.new)) }
    ensures fresh { is_stale store ≡ false → LeavesAll (D.history disk.old) (D.history disk.new) (MayLeave (D.history disk.old) (D.history disk.old).now) }
    ensures disk { IfOk result (λ _. (D.history disk.old).faults ≤ (D.history disk.new).faults) }
    ensures refused { IfErr result (IsNotFound (D.history disk.old) (D.history disk.new) store (checkpoint_in found.image) (batches_in found.later.items)) }
{
    match rerun_found(rt, alloc, engines, found, disk, pace) {
        Ok(live) => keep_store(alloc, live, store, engines.checkpoint, disk),
        Err(why) => Err(why),
    }
}

/// The database that was found, without a store. The disk is only looked at.
fn rerun_found<D: Disk, P: Pace + Sync, R: Threads + Sync>(
    rt: &R,
    alloc: Global,
    engines: &RunSettings,
    found: Found,
    disk: &mut D,
    pace: &P,
) -> Result<Live, NotOpened>
    requires workers { (1 ≤ engines.now.workers) × (engines.now.workers ≤ MOST_WORKERS) }
    requires replicas { (1 ≤ engines.now.replicas) × (engines.now.replicas ≤ MOST_REPLICAS) }
    requires fallback { found.image.fallback ≤ MOST_PERCENT }
    requires ready { IsReady found.image.catalog found.image.tables found.image.held.items found.image.batches found.image.requests }
    requires fit { AreRunnable found.image.catalog found.image.batches found.image.requests (batches_in found.later.items) }
    ensures found { IfOk result (IsFoundAs engines.now (checkpoint_in found.image) (batches_in found.later.items)) }
    ensures untouched { IfOk result (λ _. disk.new ≡ disk.old) }
    ensures still { Still (D.history disk.old) (D.history disk.new) }
    ensures refused { IfErr result (IsNotRun (D.history disk.old) (D.history disk.new) (checkpoint_in found.image) (batches_in found.later.items)) }
{
    let Found { image, later } = found;
    let log = log_of(&image);
    let start = match begin(alloc, engines, image) {
        Ok(start) => start,
        Err(Memory) => return Err(NotOpened::NoMemory),
    };
    match rerun_all(rt, alloc, start, later, pace) {
        Ok(live) => Ok(live),
        Err(Halt::NoMemory) => Err(NotOpened::NoMemory),
        Err(Halt::Crowded { place }) => Err(damage_at(alloc, disk, log, place)),
    }
}

/// The database with its store, which takes the next batch.
fn keep_store<D: Disk>(
    alloc: Global,
    live: Live,
    store: Store,
    checkpoint: u32,
    disk: &mut D,
) -> Result<Live, NotOpened>
    requires runnable { IsRunnable live }
    requires store { IsStoreOf (D.history disk.old) store (state_of live) }
    ensures kept { IfOk result (IsWithStore (D.history disk.new) checkpoint live) }
    ensures store { IfOk result (λ next. next.store ≡ Some (turned (is_stale store) (state_of live) store)) }
    ensures holds { IfOk result (λ next. (c : Checkpoint) (later : List Batch) → IsHeld (D.history disk.old) (plan_of live) (state_of live) store c later
        → HoldsTurned (is_stale store) (D.history disk.new) (plan_of live) (state_of live) next.store c later) }
    ensures images { (c : Checkpoint) (later : List Batch) → IsHeld (D.history disk.old) (plan_of live) (state_of live) store c later
        → LeavesAll (D.history disk.old) (D.history disk.new) (ReopensBy (is_stale store) c later (plan_of live) (state_of live)) }
    ensures untouched { is_stale store ≡ false → disk.new ≡ disk.old }
    ensures disk { IfOk result (λ _. (D.history disk.old).faults ≤ (D.history disk.new).faults) }
    ensures refused { IfErr result (IsNotKept (D.history disk.old) (D.history disk.new) store) }
{
    let mut live = Live {
        store: Some(store),
        checkpoint,
        ..live
    };
    match renew_where_stale(&mut live, alloc, disk) {
        Ok(()) => Ok(live),
        Err(why) => Err(not_rotated(why)),
    }
}
