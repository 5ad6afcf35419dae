// The next batch of a database, given to a sink.
ghost use Rattle.std.specs.Prelude.{◌≡◌, ◌≢◌, ◌≤◌, ℕ, List, None, IfOk, IfErr};
ghost use Rattle.std.specs.Io.KnownBytes.{Appends};
ghost use Rattle.aria_base.specs.Faults.{Rose};
ghost use Rattle.aria_base.specs.Streams.{AppendsFront};
ghost use Rattle.disk_model.specs.Histories.{LeavesAll, MayLeave};
ghost use Rattle.image_text.specs.Payloads.{Batch};
ghost use Rattle.slot_images.specs.Images.{Checkpoint};
ghost use Rattle.aria_store.specs.Stands.{added};
ghost use Rattle.serving.specs.Deliveries.{Tells, IfTold, IsAnswered, IsDeliveryCause, IsUntold};
ghost use Rattle.serving.specs.declared.batches.Delivery.TheVariants as delivery;
ghost use Rattle.serving.specs.Lives.{MayServe, IsNext, next_state, next_text, plan_of};
ghost use Rattle.serving.specs.Stored.{MayLog, IsLogging, Holds, HoldsTurned, ReopensBy, ReopensOnWay, stored_state, next_due, next_store};

use crate::lives::Live;
use crate::logs::log_batch;
use crate::rotations::rotate_where_due;
use aria_base::{Call, Memory, Pace, Sink};
use disk_model::Disk;
use std::alloc::Global;
use std::thread::Threads;

/// What became of a batch.
#[derive(Clone, Copy, Debug, PartialEq, Eq)]
pub enum Delivery {
    /// It was run, and all of its text was given.
    Told,
    /// There was no memory.
    NoMemory,
    /// The sink failed.
    NoWrite,
    /// The disk failed.
    NoDisk,
}

/// Runs the next batch, of what waits and these calls, on all replicas, and gives its answer and, where
/// each answer has one, the listing. The database goes on exactly where this was told.
///
/// With a store the batch is in the log before a byte is given, and behind the answer a checkpoint is
/// laid where one is due. Without one the disk is not touched.
pub fn serve_batch<K: Sink, D: Disk, P: Pace + Sync, R: Threads + Sync>(
    rt: &R,
    alloc: Global,
    live: Live,
    new: Vec<Call>,
    out: &mut K,
    disk: &mut D,
    pace: &P,
) -> (Option<Live>, Delivery)
    requires may { MayServe live new.items }
    requires logs { MayLog live new.items (D.history disk.old) }
    ensures tells { Tells (next_text live new.items) (IsNext live new.items) (K.given out.old) (K.given out.new) result }

    // The store that goes on, ready for the next batch.
    ensures store { IfTold result (λ next. next.store ≡ next_store live new.items) }
    ensures logging { IfTold result (IsLogging (D.history disk.new)) }

    // What the disk then holds: a new checkpoint where one was due, or the one from before with this batch behind its own.
    ensures holds { IfTold result (λ next. (c : Checkpoint) (later : List Batch)
        → Holds (D.history disk.old) (plan_of live) (stored_state live) live.store c later
        → HoldsTurned (next_due live new.items) (D.history disk.new) (plan_of live) (next_state live new.items) next.store c
        (added later live.config.rule live.config.fallback new.items)) }

    // A stop at any moment leaves the checkpoint with the batches from before, or with this one behind them, or
    // the next checkpoint, of the state after; and one of the last two once a byte was given.
    ensures images { (c : Checkpoint) (later : List Batch) → Holds (D.history disk.old) (plan_of live) (stored_state live) live.store c later
        → LeavesAll (D.history disk.old) (D.history disk.new) (ReopensOnWay (next_due live new.items) c later
        (added later live.config.rule live.config.fallback new.items) (plan_of live) (stored_state live) (next_state live new.items)) }
    ensures answered { (c : Checkpoint) (later : List Batch) → Holds (D.history disk.old) (plan_of live) (stored_state live) live.store c later
        → IsAnswered (K.given out.old) (K.given out.new) result.1 → (images : ℕ → List ℕ) → MayLeave (D.history disk.new) (D.history disk.new).now images
        → ReopensBy (next_due live new.items) c (added later live.config.rule live.config.fallback new.items) (plan_of live)
        (next_state live new.items) images }
    ensures untouched { live.store ≡ None → disk.new ≡ disk.old }
    ensures storeless { live.store ≡ None → result.1 ≢ delivery.NoDisk }
    ensures sink { K.faults out.old ≤ K.faults out.new }
    ensures disk { IfTold result (λ _. (D.history disk.old).faults ≤ (D.history disk.new).faults) }
    ensures cause { IsDeliveryCause result.1 (Rose (K.faults out.old) (K.faults out.new)) (Rose (D.history disk.old).faults (D.history disk.new).faults) }
{
    let mut live = live;
    if let Err(why) = log_batch(&mut live, alloc, new.as_slice(), disk) {
        return (None, why);
    }
    let mut next = match tell_batch(rt, alloc, live, new, out, pace) {
        Ok(next) => next,
        Err(why) => return (None, why),
    };
    match rotate_where_due(&mut next, alloc, disk) {
        Ok(()) => (Some(next), Delivery::Told),
        Err(why) => (None, why),
    }
}

/// Runs the batch and gives its text. The store is not touched.
fn tell_batch<K: Sink, P: Pace + Sync, R: Threads + Sync>(
    rt: &R,
    alloc: Global,
    live: Live,
    new: Vec<Call>,
    out: &mut K,
    pace: &P,
) -> Result<Live, Delivery>
    requires { MayServe live new.items }
    ensures told { IfOk result (λ _. Appends (K.given out.old) (K.given out.new) (next_text live new.items)) }
    ensures next { IfOk result (IsNext live new.items) }
    ensures store { IfOk result (λ next. next.store ≡ live.store) }
    ensures front { IfErr result (λ _. AppendsFront (K.given out.old) (K.given out.new) (next_text live new.items)) }
    ensures sink { K.faults out.old ≤ K.faults out.new }
    ensures cause { IfErr result (λ why. IsUntold why (Rose (K.faults out.old) (K.faults out.new)) ⊥) }
{
    match live.next(rt, alloc, new, pace) {
        Ok((next, text)) => match out.give(&text) {
            Ok(()) => Ok(next),
            Err(_) => Err(Delivery::NoWrite),
        },
        Err(Memory) => Err(Delivery::NoMemory),
    }
}
