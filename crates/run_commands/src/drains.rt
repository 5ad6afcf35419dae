// The batches that run what waits, when no new calls come.
ghost use Rattle.std.specs.Prelude.{◌≡◌, ◌≤◌, ◌<◌, ◌+◌, ℕ, List, [], ◌∷◌, length, Err, None, IfOk, IfErr, IsSomeAnd};
ghost use Rattle.aria_base.specs.Faults.{Rose};
ghost use Rattle.disk_model.specs.Histories.{LeavesAll};
ghost use Rattle.image_text.specs.Payloads.{Batch};
ghost use Rattle.script_course.specs.Causes.{IsCause};
ghost use Rattle.script_course.specs.Served.{Serves};
ghost use Rattle.script_course.specs.declared.stops.Stop.TheVariants as stop;
ghost use Rattle.serving.specs.Drains.{drains, no_calls, one_drained, state_result};
ghost use Rattle.serving.specs.Lives.{IsRunnable, IsLike, plan_of, state_of};
ghost use Rattle.serving.specs.Stored.{Holds, IsLogging, batch_of, stored_state};
ghost use Rattle.slot_images.specs.Images.{Checkpoint};
ghost use Rattle.store_openings.specs.Saved.{Saved};
ghost use Rattle.run_commands.specs.Endings.{HoldsLive, IsEnd, drains_of};
ghost use Rattle.run_commands.specs.Keeps.{Keeps, LeavesLaid};
ghost use Rattle.run_commands.specs.Onces.{Doing};
ghost use Rattle.run_commands.specs.Passes.{Drain, PassesTurns, held_behind};
ghost use Rattle.run_commands.specs.Saves.{IsLeft, saved_behind, saved_more};

use crate::scripts::why_stopped;
use aria_base::{GREATEST_NUMBER, Pace, Sink};
use disk_model::Disk;
use script_course::{Stop, refuse};
use script_text::{Refusal, RefusalKind};
use serving::{Live, serve_batch};
use std::alloc::Global;
use std::thread::Threads;

/// Runs batches without new calls until nothing waits, and gives the text of each. One that would have a
/// number past the greatest is refused, with this number as its line.
///
/// With a store each batch is in the log before a byte of its text is given, as any other batch is.
pub(crate) fn drain<K: Sink, D: Disk, P: Pace + Sync, R: Threads + Sync>(
    rt: &R,
    alloc: Global,
    start: Live,
    line: u64,
    out: &mut K,
    disk: &mut D,
    pace: &P,
) -> Result<Live, Stop>
    requires runnable { IsRunnable start }
    requires logging { IsLogging (D.history disk.old) start }
    ensures serves { Serves (drains (plan_of start) start.each line (state_of start)) (K.given out.old) (K.given out.new) (state_result result) }
    ensures like { IfOk result (IsLike start) }
    ensures drained { IfOk result (λ live. (state_of live).waiting ≡ []) }
    ensures logging { IfOk result (IsLogging (D.history disk.new)) }

    // A stop at any moment leaves the state between two of these batches; and a stop now, what was given by then.
    ensures keeps { (first : ℕ) (saved : Saved) (d : Doing) → IsEnd (plan_of start) start.each line (state_of start) d
        → HoldsLive first saved (D.history disk.old) start
        → Keeps (PassesTurns (drains_of (state_of start)) d (stored_state start)) (plan_of start) (D.history disk.old) (D.history disk.new)
        (K.given out.old) (K.given out.new) }

    // It leaves just what stands behind some first ones.
    ensures left { (first : ℕ) (saved : Saved) (d : Doing) → IsEnd (plan_of start) start.each line (state_of start) d
        → HoldsLive first saved (D.history disk.old) start
        → LeavesAll (D.history disk.old) (D.history disk.new) (IsLeft start.checkpoint (drains_of (state_of start)) d saved) }

    // The disk holds the state behind all of them, by the last checkpoint that was due.
    ensures holds { (first : ℕ) (saved : Saved) (d : Doing) → IsEnd (plan_of start) start.each line (state_of start) d
        → HoldsLive first saved (D.history disk.old) start
        → IfOk result (HoldsLive first (saved_behind start.checkpoint (drains_of (state_of start)) d saved) (D.history disk.new)) }
    ensures held { (d : Doing) → IsEnd (plan_of start) start.each line (state_of start) d
        → IfOk result (λ live. held_behind (drains_of (state_of start)) d (stored_state start) ≡ stored_state live) }

    // Where one is refused, it holds the state behind those before it.
    ensures refused { (first : ℕ) (saved : Saved) (d : Doing) → IsEnd (plan_of start) start.each line (state_of start) d
        → HoldsLive first saved (D.history disk.old) start → result ≡ Err stop.Refused
        → LeavesLaid first (saved_behind start.checkpoint (drains_of (state_of start)) d saved) start.checkpoint (D.history disk.new) (plan_of start)
        (held_behind (drains_of (state_of start)) d (stored_state start)) }
    ensures store { start.store ≡ None → IfOk result (λ live. live.store ≡ None) }
    ensures untouched { start.store ≡ None → disk.new ≡ disk.old }
    ensures sink { K.faults out.old ≤ K.faults out.new }
    ensures cause { IfErr result (λ stop. IsCause stop (Rose (K.faults out.old) (K.faults out.new)) (IsSomeAnd start.store
        (λ _. Rose (D.history disk.old).faults (D.history disk.new).faults))) }
{
    let mut live = start;
    for _ in 0..live.waiting() {
        if live.waiting() == 0 {
            return Ok(live);
        }
        match drain_one(rt, alloc, live, line, out, disk, pace) {
            Ok(next) => live = next,
            Err(stop) => return Err(stop),
        }
    }
    Ok(live)
}

/// One of these batches, where something waits.
fn drain_one<K: Sink, D: Disk, P: Pace + Sync, R: Threads + Sync>(
    rt: &R,
    alloc: Global,
    live: Live,
    line: u64,
    out: &mut K,
    disk: &mut D,
    pace: &P,
) -> Result<Live, Stop>
    requires runnable { IsRunnable live }
    requires some { 0 < length (state_of live).waiting }
    requires logging { IsLogging (D.history disk.old) live }
    ensures serves { Serves (one_drained (plan_of live) live.each line (state_of live)) (K.given out.old) (K.given out.new) (state_result result) }
    ensures like { IfOk result (IsLike live) }
    ensures fewer { IfOk result (λ next. length (state_of next).waiting < length (state_of live).waiting) }
    ensures counted { IfOk result (λ next. (state_of next).batches ≡ (state_of live).batches + 1) }
    ensures told { IfOk result (λ next. stored_state next ≡ state_of next) }
    ensures logging { IfOk result (IsLogging (D.history disk.new)) }

    // A stop at any moment leaves the state before or behind it; and a stop now, what was given of its text.
    ensures keeps { (c : Checkpoint) (later : List Batch) (d : Doing) → IsEnd (plan_of live) live.each line (state_of live) d
        → Holds (D.history disk.old) (plan_of live) (stored_state live) live.store c later
        → Keeps (PassesTurns (Drain ∷ []) d (stored_state live)) (plan_of live) (D.history disk.old) (D.history disk.new)
        (K.given out.old) (K.given out.new) }
    ensures left { (first : ℕ) (saved : Saved) (d : Doing) → IsEnd (plan_of live) live.each line (state_of live) d
        → HoldsLive first saved (D.history disk.old) live
        → LeavesAll (D.history disk.old) (D.history disk.new) (IsLeft live.checkpoint (Drain ∷ []) d saved) }
    ensures holds { (first : ℕ) (saved : Saved) → HoldsLive first saved (D.history disk.old) live
        → IfOk result (λ next. HoldsLive first (saved_more live.checkpoint saved (batch_of (no_calls (state_of live))) (state_of next))
        (D.history disk.new) next) }
    ensures refused { result ≡ Err stop.Refused → disk.new ≡ disk.old }
    ensures store { live.store ≡ None → IfOk result (λ next. next.store ≡ None) }
    ensures untouched { live.store ≡ None → disk.new ≡ disk.old }
    ensures disk { IfOk result (λ _. (D.history disk.old).faults ≤ (D.history disk.new).faults) }
    ensures sink { K.faults out.old ≤ K.faults out.new }
    ensures cause { IfErr result (λ stop. IsCause stop (Rose (K.faults out.old) (K.faults out.new)) (IsSomeAnd live.store
        (λ _. Rose (D.history disk.old).faults (D.history disk.new).faults))) }
{
    if GREATEST_NUMBER <= live.batches() {
        let kind = RefusalKind::Numbers;
        return refuse(alloc, &Refusal { line, kind }, out);
    }
    let (next, given) = serve_batch(rt, alloc, live, Vec::new(alloc), out, disk, pace);
    match next {
        Some(next) => return Ok(next),
        None => return Err(why_stopped(given)),
    }
}
