// The command `run`.
ghost use Rattle.std.specs.Prelude.{◌≡◌, ◌≢◌, ◌⊎◌, ◌≤◌, ℕ, List, Ok, Err, IfOk, IfErr, IfSome};
ghost use Rattle.std.specs.Io.KnownBytes.{IsAtEnd};
ghost use Rattle.aria_base.specs.Faults.{Rose};
ghost use Rattle.aria_base.specs.declared.limits.TheConstants.{MOST_REPLICAS, MOST_WORKERS};
ghost use Rattle.aria_store.specs.Reopens.{Reopened, Reopens};
ghost use Rattle.answer_text.specs.Notices.{at_text};
ghost use Rattle.script_course.specs.Causes.{IsCause, IsReadCause};
ghost use Rattle.script_course.specs.Courses.{Goes};
ghost use Rattle.script_course.specs.Served.{Completes, Serves};
ghost use Rattle.script_course.specs.declared.stops.Stop.TheVariants as stop;
ghost use Rattle.serving.specs.Lives.{IsRunnable, plan_of};
ghost use Rattle.serving.specs.Stored.{IsLogging, stored_state};
ghost use Rattle.store_openings.specs.Openings.{ReadsAs, opened};
ghost use Rattle.run_commands.specs.Endings.{HoldsLive};
ghost use Rattle.run_commands.specs.Keeps.{Keeps, LeavesLaid};
ghost use Rattle.run_commands.specs.Passes.{PassesTurns, held_behind};
ghost use Rattle.run_commands.specs.Resumes.{CompletesOver, HoldsOver, LeavesOver, StandsOver, out_from, over, told_from, turns_over};
ghost use Rattle.run_commands.specs.Saves.{IsLeft, saved_behind};
ghost use Rattle.disk_model.specs.Histories.{LeavesAll};
ghost use Rattle.store_openings.specs.Saved.{Saved};

use crate::once_command::is_each;
use crate::refusals::refuse_store;
use crate::scripts::Script;
use crate::texts::run_text;
use answer_text::append_at;
use aria_base::{Memory, Pace, Sink, Source};
use command_words::Run;
use disk_model::Disk;
use script_course::{DONE, STORE_REFUSED, Stop, give};
use serving::Live;
use std::alloc::Global;
use std::thread::Threads;
use store_openings::{RunSettings, open};

/// Opens the store of the disk and runs the script that the source gives over it, each batch in the log
/// before a byte of its answer is given. What stands in the store already is not run again. First of all it
/// tells how many batches that are. Where there is no store that can be opened, the source is not read.
///
/// The output is that of what the files read as, and neither workers nor replicas have a say in it.
pub fn run<S: Source, K: Sink, D: Disk, P: Pace + Sync, R: Threads + Sync>(
    rt: &R,
    alloc: Global,
    settings: &Run,
    input: &mut S,
    out: &mut K,
    disk: &mut D,
    pace: &P,
) -> Result<u8, Stop>
    requires workers { (1 ≤ settings.now.workers) × (settings.now.workers ≤ MOST_WORKERS) }
    requires replicas { (1 ≤ settings.now.replicas) × (settings.now.replicas ≤ MOST_REPLICAS) }
    ensures completes { (images : ℕ → List ℕ) (found : Reopened) → ReadsAs (D.history disk.old) images → Reopens images found
        → CompletesOver settings.now (opened images found) (S.left input.old) (S.left input.new) (K.given out.old) (K.given out.new) result }

    // A stop at any moment leaves the batches of the store with some first ones of the script behind them:
    // all that were answered, and at most one more.
    ensures leaves { (images : ℕ → List ℕ) (found : Reopened) → ReadsAs (D.history disk.old) images → Reopens images found
        → IfSome (S.left input.old) (λ text. LeavesOver settings.now (opened images found) text (D.history disk.old) (D.history disk.new)
        (K.given out.old) (K.given out.new)) }

    // It leaves just the checkpoint and the batches that stand behind some first lines, or that with the batch at
    // work in the log.
    ensures stands { (images : ℕ → List ℕ) (found : Reopened) → ReadsAs (D.history disk.old) images → Reopens images found
        → IfSome (S.left input.old) (λ text. StandsOver settings.now images (opened images found) text (D.history disk.old) (D.history disk.new)
        (K.given out.old) (K.given out.new)) }

    // Where the script was read to its end or to a refused line, exactly those that were answered, behind the
    // last checkpoint that was due or the one that stood there.
    ensures holds { (images : ℕ → List ℕ) (found : Reopened) → ReadsAs (D.history disk.old) images → Reopens images found
        → (result ≡ Ok DONE) ⊎ (result ≡ Err stop.Refused)
        → IfSome (S.left input.old) (λ text. HoldsOver settings.now images (opened images found) text (D.history disk.new)) }

    // Where nothing was in the way, the script was read to its end, or the store is refused, and the source
    // is as before.
    ensures status { IfOk result (λ ending. (ending ≡ DONE) ⊎ (ending ≡ STORE_REFUSED)) }
    ensures end { result ≡ Ok DONE → IsAtEnd (S.left input.new) }
    ensures unread { result ≡ Ok STORE_REFUSED → input.new ≡ input.old }

    // Each stop for a fault has its cause.
    ensures source { S.faults input.old ≤ S.faults input.new }
    ensures sink { K.faults out.old ≤ K.faults out.new }
    ensures cause { IfErr result (λ stop. IsReadCause stop (Rose (S.faults input.old) (S.faults input.new)) (Rose (K.faults out.old) (K.faults out.new))
        (Rose (D.history disk.old).faults (D.history disk.new).faults)) }
{
    let engines = RunSettings {
        replicas: settings.replicas,
        workers: settings.workers,
        batons: settings.batons,
        each: is_each(settings.listing),
        checkpoint: settings.checkpoint,
    };
    match open(rt, alloc, &engines, disk, pace) {
        Ok(live) => run_over(rt, alloc, live, settings, input, out, disk, pace),
        Err(why) => refuse_store(alloc, why, out),
    }
}

/// Tells how many batches were run before, and runs the script over them.
fn run_over<S: Source, K: Sink, D: Disk, P: Pace + Sync, R: Threads + Sync>(
    rt: &R,
    alloc: Global,
    live: Live,
    settings: &Run,
    input: &mut S,
    out: &mut K,
    disk: &mut D,
    pace: &P,
) -> Result<u8, Stop>
    requires engines { (1 ≤ settings.now.replicas) × (settings.now.replicas ≤ MOST_REPLICAS) }
    requires runnable { IsRunnable live }
    requires logging { IsLogging (D.history disk.old) live }
    ensures completes { Completes (told_from (over live)) (out_from settings.now.drain (over live)) (S.left input.old) (S.left input.new)
        (K.given out.old) (K.given out.new) result }
    ensures zero { IfOk result (λ status. status ≡ DONE) }
    ensures end { IfOk result (λ _. IsAtEnd (S.left input.new)) }
    ensures keeps { (first : ℕ) (saved : Saved) → HoldsLive first saved (D.history disk.old) live
        → IfSome (S.left input.old) (λ text. Keeps (PassesTurns (turns_over settings.now.drain (over live) text) (over live) (stored_state live)) (plan_of live)
        (D.history disk.old) (D.history disk.new) (K.given out.old) (K.given out.new)) }
    ensures left { (first : ℕ) (saved : Saved) → HoldsLive first saved (D.history disk.old) live
        → IfSome (S.left input.old) (λ text. LeavesAll (D.history disk.old) (D.history disk.new)
        (IsLeft live.checkpoint (turns_over settings.now.drain (over live) text) (over live) saved)) }
    ensures laid { (first : ℕ) (saved : Saved) → HoldsLive first saved (D.history disk.old) live → (result ≡ Ok DONE) ⊎ (result ≡ Err stop.Refused)
        → IfSome (S.left input.old) (λ text. LeavesLaid first (saved_behind live.checkpoint (turns_over settings.now.drain (over live) text) (over live) saved)
        live.checkpoint (D.history disk.new) (plan_of live) (held_behind (turns_over settings.now.drain (over live) text) (over live) (stored_state live))) }
    ensures source { S.faults input.old ≤ S.faults input.new }
    ensures sink { K.faults out.old ≤ K.faults out.new }
    ensures cause { IfErr result (λ stop. IsReadCause stop (Rose (S.faults input.old) (S.faults input.new)) (Rose (K.faults out.old) (K.faults out.new))
        (Rose (D.history disk.old).faults (D.history disk.new).faults)) }
{
    let Ok(script) = Script::resume(alloc, live, settings.replicas) else {
        return Err(Stop::NoMemory);
    };
    match tell_batches(alloc, script, out) {
        Ok(script) => run_text(rt, alloc, script, settings.drain, input, out, disk, pace),
        Err(stop) => Err(stop),
    }
}

/// Tells how many batches were run before.
fn tell_batches<K: Sink>(alloc: Global, script: Script, out: &mut K) -> Result<Script, Stop>
    ensures serves { Serves (Goes (at_text script.doing.state.batches) script) (K.given out.old) (K.given out.new) result }
    ensures sink { K.faults out.old ≤ K.faults out.new }
    ensures cause { IfErr result (λ stop. IsCause stop (Rose (K.faults out.old) (K.faults out.new)) ⊥) }
{
    let mut text = Vec::new(alloc);
    match append_at(&mut text, script.work.base.counts().batches) {
        Ok(()) => give(script, &text, out),
        Err(Memory) => Err(Stop::NoMemory),
    }
}
