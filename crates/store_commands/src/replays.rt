// The command `replay`.
ghost use Rattle.std.specs.Prelude.{◌≡◌, ◌≢◌, ℕ, ◌≤◌, ◌<◌, ◌⊎◌, List, Err, IfOk, IfErr, length};
ghost use Rattle.std.specs.Option.{IsSomeAnd};
ghost use Rattle.aria_base.specs.Faults.{Rose};
ghost use Rattle.aria_base.specs.declared.limits.TheConstants.{MOST_PERCENT, MOST_REPLICAS, MOST_WORKERS};
ghost use Rattle.aria_store.specs.Reopens.{Reopens, Reopened};
ghost use Rattle.aria_store.specs.Stands.{batches_in};
ghost use Rattle.batch_engine.specs.Engines.{IsReady};
ghost use Rattle.disk_model.specs.Histories.{LeavesAll, MayLeave, Still, current};
ghost use Rattle.run_commands.specs.Onces.{listed};
ghost use Rattle.run_commands.specs.Outs.{is_each};
ghost use Rattle.script_course.specs.Causes.{IsCause};
ghost use Rattle.script_course.specs.Served.{Finishes};
ghost use Rattle.script_course.specs.declared.statuses.TheConstants as status;
ghost use Rattle.script_course.specs.declared.stops.Stop.TheVariants as stop;
ghost use Rattle.serving.specs.Lives.{IsRunnable, plan_of, state_of};
ghost use Rattle.serving.specs.Stored.{state_at};
ghost use Rattle.slot_images.specs.Said.{checkpoint_in};
ghost use Rattle.store_openings.specs.Openings.{AreRunnable, ReadsAs, log_in};
ghost use Rattle.store_commands.specs.Replays.{crowded_out, out_of, replayed};

use crate::steps::{Halt, answer_all};
use aria_base::{Memory, Pace, Sink};
use aria_store::{Found, Logged, Store};
use command_words::Replay;
use disk_model::Disk;
use run_commands::{is_each, refuse_store};
use script_course::{DONE, Stop, end_with};
use serving::Live;
use std::alloc::Global;
use std::thread::Threads;
use store_openings::{RunSettings, begin, damage_at, log_of, not_attached};

/// Reads what the disk holds, runs the batches behind the checkpoint again, each by its own settings, and
/// prints each answer. Behind the last one the rows are listed, where not each answer has its listing. It
/// writes nothing: the files are synced and read.
pub fn replay<K: Sink, D: Disk, P: Pace + Sync, R: Threads + Sync>(
    rt: &R,
    alloc: Global,
    settings: &Replay,
    out: &mut K,
    disk: &mut D,
    pace: &P,
) -> Result<u8, Stop>
    requires workers { (1 ≤ settings.now.workers) × (settings.now.workers ≤ MOST_WORKERS) }
    requires replicas { (1 ≤ settings.now.replicas) × (settings.now.replicas ≤ MOST_REPLICAS) }

    // What is printed is the output of what the files read as; where it was cut off, a prefix of it. Neither
    // workers nor replicas have a say in it.
    ensures output { (images : ℕ → List ℕ) (found : Reopened) → ReadsAs (D.history disk.old) images → Reopens images found
        → Finishes (out_of settings.now images found) (K.given out.old) (K.given out.new) result }

    // A stop at any moment leaves what one could have left before.
    ensures images { LeavesAll (D.history disk.old) (D.history disk.new) (MayLeave (D.history disk.old) (D.history disk.old).now) }
    ensures status { IfOk result (λ ending. (ending ≡ status.DONE) ⊎ (ending ≡ status.STORE_REFUSED)) }
    ensures read { result ≢ Err stop.NoRead }
    ensures refused { result ≢ Err stop.Refused }

    // Each stop for a fault has its cause.
    ensures sink { K.faults out.old ≤ K.faults out.new }
    ensures cause { IfErr result (λ stop. IsCause stop (Rose (K.faults out.old) (K.faults out.new))
        (Rose (D.history disk.old).faults (D.history disk.new).faults)) }
{
    match Store::attach(alloc, disk) {
        Ok((_, found)) => replay_found(rt, alloc, settings, found, out, disk, pace),
        Err(refused) => refuse_store(alloc, not_attached(refused), out),
    }
}

/// The answers of the batches behind a checkpoint, by so many replicas.
fn replay_found<K: Sink, D: Disk, P: Pace + Sync, R: Threads + Sync>(
    rt: &R,
    alloc: Global,
    settings: &Replay,
    found: Found,
    out: &mut K,
    disk: &mut D,
    pace: &P,
) -> Result<u8, Stop>
    requires workers { (1 ≤ settings.now.workers) × (settings.now.workers ≤ MOST_WORKERS) }
    requires replicas { (1 ≤ settings.now.replicas) × (settings.now.replicas ≤ MOST_REPLICAS) }
    requires fallback { found.image.fallback ≤ MOST_PERCENT }
    requires ready { IsReady found.image.catalog found.image.tables found.image.held.items found.image.batches found.image.requests }
    requires fit { AreRunnable found.image.catalog found.image.batches found.image.requests (batches_in found.later.items) }
    ensures output { (bytes : List ℕ) → IsSomeAnd (current (D.history disk.old) (log_in (checkpoint_in found.image))) (λ f. f.seen ≡ bytes)
        → Finishes (replayed found.image.catalog (is_each settings.now.listing) (crowded_out (log_in (checkpoint_in found.image)) bytes) 0
        (state_at (checkpoint_in found.image)) (batches_in found.later.items)) (K.given out.old) (K.given out.new) result }
    ensures still { Still (D.history disk.old) (D.history disk.new) }
    ensures status { IfOk result (λ ending. (ending ≡ status.DONE) ⊎ (ending ≡ status.STORE_REFUSED)) }
    ensures read { result ≢ Err stop.NoRead }
    ensures refused { result ≢ Err stop.Refused }
    ensures sink { K.faults out.old ≤ K.faults out.new }
    ensures cause { IfErr result (λ stop. IsCause stop (Rose (K.faults out.old) (K.faults out.new))
        (Rose (D.history disk.old).faults (D.history disk.new).faults)) }
{
    let Found { image, later } = found;
    let log = log_of(&image);
    let engines = engines_of(settings);
    match begin(alloc, &engines, image) {
        Ok(live) => replay_later(rt, alloc, live, later, log, out, disk, pace),
        Err(Memory) => Err(Stop::NoMemory),
    }
}

/// How the batches are run. No memory.
fn engines_of(settings: &Replay) -> RunSettings
    ensures { result ≡ record {
      replicas = settings.now.replicas;
      workers = settings.now.workers;
      batons = settings.now.batons;
      each = is_each settings.now.listing;
      checkpoint = 0;
    } }
{
    RunSettings {
        replicas: settings.replicas,
        workers: settings.workers,
        batons: settings.batons,
        each: is_each(settings.listing),
        checkpoint: 0,
    }
}

/// Runs the batches one after the other, and gives the answer of each. Where one has no room beside what
/// waits, its record in this file is damaged.
fn replay_later<K: Sink, D: Disk, P: Pace + Sync, R: Threads + Sync>(
    rt: &R,
    alloc: Global,
    start: Live,
    later: Vec<Logged>,
    log: u8,
    out: &mut K,
    disk: &mut D,
    pace: &P,
) -> Result<u8, Stop>
    requires log { log < 4 }
    requires runnable { IsRunnable start }
    requires fit { AreRunnable (plan_of start) (state_of start).batches (state_of start).requests (batches_in later.items) }
    ensures output { (bytes : List ℕ) → IsSomeAnd (current (D.history disk.old) log) (λ f. f.seen ≡ bytes)
        → Finishes (replayed (plan_of start) start.each (crowded_out log bytes) 0 (state_of start) (batches_in later.items)) (K.given out.old)
        (K.given out.new) result }
    ensures still { Still (D.history disk.old) (D.history disk.new) }
    ensures status { IfOk result (λ ending. (ending ≡ status.DONE) ⊎ (ending ≡ status.STORE_REFUSED)) }
    ensures read { result ≢ Err stop.NoRead }
    ensures refused { result ≢ Err stop.Refused }
    ensures sink { K.faults out.old ≤ K.faults out.new }
    ensures cause { IfErr result (λ stop. IsCause stop (Rose (K.faults out.old) (K.faults out.new))
        (Rose (D.history disk.old).faults (D.history disk.new).faults)) }
{
    match answer_all(rt, alloc, start, later, out, pace) {
        Ok(live) => list(alloc, &live, out),
        Err(Halt::Crowded { place }) => {
            let why = damage_at(alloc, disk, log, place);
            refuse_store(alloc, why, out)
        }
        Err(Halt::Stopped(stop)) => Err(stop),
    }
}

/// Gives the last listing, where not each answer had one.
fn list<K: Sink>(alloc: Global, live: &Live, out: &mut K) -> Result<u8, Stop>
    ensures finishes { Finishes (listed (plan_of live.now) live.now.each (state_of live.now)) (K.given out.old) (K.given out.new) result }
    ensures status { IfOk result (λ ending. (ending ≡ status.DONE) ⊎ (ending ≡ status.STORE_REFUSED)) }
    ensures read { result ≢ Err stop.NoRead }
    ensures refused { result ≢ Err stop.Refused }
    ensures sink { K.faults out.old ≤ K.faults out.new }
    ensures cause { IfErr result (λ stop. IsCause stop (Rose (K.faults out.old) (K.faults out.new)) ⊥) }
{
    if live.each {
        return end_with(DONE, b"", out);
    }
    match live.list(alloc) {
        Ok(text) => end_with(DONE, &text, out),
        Err(Memory) => Err(Stop::NoMemory),
    }
}
