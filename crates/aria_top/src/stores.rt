// Each command on a store, with the status that it ends in.
ghost use Rattle.std.specs.Prelude.{◌≡◌, ◌⊎◌, ◌≤◌, ℕ, List, IfSome};
ghost use Rattle.std.specs.Io.KnownBytes.{Appends, IsAtEnd};
ghost use Rattle.aria_base.specs.Faults.{Rose};
ghost use Rattle.aria_base.specs.Streams.{AppendsFront};
ghost use Rattle.aria_base.specs.declared.limits.TheConstants.{MOST_PERCENT, MOST_REPLICAS, MOST_WORKERS};
ghost use Rattle.aria_store.specs.Reopens.{Reopened, Reopens};
ghost use Rattle.disk_model.specs.Histories.{LeavesAll, MayLeave};
ghost use Rattle.run_commands.specs.Resumes.{IsToldOver, out_over};
ghost use Rattle.script_course.specs.Served.{IsToldOf};
ghost use Rattle.store_commands.specs.Drafts.{told_of as init_told};
ghost use Rattle.store_commands.specs.Inits as init;
ghost use Rattle.store_commands.specs.Replays as replay;
ghost use Rattle.store_openings.specs.Openings.{ReadsAs, opened};
ghost use Rattle.aria_top.specs.Disks.{InitLeaves, RunLeaves, is_taken};
ghost use Rattle.aria_top.specs.Statuses.{IsAnswered};

use crate::endings::final_status;
use aria_base::{Pace, Sink, Source};
use command_words::{Init, Replay, Run};
use disk_model::Disk;
use run_commands::run;
use script_course::{DISK_FAULT, DONE, NO_MEMORY, READ_FAULT, REFUSED, STORE_REFUSED, WRITE_FAULT};
use std::alloc::Global;
use std::thread::Threads;
use store_commands::{init, replay};

/// Runs `init`, and answers its status.
pub fn run_init<S: Source, K: Sink, D: Disk>(
    alloc: Global,
    settings: &Init,
    input: &mut S,
    out: &mut K,
    disk: &mut D,
) -> u8
    requires { settings.now.fallback ≤ MOST_PERCENT }
    ensures answered { (images : ℕ → List ℕ) → ReadsAs (D.history disk.old) images → IsAnswered result → IfSome (S.left input.old)
        (λ text. (result ≡ (init.out_of settings.now (is_taken images) text).status)
        × Appends (K.given out.old) (K.given out.new) (init.out_of settings.now (is_taken images) text).bytes) }
    ensures front { (images : ℕ → List ℕ) → ReadsAs (D.history disk.old) images
        → IfSome (S.left input.old) (λ text. AppendsFront (K.given out.old) (K.given out.new) (init.out_of settings.now (is_taken images) text).bytes) }
    ensures others { (result ≡ DONE) ⊎ (result ≡ STORE_REFUSED) ⊎ (result ≡ REFUSED) ⊎ (result ≡ READ_FAULT) ⊎ (result ≡ WRITE_FAULT)
        ⊎ (result ≡ DISK_FAULT) ⊎ (result ≡ NO_MEMORY) }
    ensures read { result ≡ READ_FAULT → Rose (S.faults input.old) (S.faults input.new) }
    ensures write { result ≡ WRITE_FAULT → Rose (K.faults out.old) (K.faults out.new) }
    ensures device { result ≡ DISK_FAULT → Rose (D.history disk.old).faults (D.history disk.new).faults }
    ensures end { (result ≡ DONE) ⊎ (result ≡ STORE_REFUSED) → IsAtEnd (S.left input.new) }
    ensures unlooked { (result ≡ REFUSED) ⊎ (result ≡ READ_FAULT) → disk.new ≡ disk.old }
    ensures told { result ≡ READ_FAULT → IsToldOf init_told (S.left input.old) (S.left input.new) (K.given out.old) (K.given out.new) }
    ensures leaves { (images : ℕ → List ℕ) → ReadsAs (D.history disk.old) images → InitLeaves settings.now (is_taken images)
        (S.left input.old) (D.history disk.old) (D.history disk.new) (K.given out.old) (K.given out.new) result }
{
    final_status(init(alloc, settings, input, out, disk))
}

/// Runs `run`, and answers its status.
pub fn run_batches<S: Source, K: Sink, D: Disk, P: Pace + Sync, R: Threads + Sync>(
    rt: &R,
    alloc: Global,
    settings: &Run,
    input: &mut S,
    out: &mut K,
    disk: &mut D,
    pace: &P,
) -> u8
    requires workers { (1 ≤ settings.now.workers) × (settings.now.workers ≤ MOST_WORKERS) }
    requires replicas { (1 ≤ settings.now.replicas) × (settings.now.replicas ≤ MOST_REPLICAS) }
    ensures answered { (images : ℕ → List ℕ) (found : Reopened) → ReadsAs (D.history disk.old) images → Reopens images found → IsAnswered result
        → IfSome (out_over settings.now (opened images found) (S.left input.old))
        (λ o. (result ≡ o.status) × Appends (K.given out.old) (K.given out.new) o.bytes) }
    ensures front { (images : ℕ → List ℕ) (found : Reopened) → ReadsAs (D.history disk.old) images → Reopens images found
        → IfSome (out_over settings.now (opened images found) (S.left input.old)) (λ o. AppendsFront (K.given out.old) (K.given out.new) o.bytes) }
    ensures others { (result ≡ DONE) ⊎ (result ≡ STORE_REFUSED) ⊎ (result ≡ REFUSED) ⊎ (result ≡ READ_FAULT) ⊎ (result ≡ WRITE_FAULT)
        ⊎ (result ≡ DISK_FAULT) ⊎ (result ≡ NO_MEMORY) }
    ensures read { result ≡ READ_FAULT → Rose (S.faults input.old) (S.faults input.new) }
    ensures write { result ≡ WRITE_FAULT → Rose (K.faults out.old) (K.faults out.new) }
    ensures device { result ≡ DISK_FAULT → Rose (D.history disk.old).faults (D.history disk.new).faults }
    ensures end { result ≡ DONE → IsAtEnd (S.left input.new) }
    ensures unread { result ≡ STORE_REFUSED → input.new ≡ input.old }
    ensures told { (images : ℕ → List ℕ) (found : Reopened) → ReadsAs (D.history disk.old) images → Reopens images found → result ≡ READ_FAULT
        → IsToldOver settings.now (opened images found) (S.left input.old) (S.left input.new) (K.given out.old) (K.given out.new) }
    ensures leaves { (images : ℕ → List ℕ) (found : Reopened) → ReadsAs (D.history disk.old) images → Reopens images found
        → RunLeaves settings.now images found (S.left input.old) (D.history disk.old) (D.history disk.new) (K.given out.old) (K.given out.new) result }
{
    final_status(run(rt, alloc, settings, input, out, disk, pace))
}

/// Runs `replay`, and answers its status.
pub fn run_replay<K: Sink, D: Disk, P: Pace + Sync, R: Threads + Sync>(
    rt: &R,
    alloc: Global,
    settings: &Replay,
    out: &mut K,
    disk: &mut D,
    pace: &P,
) -> u8
    requires workers { (1 ≤ settings.now.workers) × (settings.now.workers ≤ MOST_WORKERS) }
    requires replicas { (1 ≤ settings.now.replicas) × (settings.now.replicas ≤ MOST_REPLICAS) }
    ensures answered { (images : ℕ → List ℕ) (found : Reopened) → ReadsAs (D.history disk.old) images → Reopens images found → IsAnswered result
        → (result ≡ (replay.out_of settings.now images found).status)
        × Appends (K.given out.old) (K.given out.new) (replay.out_of settings.now images found).bytes }
    ensures front { (images : ℕ → List ℕ) (found : Reopened) → ReadsAs (D.history disk.old) images → Reopens images found
        → AppendsFront (K.given out.old) (K.given out.new) (replay.out_of settings.now images found).bytes }
    ensures others { (result ≡ DONE) ⊎ (result ≡ STORE_REFUSED) ⊎ (result ≡ WRITE_FAULT) ⊎ (result ≡ DISK_FAULT) ⊎ (result ≡ NO_MEMORY) }
    ensures write { result ≡ WRITE_FAULT → Rose (K.faults out.old) (K.faults out.new) }
    ensures device { result ≡ DISK_FAULT → Rose (D.history disk.old).faults (D.history disk.new).faults }
    ensures leaves { LeavesAll (D.history disk.old) (D.history disk.new) (MayLeave (D.history disk.old) (D.history disk.old).now) }
{
    final_status(replay(rt, alloc, settings, out, disk, pace))
}
