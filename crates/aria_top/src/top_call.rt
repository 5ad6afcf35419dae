// The top call.
ghost use Rattle.std.specs.Prelude.{◌≡◌, ◌⊎◌, map, string_bytes, Some, None, true, false, IfSome, ℕ, List};
ghost use Rattle.std.specs.Io.KnownBytes.{Appends, IsAtEnd};
ghost use Rattle.aria_base.specs.Faults.{Rose};
ghost use Rattle.aria_base.specs.Streams.{AppendsFront};
ghost use Rattle.command_words.specs.declared.settings.Once.{Once};
ghost use Rattle.aria_top.specs.Out.{out_for, out_of_task, IsToldFor, IsTrueOf, LinesAreOne};
ghost use Rattle.aria_top.specs.Statuses.{IsAnswered, IsEnded};
ghost use Rattle.aria_store.specs.Reopens.{Reopened};
ghost use Rattle.aria_top.specs.Disks.{LeavesDisk, Sees};
ghost use Rattle.aria_top.specs.Tasks.{finds, makes, opens, reads, task_in, uses_disk, IsInRange};
ghost use Rattle.answer_text.specs.Notices.{refused_text};
ghost use Rattle.answer_text.specs.declared.notices.NotDone.TheVariants.{Usage};
ghost use Rattle.run_commands.specs.Serial.{EachIsSerial, EachReplayIsSerial, EachRunIsSerial};

use crate::commands::{run_audit, run_bench, run_check, run_gen, run_mix, run_nodes, run_once};
use crate::laws::lines_are_one;
use crate::stores::{run_batches, run_init, run_replay};
use crate::tasks::read_task;
use answer_text::{NotDone, refused_line};
use aria_base::{Memory, Pace, Sink, Source};
use command_words::Command;
use disk_model::Disk;
use run_commands::{each_is_serial, each_replay_is_serial, each_run_is_serial};
use script_course::{
    DISK_FAULT, DONE, FAILS, NO_MEMORY, READ_FAULT, REFUSED, STORE_REFUSED, USAGE, WRITE_FAULT,
};
use std::alloc::Global;
use std::thread::Threads;

/// Runs the command that the arguments are, without the program's name, from the input's bytes to the
/// output's, and answers its status; `docs/commands.md` has what each command prints and when it ends so:
///
/// 0 (`DONE`): all was done. 1 (`REFUSED`): a line of the input was refused, or a drained batch would pass
/// the greatest number. 2 (`USAGE`): the arguments are no command. 3, 4 and 5 (`READ_FAULT`, `WRITE_FAULT`,
/// `DISK_FAULT`): the source, the sink or the disk failed. 6 (`STORE_REFUSED`): there is no store, one in
/// the way or a damaged one. 7 (`NO_MEMORY`): there was no memory. 8 (`FAILS`): an audit or a report does
/// not hold.
///
/// Commands on a store have it on the disk, and all others leave the disk alone. No answer depends on the
/// pace, the workers and the replicas.
pub fn aria<S: Source, K: Sink, D: Disk, P: Pace + Sync, R: Threads + Sync>(
    rt: &R,
    alloc: Global,
    words: &[String],
    input: &mut S,
    out: &mut K,
    disk: &mut D,
    pace: &P,
) -> u8
    // Where the answer is 0, 1, 2, 6 or 8, it is the defined one, and all of the output is written; else a
    // prefix of it.
    ensures answered { (images : ℕ → List ℕ) (found : Reopened) → Sees (task_in (map string_bytes words.now)) (D.history disk.old) images found
        → IsAnswered result → IfSome (out_for (map string_bytes words.now) (S.left input.old) images found)
        (λ o. (result ≡ o.status) × Appends (K.given out.old) (K.given out.new) o.bytes) }
    ensures front { (images : ℕ → List ℕ) (found : Reopened) → Sees (task_in (map string_bytes words.now)) (D.history disk.old) images found
        → IfSome (out_for (map string_bytes words.now) (S.left input.old) images found)
        (λ o. AppendsFront (K.given out.old) (K.given out.new) o.bytes) }

    // Nothing but the source, the sink, the disk and memory is in the way.
    ensures others { IsAnswered result ⊎ (result ≡ READ_FAULT) ⊎ (result ≡ WRITE_FAULT) ⊎ (result ≡ DISK_FAULT) ⊎ (result ≡ NO_MEMORY) }
    ensures read { result ≡ READ_FAULT → Rose (S.faults input.old) (S.faults input.new) }
    ensures write { result ≡ WRITE_FAULT → Rose (K.faults out.old) (K.faults out.new) }
    ensures device { result ≡ DISK_FAULT → Rose (D.history disk.old).faults (D.history disk.new).faults }

    // The input was read to its end; or the source failed, and what was written is all that the bytes
    // taken so far tell, of which no line was refused; or it is not read, and was not touched.
    ensures end { IsEnded result → reads (task_in (map string_bytes words.now)) ≡ true → IsAtEnd (S.left input.new) }
    ensures told { (images : ℕ → List ℕ) (found : Reopened) → Sees (task_in (map string_bytes words.now)) (D.history disk.old) images found
        → result ≡ READ_FAULT → IsToldFor (task_in (map string_bytes words.now)) images found (S.left input.old) (S.left input.new) (K.given out.old)
        (K.given out.new) }
    ensures untouched { reads (task_in (map string_bytes words.now)) ≡ false → input.new ≡ input.old }
    ensures usage { result ≡ USAGE → task_in (map string_bytes words.now) ≡ None }

    // Only what is read is refused, only a finding fails, and only a command on a store refuses one, whatever
    // the source and the disk tell.
    ensures refuses { result ≡ REFUSED → reads (task_in (map string_bytes words.now)) ≡ true }
    ensures fails { result ≡ FAILS → finds (task_in (map string_bytes words.now)) ≡ true }
    ensures unopened { result ≡ STORE_REFUSED → uses_disk (task_in (map string_bytes words.now)) ≡ true }

    // Without a store that can be opened, nothing is read for a command that needs one.
    ensures unread { result ≡ STORE_REFUSED → opens (task_in (map string_bytes words.now)) ≡ true → input.new ≡ input.old }

    // No call is made on the disk to make a store of what was not read to its end.
    ensures unlooked { makes (task_in (map string_bytes words.now)) ≡ true → (result ≡ REFUSED) ⊎ (result ≡ READ_FAULT) → disk.new ≡ disk.old }

    // What a stop at any moment and a stop now leave of the disk.
    ensures disk { uses_disk (task_in (map string_bytes words.now)) ≡ false → disk.new ≡ disk.old }
    ensures leaves { LeavesDisk (task_in (map string_bytes words.now)) (S.left input.old) (D.history disk.old) (D.history disk.new)
        (K.given out.old) (K.given out.new) result }

    // Each batch of a script, each that drains it, and each of a log is serialised by the order that its answer
    // prints.
    ensures serial { (settings : Once) (text : List ℕ) → EachIsSerial settings text }
    ensures stored { EachRunIsSerial }
    ensures replayed { EachReplayIsSerial }

    // Workers, replicas, nodes and batons have no say in what is printed.
    ensures alike { LinesAreOne }

    // Where the mix is printed, its rows are sound: the audit holds, as the last line says.
    ensures sound { result ≡ DONE → IfSome (task_in (map string_bytes words.now)) IsTrueOf }
{
    each_is_serial();
    each_run_is_serial();
    each_replay_is_serial();
    lines_are_one();
    match read_task(alloc, words) {
        Ok(Some(task)) => return run_task(rt, alloc, &task, input, out, disk, pace),
        Ok(None) => return refuse_usage(out),
        Err(Memory) => return NO_MEMORY,
    }
}

/// Does what the arguments ask for, and answers its status.
fn run_task<S: Source, K: Sink, D: Disk, P: Pace + Sync, R: Threads + Sync>(
    rt: &R,
    alloc: Global,
    task: &Command,
    input: &mut S,
    out: &mut K,
    disk: &mut D,
    pace: &P,
) -> u8
    requires { IsInRange task.now }
    ensures answered { (images : ℕ → List ℕ) (found : Reopened) → Sees (Some task.now) (D.history disk.old) images found → IsAnswered result
        → IfSome (out_of_task task.now (S.left input.old) images found)
        (λ o. (result ≡ o.status) × Appends (K.given out.old) (K.given out.new) o.bytes) }
    ensures front { (images : ℕ → List ℕ) (found : Reopened) → Sees (Some task.now) (D.history disk.old) images found
        → IfSome (out_of_task task.now (S.left input.old) images found) (λ o. AppendsFront (K.given out.old) (K.given out.new) o.bytes) }
    ensures others { IsAnswered result ⊎ (result ≡ READ_FAULT) ⊎ (result ≡ WRITE_FAULT) ⊎ (result ≡ DISK_FAULT) ⊎ (result ≡ NO_MEMORY) }
    ensures usage { result ≡ USAGE → ⊥ }
    ensures read { result ≡ READ_FAULT → Rose (S.faults input.old) (S.faults input.new) }
    ensures write { result ≡ WRITE_FAULT → Rose (K.faults out.old) (K.faults out.new) }
    ensures device { result ≡ DISK_FAULT → Rose (D.history disk.old).faults (D.history disk.new).faults }
    ensures end { IsEnded result → reads (Some task.now) ≡ true → IsAtEnd (S.left input.new) }
    ensures told { (images : ℕ → List ℕ) (found : Reopened) → Sees (Some task.now) (D.history disk.old) images found → result ≡ READ_FAULT
        → IsToldFor (Some task.now) images found (S.left input.old) (S.left input.new) (K.given out.old) (K.given out.new) }
    ensures untouched { reads (Some task.now) ≡ false → input.new ≡ input.old }
    ensures refuses { result ≡ REFUSED → reads (Some task.now) ≡ true }
    ensures fails { result ≡ FAILS → finds (Some task.now) ≡ true }
    ensures unopened { result ≡ STORE_REFUSED → uses_disk (Some task.now) ≡ true }
    ensures unread { result ≡ STORE_REFUSED → opens (Some task.now) ≡ true → input.new ≡ input.old }
    ensures unlooked { makes (Some task.now) ≡ true → (result ≡ REFUSED) ⊎ (result ≡ READ_FAULT) → disk.new ≡ disk.old }
    ensures disk { uses_disk (Some task.now) ≡ false → disk.new ≡ disk.old }
    ensures leaves { LeavesDisk (Some task.now) (S.left input.old) (D.history disk.old) (D.history disk.new) (K.given out.old) (K.given out.new) result }
    ensures sound { result ≡ DONE → IsTrueOf task.now }
{
    match task {
        Command::Once(settings) => return run_once(rt, alloc, settings, input, out, disk, pace),
        Command::Init(settings) => return run_init(alloc, settings, input, out, disk),
        Command::Run(settings) => return run_batches(rt, alloc, settings, input, out, disk, pace),
        Command::Replay(settings) => return run_replay(rt, alloc, settings, out, disk, pace),
        Command::Gen(settings) => return run_gen(alloc, settings, out),
        Command::Bench(settings) => return run_bench(rt, alloc, settings, out, pace),
        Command::Mix(settings) => return run_mix(rt, alloc, settings, out, pace),
        Command::Nodes(settings) => return run_nodes(alloc, settings, input, out),
        Command::Audit => return run_audit(alloc, input, out),
        Command::Check => return run_check(alloc, input, out),
    }
}

/// Refuses the arguments.
fn refuse_usage<K: Sink>(out: &mut K) -> u8
    ensures answered { result ≡ USAGE → Appends (K.given out.old) (K.given out.new) (refused_text Usage) }
    ensures front { AppendsFront (K.given out.old) (K.given out.new) (refused_text Usage) }
    ensures others { (result ≡ USAGE) ⊎ (result ≡ WRITE_FAULT) }
    ensures write { result ≡ WRITE_FAULT → Rose (K.faults out.old) (K.faults out.new) }
{
    match out.give(refused_line(NotDone::Usage)) {
        Ok(()) => USAGE,
        Err(_) => WRITE_FAULT,
    }
}
