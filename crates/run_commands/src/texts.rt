// A whole script, from its first line to its end.
ghost use Rattle.std.specs.Prelude.{◌≡◌, ◌⊎◌, ◌≤◌, ℕ, Ok, Err, None, IfOk, IfErr, IfSome, IsSomeAnd};
ghost use Rattle.std.specs.Io.KnownBytes.{IsAtEnd};
ghost use Rattle.aria_base.specs.Faults.{Rose};
ghost use Rattle.script_course.specs.Causes.{IsReadCause};
ghost use Rattle.script_course.specs.Courses.{told, whole};
ghost use Rattle.script_course.specs.Served.{Completes};
ghost use Rattle.script_course.specs.declared.statuses.TheConstants.{DONE};
ghost use Rattle.script_course.specs.declared.stops.Stop.TheVariants as stop;
ghost use Rattle.run_commands.specs.Keeps.{IsOpen, Keeps, LeavesLaid, held_of};
ghost use Rattle.run_commands.specs.Onces.{on_end, on_line};
ghost use Rattle.run_commands.specs.Outs.{no_line, text_turns};
ghost use Rattle.run_commands.specs.Passes.{PassesTurns, held_behind};
ghost use Rattle.run_commands.specs.Saves.{IsLeft};
ghost use Rattle.run_commands.specs.Turns.{HoldsScript, saved_over};
ghost use Rattle.disk_model.specs.Histories.{LeavesAll};
ghost use Rattle.store_openings.specs.Saved.{Saved};
ghost use Rattle.script_places.specs.Places.{plan_in};

use crate::ends::end_of;
use crate::loops::read_script;
use crate::scripts::Script;
use aria_base::{Pace, Sink, Source};
use disk_model::Disk;
use script_course::{DONE, Stop};
use std::alloc::Global;
use std::thread::Threads;

/// Runs the script that the source gives, from this one on, and then its end.
pub(crate) fn run_text<S: Source, K: Sink, D: Disk, P: Pace + Sync, R: Threads + Sync>(
    rt: &R,
    alloc: Global,
    start: Script,
    drains: bool,
    input: &mut S,
    out: &mut K,
    disk: &mut D,
    pace: &P,
) -> Result<u8, Stop>
    requires open { IsOpen (D.history disk.old) start }
    ensures completes { Completes (told on_line no_line start.doing) (whole on_line (on_end drains) no_line start.doing) (S.left input.old)
        (S.left input.new) (K.given out.old) (K.given out.new) result }
    ensures zero { IfOk result (λ status. status ≡ DONE) }
    ensures end { IfOk result (λ _. IsAtEnd (S.left input.new)) }

    // Over a store: what a stop at any moment leaves, and what the disk holds behind all of it.
    ensures keeps { (first : ℕ) (saved : Saved) → HoldsScript first saved (D.history disk.old) start
        → IfSome (S.left input.old) (λ text. Keeps (PassesTurns (text_turns drains start.doing text) start.doing (held_of start))
        (plan_in start.doing.place.head) (D.history disk.old) (D.history disk.new) (K.given out.old) (K.given out.new)) }
    ensures left { (first : ℕ) (saved : Saved) → HoldsScript first saved (D.history disk.old) start
        → IfSome (S.left input.old) (λ text. LeavesAll (D.history disk.old) (D.history disk.new)
        (IsLeft start.checkpoint (text_turns drains start.doing text) start.doing saved)) }
    ensures laid { (first : ℕ) (saved : Saved) → HoldsScript first saved (D.history disk.old) start → (result ≡ Ok DONE) ⊎ (result ≡ Err stop.Refused)
        → IfSome (S.left input.old) (λ text. LeavesLaid first (saved_over (text_turns drains start.doing text) start saved) start.checkpoint
        (D.history disk.new) (plan_in start.doing.place.head) (held_behind (text_turns drains start.doing text) start.doing (held_of start))) }
    ensures untouched { start.store ≡ None → disk.new ≡ disk.old }
    ensures source { S.faults input.old ≤ S.faults input.new }
    ensures sink { K.faults out.old ≤ K.faults out.new }
    ensures cause { IfErr result (λ stop. IsReadCause stop (Rose (S.faults input.old) (S.faults input.new))
        (Rose (K.faults out.old) (K.faults out.new)) (IsSomeAnd start.store (λ _. Rose (D.history disk.old).faults (D.history disk.new).faults))) }
{
    match read_script(rt, alloc, start, input, out, disk, pace) {
        Ok(last) => end_of(rt, alloc, last, drains, out, disk, pace),
        Err(stop) => Err(stop),
    }
}
