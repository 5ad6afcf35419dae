// The end of a script.
ghost use Rattle.std.specs.Prelude.{◌≡◌, ◌≢◌, ◌≤◌, ◌⊎◌, ℕ, Ok, Err, None, IfOk, IfErr, IfSome, IsSomeAnd, ◌+◌};
ghost use Rattle.aria_base.specs.Faults.{Rose};
ghost use Rattle.script_course.specs.Causes.{IsCause};
ghost use Rattle.script_course.specs.Served.{Finishes, Serves};
ghost use Rattle.script_course.specs.declared.statuses.TheConstants.{DONE};
ghost use Rattle.script_course.specs.declared.stops.Stop.TheVariants as stop;
ghost use Rattle.serving.specs.Drains.{drains};
ghost use Rattle.serving.specs.Stored.{GoesOn};
ghost use Rattle.run_commands.specs.Bases.{IsBounded, IsListed, IsNamed, base_result, checkpoint_in, state_in, store_in};
ghost use Rattle.run_commands.specs.Endings.{HoldsBase, IsEnd, closing_turns, drains_of, held_in};
ghost use Rattle.run_commands.specs.Keeps.{IsOpen, Keeps, LeavesLaid, held_of};
ghost use Rattle.run_commands.specs.Onces.{Doing, drained, listed, on_end};
ghost use Rattle.run_commands.specs.Passes.{PassesTurns, ending_of, held_behind};
ghost use Rattle.run_commands.specs.Saves.{IsLeft, saved_behind};
ghost use Rattle.disk_model.specs.Histories.{LeavesAll};
ghost use Rattle.run_commands.specs.Turns.{HoldsScript, saved_over};
ghost use Rattle.store_openings.specs.Saved.{Saved};
ghost use Rattle.script_places.specs.Places.{plan_in};

use crate::bases::Base;
use crate::drains::drain;
use crate::scripts::Script;
use crate::works::Work;
use aria_base::{Memory, Pace, Sink};
use disk_model::Disk;
use script_course::{DONE, Stop, end_with, refuse};
use script_places::{ScriptCatalog, closes};
use script_text::LinesRefused;
use std::alloc::Global;
use std::thread::Threads;

/// The end of the input: what waits is drained where that is asked for, and the rows are listed where
/// not each answer had its listing. Without a store the disk is not touched.
pub(crate) fn end_of<K: Sink, D: Disk, P: Pace + Sync, R: Threads + Sync>(
    rt: &R,
    alloc: Global,
    script: Script,
    drains: bool,
    out: &mut K,
    disk: &mut D,
    pace: &P,
) -> Result<u8, Stop>
    requires open { IsOpen (D.history disk.old) script }
    ensures finishes { Finishes (on_end drains script.doing) (K.given out.old) (K.given out.new) result }
    ensures read { result ≢ Err stop.NoRead }
    ensures zero { IfOk result (λ status. status ≡ DONE) }

    // A stop at any moment leaves the state between two batches; and a stop now, what was given by then.
    ensures keeps { (first : ℕ) (saved : Saved) → HoldsScript first saved (D.history disk.old) script
        → Keeps (PassesTurns (ending_of drains script.doing) script.doing (held_of script)) (plan_in script.doing.place.head)
        (D.history disk.old) (D.history disk.new) (K.given out.old) (K.given out.new) }

    // It leaves just what stands behind some first ones of what is done.
    ensures left { (first : ℕ) (saved : Saved) → HoldsScript first saved (D.history disk.old) script
        → LeavesAll (D.history disk.old) (D.history disk.new) (IsLeft script.checkpoint (ending_of drains script.doing) script.doing saved) }

    // Behind the end, and where something is refused, the disk holds the state behind all batches that were run.
    ensures laid { (first : ℕ) (saved : Saved) → HoldsScript first saved (D.history disk.old) script
        → (result ≡ Ok DONE) ⊎ (result ≡ Err stop.Refused)
        → LeavesLaid first (saved_over (ending_of drains script.doing) script saved) script.checkpoint (D.history disk.new) (plan_in script.doing.place.head)
        (held_behind (ending_of drains script.doing) script.doing (held_of script)) }
    ensures untouched { script.store ≡ None → disk.new ≡ disk.old }
    ensures sink { K.faults out.old ≤ K.faults out.new }
    ensures cause { IfErr result (λ stop. IsCause stop (Rose (K.faults out.old) (K.faults out.new)) (IsSomeAnd script.store
        (λ _. Rose (D.history disk.old).faults (D.history disk.new).faults))) }
{
    closes();
    let Script { place, work } = script;
    let line = place.lines.saturating_add(1);
    match place.close(alloc) {
        Ok(place) => close(rt, alloc, &place.head, work, drains, line, out, disk, pace),
        Err(LinesRefused::Memory) => Err(Stop::NoMemory),
        Err(LinesRefused::Line(refusal)) => refuse(alloc, &refusal, out),
    }
}

/// What follows where nothing is refused.
fn close<K: Sink, D: Disk, P: Pace + Sync, R: Threads + Sync>(
    rt: &R,
    alloc: Global,
    head: &ScriptCatalog,
    work: Work,
    drains: bool,
    line: u64,
    out: &mut K,
    disk: &mut D,
    pace: &P,
) -> Result<u8, Stop>
    requires named { IsNamed head.now work.base }
    requires bounded { IsBounded work.base }
    requires listed { IsListed work.each work.base }
    requires logging { IfSome (store_in work.base) (GoesOn (D.history disk.old) (state_in work.base).batches) }
    ensures finishes { Finishes (drained drains (plan_in head.now) work.each line (state_in work.base)) (K.given out.old) (K.given out.new) result }
    ensures read { result ≢ Err stop.NoRead }
    ensures zero { IfOk result (λ status. status ≡ DONE) }
    ensures keeps { (first : ℕ) (saved : Saved) (d : Doing) → IsEnd (plan_in head.now) work.each line (state_in work.base) d
        → HoldsBase first saved (D.history disk.old) (plan_in head.now) work.base
        → Keeps (PassesTurns (closing_turns drains (state_in work.base)) d (held_in work.base)) (plan_in head.now)
        (D.history disk.old) (D.history disk.new) (K.given out.old) (K.given out.new) }
    ensures left { (first : ℕ) (saved : Saved) (d : Doing) → IsEnd (plan_in head.now) work.each line (state_in work.base) d
        → HoldsBase first saved (D.history disk.old) (plan_in head.now) work.base
        → LeavesAll (D.history disk.old) (D.history disk.new) (IsLeft (checkpoint_in work.base) (closing_turns drains (state_in work.base)) d saved) }
    ensures laid { (first : ℕ) (saved : Saved) (d : Doing) → IsEnd (plan_in head.now) work.each line (state_in work.base) d
        → HoldsBase first saved (D.history disk.old) (plan_in head.now) work.base
        → (result ≡ Ok DONE) ⊎ (result ≡ Err stop.Refused)
        → LeavesLaid first (saved_behind (checkpoint_in work.base) (closing_turns drains (state_in work.base)) d saved) (checkpoint_in work.base)
        (D.history disk.new) (plan_in head.now) (held_behind (closing_turns drains (state_in work.base)) d (held_in work.base)) }
    ensures untouched { store_in work.base ≡ None → disk.new ≡ disk.old }
    ensures sink { K.faults out.old ≤ K.faults out.new }
    ensures cause { IfErr result (λ stop. IsCause stop (Rose (K.faults out.old) (K.faults out.new)) (IsSomeAnd (store_in work.base)
        (λ _. Rose (D.history disk.old).faults (D.history disk.new).faults))) }
{
    let each = work.each;
    if !drains {
        return list(alloc, head, &work.base, each, out);
    }
    match drained(rt, alloc, head, work.base, each, line, out, disk, pace) {
        Ok(base) => list(alloc, head, &base, each, out),
        Err(stop) => Err(stop),
    }
}

/// What waits, drained.
fn drained<K: Sink, D: Disk, P: Pace + Sync, R: Threads + Sync>(
    rt: &R,
    alloc: Global,
    head: &ScriptCatalog,
    base: Base,
    each: bool,
    line: u64,
    out: &mut K,
    disk: &mut D,
    pace: &P,
) -> Result<Base, Stop>
    requires named { IsNamed head.now base }
    requires bounded { IsBounded base }
    requires listed { IsListed each base }
    requires logging { IfSome (store_in base) (GoesOn (D.history disk.old) (state_in base).batches) }
    ensures serves { Serves (drains (plan_in head.now) each line (state_in base)) (K.given out.old) (K.given out.new) (base_result result) }
    ensures named { IfOk result (IsNamed head.now) }
    ensures keeps { (first : ℕ) (saved : Saved) (d : Doing) → IsEnd (plan_in head.now) each line (state_in base) d
        → HoldsBase first saved (D.history disk.old) (plan_in head.now) base
        → Keeps (PassesTurns (drains_of (state_in base)) d (held_in base)) (plan_in head.now) (D.history disk.old) (D.history disk.new)
        (K.given out.old) (K.given out.new) }
    ensures left { (first : ℕ) (saved : Saved) (d : Doing) → IsEnd (plan_in head.now) each line (state_in base) d
        → HoldsBase first saved (D.history disk.old) (plan_in head.now) base
        → LeavesAll (D.history disk.old) (D.history disk.new) (IsLeft (checkpoint_in base) (drains_of (state_in base)) d saved) }
    ensures holds { (first : ℕ) (saved : Saved) (d : Doing) → IsEnd (plan_in head.now) each line (state_in base) d
        → HoldsBase first saved (D.history disk.old) (plan_in head.now) base
        → IfOk result (HoldsBase first (saved_behind (checkpoint_in base) (drains_of (state_in base)) d saved) (D.history disk.new) (plan_in head.now)) }
    ensures checkpoint { IfOk result (λ next. checkpoint_in next ≡ checkpoint_in base) }
    ensures held { (d : Doing) → IsEnd (plan_in head.now) each line (state_in base) d
        → IfOk result (λ next. held_behind (drains_of (state_in base)) d (held_in base) ≡ held_in next) }
    ensures refused { (first : ℕ) (saved : Saved) (d : Doing) → IsEnd (plan_in head.now) each line (state_in base) d
        → HoldsBase first saved (D.history disk.old) (plan_in head.now) base → result ≡ Err stop.Refused
        → LeavesLaid first (saved_behind (checkpoint_in base) (drains_of (state_in base)) d saved) (checkpoint_in base) (D.history disk.new)
        (plan_in head.now) (held_behind (drains_of (state_in base)) d (held_in base)) }
    ensures untouched { store_in base ≡ None → disk.new ≡ disk.old }
    ensures sink { K.faults out.old ≤ K.faults out.new }
    ensures cause { IfErr result (λ stop. IsCause stop (Rose (K.faults out.old) (K.faults out.new)) (IsSomeAnd (store_in base)
        (λ _. Rose (D.history disk.old).faults (D.history disk.new).faults))) }
{
    match base {
        Base::Rows(tables, config) => Ok(Base::Rows(tables, config)),
        Base::Runs(live) => match drain(rt, alloc, live, line, out, disk, pace) {
            Ok(live) => Ok(Base::Runs(live)),
            Err(stop) => Err(stop),
        },
    }
}

/// Gives the last listing, where not each answer had one.
fn list<K: Sink>(
    alloc: Global,
    head: &ScriptCatalog,
    base: &Base,
    each: bool,
    out: &mut K,
) -> Result<u8, Stop>
    requires { IsNamed head.now base.now }
    ensures finishes { Finishes (listed (plan_in head.now) each (state_in base.now)) (K.given out.old) (K.given out.new) result }
    ensures read { result ≢ Err stop.NoRead }
    ensures zero { IfOk result (λ status. status ≡ DONE) }
    ensures sink { K.faults out.old ≤ K.faults out.new }
    ensures cause { IfErr result (λ stop. IsCause stop (Rose (K.faults out.old) (K.faults out.new)) ⊥) }
{
    if each {
        return end_with(DONE, b"", out);
    }
    match base.list(alloc, head) {
        Ok(text) => end_with(DONE, &text, out),
        Err(Memory) => Err(Stop::NoMemory),
    }
}
