// The batches behind a checkpoint, run again and printed one after the other.
ghost use Rattle.std.specs.Prelude.{◌≡◌, ◌≤◌, false, IfOk, IfErr};
ghost use Rattle.std.specs.Io.KnownBytes.{Appends};
ghost use Rattle.aria_base.specs.Faults.{Rose};
ghost use Rattle.aria_base.specs.Streams.{AppendsFront};
ghost use Rattle.aria_store.specs.Stands.{batch_in, batches_in};
ghost use Rattle.script_course.specs.Causes.{IsCause};
ghost use Rattle.serving.specs.Lives.{IsRunnable, batch_text, plan_of, state_of};
ghost use Rattle.serving.specs.Stored.{handed_in, is_crowded};
ghost use Rattle.store_openings.specs.Openings.{AreRunnable, MayFollow};
ghost use Rattle.store_openings.specs.Runs.{IsStepped};
ghost use Rattle.store_commands.specs.Replays.{IsAnswered, IsCut, IsHalt, IsHaltCause};

use aria_base::{Memory, Pace, Sink};
use aria_store::Logged;
use script_course::{Stop, give};
use serving::Live;
use std::alloc::Global;
use std::thread::Threads;
use store_openings::{is_crowded, with_settings_of};

/// Why batches were not all answered.
#[derive(Clone, Copy, Debug, PartialEq, Eq)]
pub(crate) enum Halt {
    /// The sink failed, or there was no memory.
    Stopped(Stop),
    /// The batch at this place among them has no room beside what waits.
    Crowded { place: usize },
}

/// Runs a batch by its own settings, and gives its answer.
pub(crate) fn answer<K: Sink, P: Pace + Sync, R: Threads + Sync>(
    rt: &R,
    alloc: Global,
    live: Live,
    logged: Logged,
    out: &mut K,
    pace: &P,
) -> Result<Live, Stop>
    requires runnable { IsRunnable live }
    requires fit { MayFollow (plan_of live) (state_of live).batches (state_of live).requests (batch_in logged) }
    requires room { is_crowded (state_of live) (batch_in logged) ≡ false }
    ensures stepped { IfOk result (IsStepped live (batch_in logged)) }

    // Its answer was given, and where it was cut off, a prefix of it.
    ensures given { IfOk result (λ _. Appends (K.given out.old) (K.given out.new)
        (batch_text (plan_of live) live.each (state_of live) (handed_in (batch_in logged)))) }
    ensures front { IfErr result (λ _. AppendsFront (K.given out.old) (K.given out.new)
        (batch_text (plan_of live) live.each (state_of live) (handed_in (batch_in logged)))) }
    ensures cut { IfErr result IsCut }
    ensures sink { K.faults out.old ≤ K.faults out.new }
    ensures cause { IfErr result (λ stop. IsCause stop (Rose (K.faults out.old) (K.faults out.new)) ⊥) }
{
    let settled = with_settings_of(live, &logged);
    match settled.next(rt, alloc, logged.calls, pace) {
        Ok((next, text)) => give(next, &text, out),
        Err(Memory) => Err(Stop::NoMemory),
    }
}

/// Runs these batches one after the other and gives each answer, up to the first that has no room.
pub(crate) fn answer_all<K: Sink, P: Pace + Sync, R: Threads + Sync>(
    rt: &R,
    alloc: Global,
    start: Live,
    later: Vec<Logged>,
    out: &mut K,
    pace: &P,
) -> Result<Live, Halt>
    requires runnable { IsRunnable start }
    requires fit { AreRunnable (plan_of start) (state_of start).batches (state_of start).requests (batches_in later.items) }
    ensures answered { IfOk result (IsAnswered start (batches_in later.items) (K.given out.old) (K.given out.new)) }
    ensures halt { IfErr result (IsHalt start (batches_in later.items) (K.given out.old) (K.given out.new)) }
    ensures sink { K.faults out.old ≤ K.faults out.new }
    ensures cause { IfErr result (IsHaltCause (Rose (K.faults out.old) (K.faults out.new))) }
{
    let mut live = start;
    let mut place = 0;
    for logged in later {
        if is_crowded(&live, &logged) {
            return Err(Halt::Crowded { place });
        }
        match answer(rt, alloc, live, logged, out, pace) {
            Ok(next) => live = next,
            Err(stop) => return Err(Halt::Stopped(stop)),
        }
        place += 1;
    }
    Ok(live)
}
