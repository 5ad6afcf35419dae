// What a command gives to its sink: what a line prints, the line of a refusal, and what the end prints.
ghost use Rattle.std.specs.Prelude.{◌≡◌, ◌≢◌, ◌≤◌, Err, IfErr, IsErr};
ghost use Rattle.aria_base.specs.Faults.{Rose};
ghost use Rattle.aria_base.specs.Streams.{AppendsFront};
ghost use Rattle.script_course.specs.declared.stops.Stop.TheVariants as stop;
ghost use Rattle.script_course.specs.Causes.{IsCause};
ghost use Rattle.script_course.specs.Courses.{Goes, Stops};
ghost use Rattle.answer_text.specs.Refusals.{refusal_text};
ghost use Rattle.script_course.specs.Served.{Serves, Finishes};

use crate::stops::Stop;
use answer_text::print_refusal;
use aria_base::{Memory, Sink};
use script_text::Refusal;
use std::alloc::Global;

/// Gives what a line prints, and goes on from this state. No memory.
pub fn give<K: Sink, C: Drop>(next: C, bytes: &[u8], out: &mut K) -> Result<C, Stop>
    ensures serves { Serves (Goes bytes.now next) (K.given out.old) (K.given out.new) result }
    ensures sink { K.faults out.old ≤ K.faults out.new }
    ensures cause { IfErr result (λ stop. IsCause stop (Rose (K.faults out.old) (K.faults out.new)) ⊥) }
{
    match out.give(bytes) {
        Ok(()) => Ok(next),
        Err(_) => Err(Stop::NoWrite),
    }
}

/// Gives the line of a refusal, and stops. `C` is the state that does not go on.
pub fn refuse<K: Sink, C>(alloc: Global, refusal: &Refusal, out: &mut K) -> Result<C, Stop>
    ensures serves { Serves {R = C} (Stops (refusal_text refusal.now)) (K.given out.old) (K.given out.new) result }
    ensures stops { IsErr result }
    ensures front { AppendsFront (K.given out.old) (K.given out.new) (refusal_text refusal.now) }
    ensures sink { K.faults out.old ≤ K.faults out.new }
    ensures cause { IfErr result (λ stop. IsCause stop (Rose (K.faults out.old) (K.faults out.new)) ⊥) }
{
    match print_refusal(alloc, refusal) {
        Ok(text) => match out.give(&text) {
            Ok(()) => Err(Stop::Refused),
            Err(_) => Err(Stop::NoWrite),
        },
        Err(Memory) => Err(Stop::NoMemory),
    }
}

/// Gives what the end of a command prints, and answers this status. No memory.
pub fn end_with<K: Sink>(status: u8, bytes: &[u8], out: &mut K) -> Result<u8, Stop>
    ensures finishes { Finishes (record { bytes = bytes.now; status = status }) (K.given out.old) (K.given out.new) result }
    ensures read { result ≢ Err stop.NoRead }
    ensures sink { K.faults out.old ≤ K.faults out.new }
    ensures cause { IfErr result (λ stop. IsCause stop (Rose (K.faults out.old) (K.faults out.new)) ⊥) }
{
    match out.give(bytes) {
        Ok(()) => Ok(status),
        Err(_) => Err(Stop::NoWrite),
    }
}
