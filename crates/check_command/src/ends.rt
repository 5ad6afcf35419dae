// The end of the input.
ghost use Rattle.std.specs.Prelude.{◌≡◌, ◌≢◌, ◌≤◌, ◌⊎◌, length, Err, IfErr, IfOk};
ghost use Rattle.aria_base.specs.Faults.{Rose};
ghost use Rattle.script_course.specs.Causes.{IsCause};
ghost use Rattle.script_course.specs.Served.{Finishes};
ghost use Rattle.script_course.specs.declared.stops.Stop.TheVariants as stop;
ghost use Rattle.check_command.specs.Checks.{judged, on_end, out_of_finding};
ghost use Rattle.check_command.specs.Standing.{HasEnds, doing_of};
ghost use Rattle.script_course.specs.declared.statuses.TheConstants as status;
ghost use Rattle.serial_check.specs.Crowds.{IsOneOf};

use crate::readings::Reading;
use crate::texts::{fails_text, line_of};
use crate::works::Work;
use aria_base::{Memory, Sink};
use script_course::{DONE, FAILS, Stop, end_with, refuse};
use script_places::{ScriptPlace, catalog_in};
use script_text::{LinesRefused, Refusal, RefusalKind};
use serial_check::{Finding, check, crowded_is_run};
use std::alloc::Global;

/// The end of the input: the report is checked, and what is found is printed.
pub(crate) fn end_of<K: Sink>(alloc: Global, reading: Reading, out: &mut K) -> Result<u8, Stop>
    ensures finishes { Finishes (on_end reading) (K.given out.old) (K.given out.new) result }
    ensures read { result ≢ Err stop.NoRead }
    ensures status { IfOk result (λ ending. (ending ≡ status.DONE) ⊎ (ending ≡ status.FAILS)) }
    ensures sink { K.faults out.old ≤ K.faults out.new }
    ensures cause { IfErr result (λ stop. IsCause stop (Rose (K.faults out.old) (K.faults out.new)) ⊥) }
{
    let Reading { place, work } = reading;
    match place.close(alloc) {
        Ok(place) => judge(alloc, place, work, out),
        Err(LinesRefused::Memory) => Err(Stop::NoMemory),
        Err(LinesRefused::Line(refusal)) => refuse(alloc, &refusal, out),
    }
}

/// What the check finds, where nothing is refused.
fn judge<K: Sink>(alloc: Global, place: ScriptPlace, work: Work, out: &mut K) -> Result<u8, Stop>
    requires { HasEnds (doing_of place work) }
    ensures finishes { Finishes (judged (doing_of place work)) (K.given out.old) (K.given out.new) result }
    ensures read { result ≢ Err stop.NoRead }
    ensures status { IfOk result (λ ending. (ending ≡ status.DONE) ⊎ (ending ≡ status.FAILS)) }
    ensures sink { K.faults out.old ≤ K.faults out.new }
    ensures cause { IfErr result (λ stop. IsCause stop (Rose (K.faults out.old) (K.faults out.new)) ⊥) }
{
    crowded_is_run();
    let catalog = catalog_in(alloc, place.head);
    match check(alloc, catalog, work.tables, work.script, &work.report) {
        Ok(finding) => tell(alloc, &work.ends, finding, out),
        Err(Memory) => Err(Stop::NoMemory),
    }
}

/// Prints a finding.
fn tell<K: Sink>(alloc: Global, ends: &[u64], finding: Finding, out: &mut K) -> Result<u8, Stop>
    requires { IsOneOf (length ends.now) finding }
    ensures finishes { Finishes (out_of_finding ends.now finding) (K.given out.old) (K.given out.new) result }
    ensures read { result ≢ Err stop.NoRead }
    ensures status { IfOk result (λ ending. (ending ≡ status.DONE) ⊎ (ending ≡ status.FAILS)) }
    ensures sink { K.faults out.old ≤ K.faults out.new }
    ensures cause { IfErr result (λ stop. IsCause stop (Rose (K.faults out.old) (K.faults out.new)) ⊥) }
{
    match finding {
        Finding::Holds => end_with(DONE, b"check holds\n", out),
        Finding::Fails {
            line,
            wanted,
            found,
        } => match fails_text(alloc, line, &wanted, &found) {
            Ok(text) => end_with(FAILS, &text, out),
            Err(Memory) => Err(Stop::NoMemory),
        },
        Finding::Crowded { number } => {
            let refusal = Refusal {
                line: line_of(ends, number),
                kind: RefusalKind::Batch,
            };
            refuse(alloc, &refusal, out)
        }
    }
}
